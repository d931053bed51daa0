//! Parameters of an activity type.

ghost use Rattle.readers.specs.Implements.{Consumes, MayConsume};
ghost use Rattle.model_reader.specs.reading.Items.{default_at, param_at, params_at};

use crate::raw::{RawLiteral, RawParameter};
use crate::reading::literals::literal;
use crate::reading::names::raw_name;
use crate::reading::types::type_;
use aerie_base::List;
use aerie_text::Sort;
use readers::{Element, Limit, Most, Reader, Refusal, parenthesized};
use std::alloc::Global;

/// How many parameters an activity type may have.
const MOST_PARAMETERS: Most = Most {
    count: 16,
    limit: Limit::Parameters,
};

/// Reads the value that a parameter has where no argument is given, where there is one.
#[tactic(auto, unfolding(crate::specs::reading::Items::default_at, crate::specs::reading::Items::given_default_at))]
fn default(alloc: Global, reader: &mut Reader) -> Result<Option<RawLiteral>, Refusal>
    ensures { MayConsume default_at reader.old reader.new result }
{
    if reader.next_is(Sort::Assign) {
        reader.take(Sort::Assign)?;
        let value = literal(alloc, reader)?;
        Ok(Some(value))
    } else {
        Ok(None)
    }
}

/// A parameter.
struct OneParameter;

impl Element for OneParameter {
    type Part = RawParameter;

    ghost part_at = { param_at };

    #[tactic(auto, unfolding(crate::specs::reading::Items::param_at))]
    fn part(alloc: Global, reader: &mut Reader) -> Result<RawParameter, Refusal> {
        let name = raw_name(alloc, reader)?;
        reader.take(Sort::Colon)?;
        let kind = type_(alloc, reader)?;
        let default = default(alloc, reader)?;
        Ok(RawParameter {
            name,
            kind,
            default,
        })
    }
}

/// Reads parameters in parentheses.
#[tactic(auto, unfolding(crate::specs::reading::Items::params_at))]
pub fn params(alloc: Global, reader: &mut Reader) -> Result<List<RawParameter>, Refusal>
    ensures { Consumes params_at reader.old reader.new result }
{
    parenthesized::<OneParameter>(alloc, reader, Sort::Name, Some(MOST_PARAMETERS))
}
