//! Activity types and daemons.

ghost use Rattle.readers.specs.Implements.{Consumes, MayConsume};
ghost use Rattle.model_reader.specs.reading.Items.{result_at, require_at, activity_body_at, activity_at, daemon_at};

use crate::raw::{RawExpr, RawItem, RawStmt, RawType};
use crate::reading::expressions::expr;
use crate::reading::items::parameters::params;
use crate::reading::names::raw_name;
use crate::reading::statements::body;
use crate::reading::types::type_;
use aerie_base::List;
use aerie_text::Sort;
use readers::{Element, Limit, Most, Reader, Refusal, ended_by, row};
use std::alloc::Global;

/// How many requirements an activity type may have.
const MOST_REQUIRES: Most = Most {
    count: 64,
    limit: Limit::Requires,
};

/// Reads the type of a result, where there is one.
#[tactic(auto, unfolding(crate::specs::reading::Items::result_at, crate::specs::reading::Items::given_result_at))]
fn result_(alloc: Global, reader: &mut Reader) -> Result<Option<RawType>, Refusal>
    ensures { MayConsume result_at reader.old reader.new result }
{
    if reader.next_is(Sort::Arrow) {
        reader.take(Sort::Arrow)?;
        let kind = type_(alloc, reader)?;
        Ok(Some(kind))
    } else {
        Ok(None)
    }
}

/// A requirement.
struct OneRequirement;

impl Element for OneRequirement {
    type Part = RawExpr;

    ghost part_at = { require_at };

    #[tactic(auto, unfolding(crate::specs::reading::Items::require_at))]
    fn part(alloc: Global, reader: &mut Reader) -> Result<RawExpr, Refusal> {
        reader.take(Sort::Require)?;
        let condition = expr(alloc, reader)?;
        ended_by(reader, Sort::Semicolon, condition)
    }
}

/// Reads the requirements and the statements of an activity type, in braces.
#[tactic(auto, unfolding(crate::specs::reading::Items::activity_body_at, crate::specs::reading::Items::requires_at))]
fn activity_body(
    alloc: Global,
    reader: &mut Reader,
) -> Result<(List<RawExpr>, List<RawStmt>), Refusal>
    ensures { Consumes activity_body_at reader.old reader.new result }
{
    reader.take(Sort::OpenBrace)?;
    let requires_ = row::<OneRequirement>(alloc, reader, &[Sort::Require], Some(MOST_REQUIRES))?;
    let body = body(alloc, reader)?;
    ended_by(reader, Sort::CloseBrace, (requires_, body))
}

#[tactic(auto, unfolding(crate::specs::reading::Items::activity_at))]
pub fn activity(alloc: Global, reader: &mut Reader) -> Result<RawItem, Refusal>
    ensures { Consumes activity_at reader.old reader.new result }
{
    reader.take(Sort::Activity)?;
    let name = raw_name(alloc, reader)?;
    let parameters = params(alloc, reader)?;
    let result = result_(alloc, reader)?;
    let (requires_, body) = activity_body(alloc, reader)?;
    Ok(RawItem::Activity {
        name,
        parameters,
        result,
        requires_,
        body,
    })
}

#[tactic(auto, unfolding(crate::specs::reading::Items::daemon_at))]
pub fn daemon(alloc: Global, reader: &mut Reader) -> Result<RawItem, Refusal>
    ensures { Consumes daemon_at reader.old reader.new result }
{
    reader.take(Sort::Daemon)?;
    reader.take(Sort::OpenBrace)?;
    let body = body(alloc, reader)?;
    ended_by(reader, Sort::CloseBrace, RawItem::Daemon { body })
}
