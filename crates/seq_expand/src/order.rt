//! The order of commands.

ghost use Rattle.std.specs.Prelude.{◌≡◌, IfOk};
ghost use Rattle.seq_expand.specs.Expanding.{by_time as in_order};

use crate::sequence::Sent;
use aerie_base::OutOfMemory;

/// The commands by time; those of one time stay in their order.
pub(crate) fn by_time(mut sent: Vec<Sent>) -> Result<Vec<Sent>, OutOfMemory>
    ensures { IfOk result (λ sorted. sorted.items ≡ in_order sent.items) }
{
    sent.sort_by(|one, other| one.at.cmp(&other.at))?;
    Ok(sent)
}
