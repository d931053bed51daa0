//! Which commands stand too close.

ghost use Rattle.std.specs.Prelude.{◌≡◌, ℕ, List, [], Some, IfOk, OnOk, cond};
ghost use Rattle.std.specs.HashMap as hash;
ghost use Rattle.aerie_base.specs.models.Names.{same_name};
ghost use Rattle.seq_expand.specs.declared.sequence.Sent.{Sent};
ghost use Rattle.seq_expand.specs.Closeness.{close_positions as close_positions_by};
ghost use Rattle.seq_expand.specs.Spaced.{is_soon_for, with_last_at, spaced_behind, widened};

use crate::sequence::Sent;
use aerie_base::{List, Name, OutOfMemory, Time};
use std::alloc::Global;
use std::collections::HashMap;

/// What is known of the commands of a name that has a spacing.
#[derive(Clone, Copy)]
struct Spaced {
    /// How long after one another they stand at least.
    least: Time,
    /// When the last one was sent.
    last: Option<i64>,
}

/// The same with a spacing more of that name.
fn widened(spaced: Option<Spaced>, least: Time) -> Spaced
    ensures { result ≡ widened spaced least }
{
    match spaced {
        Some(spaced) => Spaced {
            least: spaced.least.later(least),
            last: spaced.last,
        },
        None => Spaced { least, last: None },
    }
}

/// What is known of a name, where it has a spacing.
fn spaced_for(spaced: &HashMap<Name, Spaced>, name: &Name) -> Option<Spaced>
    ensures { result ≡ hash.get same_name spaced.now name.now }
{
    spaced.get(name).copied()
}

/// Puts a spacing in.
fn put_spacing(
    alloc: Global,
    spaced: &mut HashMap<Name, Spaced>,
    spacing: &(Name, Time),
) -> Result<(), OutOfMemory>
    ensures { OnOk result ((name : List ℕ) → hash.get same_name spaced.new name ≡ cond (same_name spacing.now.0 name) (Some (widened (hash.get same_name spaced.old spacing.now.0) spacing.now.1)) (hash.get same_name spaced.old name)) }
{
    let known = spaced_for(spaced, &spacing.0);
    let wider = widened(known, spacing.1);
    let name = spacing.0.copy(alloc)?;
    spaced.insert(name, wider)?;
    Ok(())
}

/// The spacings by name, before any command.
fn spaced_by_name(
    alloc: Global,
    spacings: &[(Name, Time)],
) -> Result<HashMap<Name, Spaced>, OutOfMemory>
    ensures { IfOk result (λ spaced. (name : List ℕ) → hash.get same_name spaced name ≡ spaced_behind spacings.now [] name) }
{
    let mut spaced = HashMap::new(alloc);
    let mut at = spacings.len();
    while at > 0 {
        at -= 1;
        put_spacing(alloc, &mut spaced, &spacings[at])?;
    }
    Ok(spaced)
}

/// Whether a command stands too close behind the last one of its name.
fn is_soon(spaced: &Spaced, at: i64) -> bool
    ensures { result ≡ is_soon_for (Some spaced.now) at }
{
    match spaced.last {
        Some(before) => i128::from(at) - i128::from(before) < i128::from(spaced.least.get()),
        None => false,
    }
}

/// Sends a command: whether it stands too close behind the last one of its name, and from then on it is the last one. It takes one
/// look for its name.
fn send(spaced: &mut HashMap<Name, Spaced>, sent: &Sent) -> bool
    ensures close { result ≡ is_soon_for (hash.get same_name spaced.old sent.now.name) sent.now.at }
    ensures last { (name : List ℕ) → hash.get same_name spaced.new name ≡ cond (same_name sent.now.name name) (with_last_at sent.now.at (hash.get same_name spaced.old sent.now.name)) (hash.get same_name spaced.old name) }
{
    match spaced.get_mut(&sent.name) {
        Some(spaced) => {
            let close = is_soon(spaced, sent.at);
            spaced.last = Some(sent.at);
            close
        }
        None => false,
    }
}

/// The positions of the commands, which stand in the order of time, that are too close behind the last one of their name. It takes
/// one look for each spacing and for each command.
pub(crate) fn close_positions(
    alloc: Global,
    spacings: &[(Name, Time)],
    commands: &[Sent],
) -> Result<List<u64>, OutOfMemory>
    ensures { IfOk result (λ positions. positions ≡ close_positions_by spacings.now commands.now) }
{
    let mut positions = List::new(alloc);
    let mut spaced = spaced_by_name(alloc, spacings)?;
    for at in 0..commands.len() {
        let is_close = send(&mut spaced, &commands[at]);
        if is_close {
            positions.push(at as u64)?;
        }
    }
    Ok(positions)
}
