//! The text of a generated session.

ghost use Rattle.std.specs.Prelude.{◌≡◌, ◌≤◌, ◌*◌, ◌/◌, ◌^◌, ◌<◌, ◌++◌, IfOk, string_bytes};
ghost use Rattle.session_make.specs.Sessions.{week, directive, session};

use crate::texts::{HEAD, TAIL};
use aerie_base::OutOfMemory;
use std::alloc::Global;

/// The microseconds of the week for which the plan lasts.
const WEEK: u64 = 604_800_000_000;

/// The activities in the order of the model.
const ACTIVITIES: [&str; 12] = [
    "Slew",
    "Image",
    "ImageSet",
    "HeaterOn",
    "HeaterOff",
    "Downlink",
    "Charge",
    "Calibrate",
    "SafeCheck",
    "Track",
    "Burst",
    "Mark",
];

/// The session with so many directives, 1 to 20,000: a spacecraft in orbit, its activities in turn and evenly spread over a
/// week, constraints, goals, and three clients who simulate, schedule and edit. It takes time linear in their number.
pub fn make(alloc: Global, number: u32) -> Result<String, OutOfMemory>
    requires some { 1 ≤ number }
    requires most { number ≤ 20_000 }
    ensures { IfOk result (λ text. string_bytes text ≡ session number) }
{
    let mut text = String::from_str(alloc, HEAD)?;
    let spacing = spacing_of(number);
    for position in 0..u64::from(number) {
        push_directive(&mut text, spacing, position)?;
    }
    text.push_str(TAIL)?;
    Ok(text)
}

/// How many microseconds lie between one directive and the next, where so many are spread over the week.
fn spacing_of(number: u32) -> u64
    requires { 1 ≤ number }
    ensures { result ≡ week / number }
{
    WEEK / u64::from(number)
}

/// Writes the line of the directive at a position from 0.
fn push_directive(text: &mut String, spacing: u64, position: u64) -> Result<(), OutOfMemory>
    requires { position * spacing < 2 ^ 64 }
    ensures { IfOk result (λ _. string_bytes text.new ≡ string_bytes text.old ++ directive spacing position) }
{
    let at = position * spacing;
    let which = (position % 12) as usize;
    let activity = ACTIVITIES[which];
    if which == 0 {
        writeln!(text, "  at {at}us {activity}(target = {position});")?;
    } else {
        writeln!(text, "  at {at}us {activity}();")?;
    }
    Ok(())
}
