//! How the calls are printed.

use crate::watch::Measured;
use std::io;

/// Prints a line for each call: what it made, and, where that is asked for, how long it took, how long for each thing, and how
/// many times as long as the call at this place took before.
pub(crate) fn print_calls<R: Print>(
    rt: &R,
    calls: &[Measured],
    before: &[Measured],
    with_times: bool,
) -> io::Result<()> {
    for (place, it) in calls.iter().enumerate() {
        print!(rt; "  {}: {} {}", it.call, it.number, it.things)?;
        if with_times {
            print_time(rt, it, before.get(place))?;
        }
        println!(rt; "")?;
    }
    Ok(())
}

/// Prints how long a call took.
fn print_time<R: Print>(rt: &R, it: &Measured, before: Option<&Measured>) -> io::Result<()> {
    let each = it.nanoseconds.checked_div(it.number).unwrap_or(0);
    print!(rt; ", {} us, {each} ns each", it.nanoseconds / 1000)?;
    if let Some(before) = before {
        let hundredths = u128::from(it.nanoseconds) * 100 / u128::from(before.nanoseconds.max(1));
        print!(rt;
            ", {}.{:02} times the one before",
            hundredths / 100,
            hundredths % 100
        )?;
    }
    Ok(())
}
