//! Measures books and stores of stored steps, and tries them where memory ends. The program is no part of the release.
//!
//! - `measure_books times 50000 100000 ..` prints how long the calls take of books and stores of so many steps: once of steps from
//!   one state that read different numbers, and once of steps from different states.
//! - `measure_books refusals` reads a number, takes so many growths, and prints how calls end of which one growth may be refused, as
//!   `tests/refused_growths` has it.
#![tactic(auto)]

mod chapters;
mod counting;
mod figures;
mod refusals;

use chapters::Differing;
use figures::{measure_book, measure_store};
use refusals::try_calls;
use std::rt::Runtime;
use std::sync::Wait;
use std::{env, io};

/// Prints how long the calls take.
fn print_times<R: Runtime + AllocGlobal + Wait>(
    rt: &R,
    differing: Differing,
    count: u32,
) -> io::Result<()> {
    let is_measured = measure_book(rt, differing, count).is_some()
        && measure_store(rt, differing, count).is_some();
    if !is_measured {
        println!(rt; "  not measured")?;
    }
    Ok(())
}

/// The number that is read, or 0.
fn number_read<R: Runtime + AllocGlobal>(rt: &R) -> io::Result<u32> {
    let mut number = 0;
    for line in rt.lines(rt.alloc()) {
        number = line?.as_str().parse::<u32>().unwrap_or(0);
    }
    Ok(number)
}

/// Prints how calls end of which a growth may be refused.
fn print_refusals<R: Runtime + AllocGlobal + Wait>(rt: &R) -> io::Result<()> {
    let growths = number_read(rt)?;
    match try_calls(rt, rt.alloc(), growths) {
        Some(ends) => println!(rt;
            "take_in {}, publish {}, learn {}",
            ends.take_in.in_words(),
            ends.publish.in_words(),
            ends.learn.in_words()
        ),
        None => println!(rt; "refused before a call"),
    }
}

/// Prints the times for a word that is a number.
fn print_times_of<R: Runtime + AllocGlobal + Wait>(rt: &R, word: &str) -> io::Result<()> {
    let Ok(count) = word.parse::<u32>() else {
        return Ok(());
    };
    println!(rt; "{count} steps from one state")?;
    print_times(rt, Differing::Reads, count)?;
    println!(rt; "{count} steps from different states")?;
    print_times(rt, Differing::States, count)
}

fn main(rt: HostRuntime) -> io::Result<()> {
    for (place, word) in env::args(&rt)?.enumerate() {
        if place == 1 && word.as_str() == "refusals" {
            print_refusals(&rt)?;
        } else if place > 1 {
            print_times_of(&rt, word.as_str())?;
        }
    }
    Ok(())
}
