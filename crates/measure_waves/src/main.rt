//! Measures the waves of simulations over `Direct` and over `Spread` with empty books: `measure_waves counts WORLD NUMBER ..` prints
//! how many jobs and waves a plan with so many directives has, and `measure_waves times WORLD NUMBER ..` also how long they take. The
//! worlds are `orbit`, the model and the plan of the generated session, `short` and `long`, in which all directives begin at one time,
//! with a step of one statement or of 100 statements and tests each. The program is no part of the release.
#![tactic(auto)]

mod clocked;
mod figures;
mod steppers;
mod worlds;

use figures::{Figures, least_figures};
use std::rt::Clock;
use std::thread::Threads;
use std::{env, io};
use steppers::Stepping;
use thiserror::Error;
use worlds::World;

/// Why waves are not measured.
#[derive(Debug, Drop, Error)]
pub(crate) enum WaveError {
    #[error("there is no such world, or memory was wanted")]
    NotMeasured,
    #[error("{0}")]
    Failed(#[from] io::Error),
}

/// What is measured of each world: `Direct`, and `Spread` in 1, 2 and 4 pieces.
const MEASURED: [Stepping; 4] = [
    Stepping::Direct,
    Stepping::Spread(1),
    Stepping::Spread(2),
    Stepping::Spread(4),
];

/// Prints the figures of one stepper.
fn print_figures<R: Print>(
    rt: &R,
    stepping: Stepping,
    figures: Figures,
    with_times: bool,
) -> io::Result<()> {
    match stepping {
        Stepping::Direct => print!(rt; "  Direct:")?,
        Stepping::Spread(pieces) => print!(rt; "  Spread, {pieces}:")?,
    }
    print!(rt; " {} jobs in {} waves", figures.jobs, figures.waves)?;
    if with_times {
        let each = figures.in_waves.checked_div(figures.waves).unwrap_or(0);
        print!(rt;
            ", {} us, {each} ns each; simulation {} us",
            figures.in_waves / 1000,
            figures.whole / 1000
        )?;
    }
    println!(rt; "")
}

/// Measures each stepper on a world.
fn measure_world<R: Clock + Threads + Sync + Print + AllocGlobal>(
    rt: &R,
    name: &str,
    number: u32,
    with_times: bool,
) -> Result<(), WaveError> {
    let Some(world) = World::new(rt.alloc(), name, number) else {
        return Err(WaveError::NotMeasured)
    };
    println!(rt; "{name} {number}")?;
    for stepping in MEASURED {
        let Some(figures) = least_figures(rt, rt.alloc(), &world, stepping, with_times) else {
            return Err(WaveError::NotMeasured)
        };
        print_figures(rt, stepping, figures, with_times)?;
    }
    Ok(())
}

fn main(rt: HostRuntime) -> Result<(), WaveError> {
    let mut with_times = false;
    let mut world = String::new(rt.alloc());
    for (place, word) in env::args(&rt)?.enumerate() {
        if place == 1 {
            with_times = word.as_str() == "times";
        } else if let Ok(number) = word.as_str().parse::<u32>() {
            measure_world(&rt, world.as_str(), number, with_times)?;
        } else {
            world = word;
        }
    }
    Ok(())
}
