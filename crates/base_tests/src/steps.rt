//! A counter of steps with a ledger of its own.

ghost use Rattle.std.specs.Prelude.{◌≡◌, ◌<◌};

use aerie_base::Steps;
use std::marker::Brand;
use std::sync::ledger::{Blank, Ledger};

/// Takes only a counter that stands at 7.
fn needs_seven<L: Ledger>(_steps: &Steps<L>)
    requires { _steps.now ≡ 7 }
{}

/// Counts two steps, and then five.
fn count_seven<L: Ledger>(blank: Blank)
    requires name { blank.name ≡ L.name }
    requires parts { blank.parts ≡ L.parts }
    requires some { 0 < L.parts }
{
    let mut steps = Steps::<L>::open(blank);
    steps.rise(2);
    steps.rise(5);
    needs_seven(&steps);
}

#[test]
fn counts_with_a_ledger_of_its_own(_rt: HostRuntime) {
    count_seven::<Brand>(Blank::new(1));
}
