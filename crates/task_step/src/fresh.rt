ghost use Rattle.std.specs.Prelude.{◌≡◌, ◌+◌};

use aerie_base::Steps;
use run_data::Frame;
use std::marker::Model;
use std::sync::ledger::Ledger;

/// The frame of a step that was run and is not counted yet. Contracts see the frame.
#[derive(Drop)]
pub struct Fresh {
    frame: Frame,
}

impl Model for Fresh {
    ghost use Rattle.std.specs.Coded.{codes};
    ghost use Rattle.aerie_base.specs.contracts.conditions.Cond as cond;
    ghost use Rattle.run_data.specs.TaskFrames.{Frame as Seen};

    ghost Value = { Seen };

    ghost coded = { Prim.hlevel (codes, cond.the_row.coded) };

    ghost view = { λ fresh. fresh.frame };
}

impl Fresh {
    /// The frame of a step that was just run.
    pub(crate) fn new(frame: Frame) -> Fresh
        ensures { result ≡ frame }
    {
        Fresh { frame }
    }

    /// The frame, which is counted with the wave that it stands in.
    pub(crate) fn into_frame(self) -> Frame
        ensures { result ≡ self }
    {
        self.frame
    }

    /// The frame, whose statements and tests are counted with this. It takes no memory.
    pub fn open<L: Ledger>(self, steps: &mut Steps<L>) -> Frame
        ensures frame { result ≡ self }
        ensures steps { steps.new ≡ steps.old + self.cost }
    {
        steps.rise(self.frame.cost());
        self.frame
    }
}
