//! A round of the handler: one step on each cell.
ghost use Rattle.std.specs.Prelude.{◌≡◌, ◌+◌, ◌<◌};
ghost use Rattle.usb_live.specs.Rounds.{steps_of, with_step, no_steps};

use crate::seats::{CellStep, HandlerSeat};
use usb_kernel::Kernel;

/// How many steps of a round gave each answer.
#[derive(Clone, Copy, PartialEq, Eq, Debug)]
pub struct Round {
    pub not_yet: u64,
    pub finished: u64,
    pub reclaimed: u64,
    pub empty: u64,
}

impl Round {
    /// No step yet.
    fn new() -> Round
        ensures none { result ≡ no_steps }
    {
        Round {
            not_yet: 0,
            finished: 0,
            reclaimed: 0,
            empty: 0,
        }
    }

    /// Counts a step.
    fn count(&mut self, step: CellStep)
        requires small { steps_of self.old < 64 }
        ensures counted { self.new ≡ with_step self.old step }
    {
        match step {
            CellStep::NotYet => self.not_yet += 1,
            CellStep::Finished => self.finished += 1,
            CellStep::Reclaimed => self.reclaimed += 1,
            CellStep::Empty => self.empty += 1,
        }
    }
}

impl HandlerSeat {
    ghost use Rattle.usb_live.specs.Answers.{reclaimed_in};
    ghost use Rattle.usb_live.specs.Rounds.{StepsOnCells, AppendsReaps};

    /// One step on each cell, from the first to the last.
    pub fn round(&mut self, kernel: &mut Kernel) -> Round
        ensures row { self.new.row ≡ self.old.row }
        ensures each { StepsOnCells 64 self.old.view kernel.old self.new.view kernel.new result }
        ensures steps { steps_of result ≡ 64 }
        ensures looks { self.new.view.looks ≡ self.old.view.looks + 64 }
        ensures count { reclaimed_in self.new.view.handler
            ≡ reclaimed_in self.old.view.handler + result.reclaimed }
        ensures kernel { AppendsReaps (result.finished + result.reclaimed) kernel.old kernel.new }
    {
        let mut round = Round::new();
        for cell in 0..64 {
            let step = self.step(kernel, cell);
            round.count(step);
        }
        round
    }
}
