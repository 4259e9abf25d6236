// Two stages joined: the second runs after the first.
ghost use Rattle.meaning.proofs.JoinLaws.{joining_lawful};
ghost use Rattle.meaning.specs.Stages.{joined};

use crate::traits::{Colour, Stage};
use meaning::{Channels, joined_error, joined_steepness};

#[derive(Clone, Copy)]
pub struct Joined<A, B> {
    pub first: A,
    pub second: B,
}

impl<A: Stage, B: Stage> Stage for Joined<A, B> {
    ghost meaning = { λ s. joined (A.Stage.meaning s.first) (B.Stage.meaning s.second) };

    ghost lawful = { λ s.
        joining_lawful (A.Stage.meaning s.first) (B.Stage.meaning s.second)
        (A.Stage.lawful s.first) (B.Stage.lawful s.second) };

    fn ins(&self) -> Channels {
        self.first.ins()
    }

    fn outs(&self) -> Channels {
        self.second.outs()
    }

    fn steepness(&self) -> u32 {
        joined_steepness(self.first.steepness(), self.second.steepness())
    }

    fn error(&self) -> u32 {
        joined_error(
            self.second.steepness(),
            self.first.error(),
            self.second.error(),
        )
    }

    fn answer(&self, colour: &Colour) -> Colour {
        self.second.answer(&self.first.answer(colour))
    }
}
