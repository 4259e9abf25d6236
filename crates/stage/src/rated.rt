// A stage whose figures are worked out once.
ghost use Rattle.std.specs.Prelude.{◌≡◌};
ghost use Rattle.meaning.specs.Stages.{Meaning, Lawful};

use crate::traits::{Colour, Stage};
use meaning::Channels;
use std::marker::Model;

// A stage that keeps its steepness and error, so that asking for them takes no time.
#[derive(Drop)]
pub struct Rated<S: Stage> {
    stage: S,
    steepness: u32,
    error: u32,
}

impl<S: Stage> Model for Rated<S> {
    ghost use Rattle.std.specs.Prelude.{◌≡◌};

    ghost Value = { S };

    ghost view = { λ r. r.stage };

    ghost invariant = { λ r.
        (r.steepness ≡ (S.Stage.meaning r.stage).steepness)
        × (r.error ≡ (S.Stage.meaning r.stage).error) };
}

impl<S: Stage> Rated<S> {
    // The stage with its figures, which are worked out here.
    pub fn new(stage: S) -> Rated<S>
        ensures { result ≡ stage }
    {
        let steepness = stage.steepness();
        let error = stage.error();
        Rated {
            stage,
            steepness,
            error,
        }
    }

    pub fn stage(&self) -> &S
        ensures { result.now ≡ self.now }
    {
        &self.stage
    }
}

impl<S: Stage> Stage for Rated<S> {
    ghost meaning = { λ s. S.Stage.meaning s };

    ghost lawful = { λ s. S.Stage.lawful s };

    fn ins(&self) -> Channels {
        self.stage.ins()
    }

    fn outs(&self) -> Channels {
        self.stage.outs()
    }

    fn steepness(&self) -> u32 {
        self.steepness
    }

    fn error(&self) -> u32 {
        self.error
    }

    fn answer(&self, colour: &Colour) -> Colour {
        self.stage.answer(colour)
    }
}
