// Stages of one type that run one after the other.
ghost use Rattle.std.specs.Option.{option_map};
ghost use Rattle.std.specs.Prelude.{◌≡◌};
ghost use Rattle.stage.specs.ChainLaws.{chained_lawful};
ghost use Rattle.stage.specs.Chains.{chain_over, chained, stages_of};

use crate::traits::{Colour, Stage};
use meaning::{Channels, joined_error, joined_steepness};

// One stage or more, each of which runs after the one before it.
#[derive_where(Clone, Copy)]
pub struct Chain<'a, S> {
    pub first: &'a S,
    pub rest: &'a [S],
}

impl<'a, S> Chain<'a, S> {
    // The chain of these stages, or nothing where there is none.
    pub fn new(stages: &'a [S]) -> Option<Chain<'a, S>>
        ensures { option_map stages_of result ≡ chain_over stages.now }
    {
        let (first, rest) = stages.split_first()?;
        Some(Chain::of(first, rest))
    }

    // The chain of a stage and those after it.
    pub fn of(first: &'a S, rest: &'a [S]) -> Chain<'a, S>
        ensures first { result.first.now ≡ first.now }
        ensures rest { result.rest.now ≡ rest.now }
    {
        Chain { first, rest }
    }
}

impl<S: Stage> Stage for Chain<'_, S> {
    ghost meaning = { λ s. chained S.Stage.meaning s.first.now s.rest.now };

    ghost lawful = { λ s.
        let first = s.first.now in
        chained_lawful S.Stage.meaning S.Stage.lawful
        (S.Stage.meaning first) (S.Stage.lawful first) s.rest.now };

    #[tactic(auto, using(crate::specs::ChainLaws::chained_ins))]
    fn ins(&self) -> Channels {
        self.first.ins()
    }

    fn outs(&self) -> Channels {
        self.rest.last().unwrap_or(self.first).outs()
    }

    // A loop here and below, each with its invariant: a `fold` would need an answer in its place
    // and an `ensures` of its closure besides, and a wrong line would be refused in that answer.
    fn steepness(&self) -> u32 {
        let mut steepness = self.first.steepness();
        for next in self.rest {
            steepness = joined_steepness(steepness, next.steepness());
        }
        steepness
    }

    fn error(&self) -> u32 {
        let mut error = self.first.error();
        for next in self.rest {
            error = joined_error(next.steepness(), error, next.error());
        }
        error
    }

    fn answer(&self, colour: &Colour) -> Colour {
        let mut answer = self.first.answer(colour);
        for next in self.rest {
            answer = next.answer(&answer);
        }
        answer
    }
}
