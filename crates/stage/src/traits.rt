// The stage interface: what a stage means, the laws that it keeps, and how it is asked and run.
ghost use Rattle.std.specs.Prelude.{◌≡◌};
ghost use Rattle.meaning.specs.Stages.{Meaning, Lawful};

use meaning::{CHANNELS, Channels};

// A colour: four channels, each a count from 0 to 65,535.
pub type Colour = [u16; CHANNELS];

// A stage. Asking it and running it never fail and change nothing.
pub trait Stage {
    // What the stage means.
    ghost meaning: { Self → Meaning };

    // What each stage shows: its meaning keeps the laws.
    ghost lawful: { (s : Self) → Lawful (meaning s) };

    // The channels that it takes, and those that it gives.
    fn ins(&self) -> Channels
        ensures { result ≡ (meaning self.now).ins };

    fn outs(&self) -> Channels
        ensures { result ≡ (meaning self.now).outs };

    // In grains a count; 2^30 where none is claimed.
    fn steepness(&self) -> u32
        ensures { result ≡ (meaning self.now).steepness };

    // In grains.
    fn error(&self) -> u32
        ensures { result ≡ (meaning self.now).error };

    // The colour that it gives for a colour.
    fn answer(&self, colour: &Colour) -> Colour
        ensures { result ≡ (meaning self.now).answer colour.now };
}

// A lent stage is that stage.
impl<S: Stage> Stage for &S {
    ghost meaning = { λ s. S.Stage.meaning s.now };

    ghost lawful = { λ s. S.Stage.lawful s.now };

    fn ins(&self) -> Channels {
        (**self).ins()
    }

    fn outs(&self) -> Channels {
        (**self).outs()
    }

    fn steepness(&self) -> u32 {
        (**self).steepness()
    }

    fn error(&self) -> u32 {
        (**self).error()
    }

    fn answer(&self, colour: &Colour) -> Colour {
        (**self).answer(colour)
    }
}
