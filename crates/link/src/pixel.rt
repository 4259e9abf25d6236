// Pixel kinds: how a pixel shows a colour, and how one is made from a colour.
ghost use Rattle.std.specs.Prelude.{◌≡◌};
ghost use Rattle.meaning.specs.Kinds.{Kind, LawfulKind};
ghost use Rattle.link.specs.Pixels.{gray, rgb, cmyk, gray8, rgb8, cmyk8, rgb16};
ghost use Rattle.link.specs.PixelLaws.{gray_lawful, rgb_lawful, cmyk_lawful};

use meaning::{Channels, Faithful};
use stage::{Colour, Sample};
use std::fmt;

// A pixel kind. Its pixels are plain values.
pub trait Pixel: Copy {
    // What the kind means.
    ghost kind: { Kind Self };

    // What each pixel kind shows: it keeps the laws.
    ghost lawful: { LawfulKind kind };

    // The channels of its pixels.
    fn channels() -> Channels
        ensures { result ≡ kind.channels };

    // In grains: how far a made pixel's counts may lie from the colour's.
    fn error() -> u32
        ensures { result ≡ kind.error };

    // The colour that the pixel shows.
    fn show(&self) -> Colour
        ensures { result ≡ kind.shown self.now };

    // The pixel made from a colour.
    fn make(colour: &Colour) -> Self
        ensures { result ≡ kind.made colour.now };
}

// One channel, in samples of one width.
#[derive(Clone, Copy, PartialEq, Eq)]
pub struct Gray<S> {
    pub value: S,
}

// Three channels.
#[derive(Clone, Copy, PartialEq, Eq)]
pub struct Rgb<S> {
    pub red: S,
    pub green: S,
    pub blue: S,
}

// Four channels.
#[derive(Clone, Copy, PartialEq, Eq)]
pub struct Cmyk<S> {
    pub cyan: S,
    pub magenta: S,
    pub yellow: S,
    pub black: S,
}

// The kinds that programs use: eight bits a channel, or sixteen.
pub type Gray8 = Gray<u8>;

pub type Rgb8 = Rgb<u8>;

pub type Cmyk8 = Cmyk<u8>;

pub type Rgb16 = Rgb<u16>;

// The name of a kind by the width of its samples: those of eight bits err, and those of sixteen do not.
fn name_by_width<S: Sample>(eight: &'static str, sixteen: &'static str) -> &'static str {
    match S::error() {
        0 => sixteen,
        _ => eight,
    }
}

// A pixel is shown under the name of its kind, so that one of eight bits and one of sixteen are told apart.
impl<S: Sample + fmt::Debug> fmt::Debug for Gray<S> {
    fn fmt<W: fmt::Write>(&self, f: &mut fmt::Formatter<W>) -> fmt::Result {
        f.debug_struct(name_by_width::<S>("Gray8", "Gray16"))
            .field("value", &self.value)
            .finish()
    }
}

impl<S: Sample + fmt::Debug> fmt::Debug for Rgb<S> {
    fn fmt<W: fmt::Write>(&self, f: &mut fmt::Formatter<W>) -> fmt::Result {
        f.debug_struct(name_by_width::<S>("Rgb8", "Rgb16"))
            .field("red", &self.red)
            .field("green", &self.green)
            .field("blue", &self.blue)
            .finish()
    }
}

impl<S: Sample + fmt::Debug> fmt::Debug for Cmyk<S> {
    fn fmt<W: fmt::Write>(&self, f: &mut fmt::Formatter<W>) -> fmt::Result {
        f.debug_struct(name_by_width::<S>("Cmyk8", "Cmyk16"))
            .field("cyan", &self.cyan)
            .field("magenta", &self.magenta)
            .field("yellow", &self.yellow)
            .field("black", &self.black)
            .finish()
    }
}

// These four names, as the crate offers them, stand for the kinds that the definitions give, and these keep the laws.
pub fn named_kinds()
    ensures gray8 { ⟦<crate::Gray8 as Pixel>⟧.kind ≡ gray8 }
    ensures rgb8 { ⟦<crate::Rgb8 as Pixel>⟧.kind ≡ rgb8 }
    ensures cmyk8 { ⟦<crate::Cmyk8 as Pixel>⟧.kind ≡ cmyk8 }
    ensures rgb16 { ⟦<crate::Rgb16 as Pixel>⟧.kind ≡ rgb16 }
    ensures gray8_lawful { LawfulKind gray8 }
    ensures rgb8_lawful { LawfulKind rgb8 }
    ensures cmyk8_lawful { LawfulKind cmyk8 }
    ensures rgb16_lawful { LawfulKind rgb16 }
{}

impl<S: Sample> Pixel for Gray<S> {
    ghost kind = { gray S.width };

    ghost lawful = { gray_lawful S.lawful };

    fn channels() -> Channels {
        Channels::One
    }

    fn error() -> u32 {
        S::error()
    }

    fn show(&self) -> Colour {
        [self.value.count(), 0, 0, 0]
    }

    fn make(colour: &Colour) -> Gray<S> {
        Gray {
            value: S::nearest(colour[0]),
        }
    }
}

impl<S: Sample> Pixel for Rgb<S> {
    ghost kind = { rgb S.width };

    ghost lawful = { rgb_lawful S.lawful };

    fn channels() -> Channels {
        Channels::Three
    }

    fn error() -> u32 {
        S::error()
    }

    fn show(&self) -> Colour {
        [self.red.count(), self.green.count(), self.blue.count(), 0]
    }

    fn make(colour: &Colour) -> Rgb<S> {
        Rgb {
            red: S::nearest(colour[0]),
            green: S::nearest(colour[1]),
            blue: S::nearest(colour[2]),
        }
    }
}

impl<S: Sample> Pixel for Cmyk<S> {
    ghost kind = { cmyk S.width };

    ghost lawful = { cmyk_lawful S.lawful };

    fn channels() -> Channels {
        Channels::Four
    }

    fn error() -> u32 {
        S::error()
    }

    fn show(&self) -> Colour {
        [
            self.cyan.count(),
            self.magenta.count(),
            self.yellow.count(),
            self.black.count(),
        ]
    }

    fn make(colour: &Colour) -> Cmyk<S> {
        Cmyk {
            cyan: S::nearest(colour[0]),
            magenta: S::nearest(colour[1]),
            yellow: S::nearest(colour[2]),
            black: S::nearest(colour[3]),
        }
    }
}

impl<S: Faithful> Faithful for Gray<S> {
    ghost use Rattle.std.proofs.Common.{rules};

    ghost equal = { Prim.search rules };

    ghost copied = { Prim.search rules };
}

impl<S: Faithful> Faithful for Rgb<S> {
    ghost use Rattle.std.proofs.Common.{rules};

    ghost equal = { Prim.search rules };

    ghost copied = { Prim.search rules };
}

impl<S: Faithful> Faithful for Cmyk<S> {
    ghost use Rattle.std.proofs.Common.{rules};

    ghost equal = { Prim.search rules };

    ghost copied = { Prim.search rules };
}
