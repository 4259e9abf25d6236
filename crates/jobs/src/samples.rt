// Pixels read from plain numbers, and shown as such.
use crate::job::Reason;
use link::{Cmyk, Gray, Pixel, Rgb};
use stage::Sample;
use std::alloc::Global;
use std::fmt::Display;
use std::io;
use std::num::TryFromIntError;

// A sample that is read from a plain number, and written as one.
pub(crate) trait Number: Sample + Display + TryFrom<u16, Error = TryFromIntError> {}

impl Number for u8 {}

impl Number for u16 {}

// A pixel kind whose pixels are written as one number for each channel.
pub(crate) trait Sampled: Pixel {
    // The pixel of these numbers, or nothing where they are not one a channel or one is too large.
    fn from_samples(samples: &[u16]) -> Option<Self>;

    // Prints the numbers of the pixel, with a space before each.
    fn print(&self, rt: &HostRuntime) -> io::Result<()>;
}

// The sample that is written as this number, or nothing where it is too large.
fn sample<S: Number>(number: u16) -> Option<S> {
    S::try_from(number).ok()
}

impl<S: Number> Sampled for Gray<S> {
    fn from_samples(samples: &[u16]) -> Option<Gray<S>> {
        let &[value] = samples else {
            return None;
        };
        Some(Gray {
            value: sample(value)?,
        })
    }

    fn print(&self, rt: &HostRuntime) -> io::Result<()> {
        let Gray { value } = self;
        print!(rt; " {value}")
    }
}

impl<S: Number> Sampled for Rgb<S> {
    fn from_samples(samples: &[u16]) -> Option<Rgb<S>> {
        let &[red, green, blue] = samples else {
            return None;
        };
        Some(Rgb {
            red: sample(red)?,
            green: sample(green)?,
            blue: sample(blue)?,
        })
    }

    fn print(&self, rt: &HostRuntime) -> io::Result<()> {
        let Rgb { red, green, blue } = self;
        print!(rt; " {red} {green} {blue}")
    }
}

impl<S: Number> Sampled for Cmyk<S> {
    fn from_samples(samples: &[u16]) -> Option<Cmyk<S>> {
        let &[cyan, magenta, yellow, black] = samples else {
            return None;
        };
        Some(Cmyk {
            cyan: sample(cyan)?,
            magenta: sample(magenta)?,
            yellow: sample(yellow)?,
            black: sample(black)?,
        })
    }

    fn print(&self, rt: &HostRuntime) -> io::Result<()> {
        let Cmyk {
            cyan,
            magenta,
            yellow,
            black,
        } = self;
        print!(rt; " {cyan} {magenta} {yellow} {black}")
    }
}

// A row of pixels from its samples, one pixel after the other.
pub(crate) fn pixels<P: Sampled>(heap: Global, samples: &[u16]) -> Result<Vec<P>, Reason> {
    samples
        .chunks(P::channels().number())
        .map(|part| P::from_samples(part).ok_or(Reason::NotASample))
        .try_collect(heap)
}
