// The numbers that store one channel: how they stand for counts, and the two widths that there are.
ghost use Rattle.std.specs.Prelude.{◌≡◌};
ghost use Rattle.meaning.proofs.SampleLaws.{eight_bits_lawful, sixteen_bits_lawful};
ghost use Rattle.meaning.specs.Samples.{Width, LawfulWidth, eight_bits, sixteen_bits};

use meaning::GRAINS;

// A number that stores one channel.
pub trait Sample: Copy {
    // What numbers of this width mean.
    ghost width: { Width Self };

    // What each width shows: it keeps the laws.
    ghost lawful: { LawfulWidth width };

    // The count that it stands for.
    fn count(self) -> u16
        ensures { result ≡ width.count self };

    // The sample that is made from a count: at both widths the nearest.
    fn nearest(count: u16) -> Self
        ensures { result ≡ width.nearest count };

    // In grains: how far a count may lie from that of the sample made from it.
    fn error() -> u32
        ensures { result ≡ width.error };
}

// A byte: 255 stands for 65,535, so that neighbours lie 257 counts apart.
impl Sample for u8 {
    ghost width = { eight_bits };

    ghost lawful = { eight_bits_lawful };

    fn count(self) -> u16 {
        257 * u16::from(self)
    }

    fn nearest(count: u16) -> u8 {
        ((u32::from(count) + 128) / 257) as u8
    }

    // Half of the 257 counts, rounded down.
    fn error() -> u32 {
        128 * GRAINS
    }
}

// Sixteen bits: the count itself.
impl Sample for u16 {
    ghost width = { sixteen_bits };

    ghost lawful = { sixteen_bits_lawful };

    fn count(self) -> u16 {
        self
    }

    fn nearest(count: u16) -> u16 {
        count
    }

    fn error() -> u32 {
        0
    }
}
