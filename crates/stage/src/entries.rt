// The entries of tables, read in one way wherever they are stored.
ghost use Rattle.std.specs.Prelude.{◌≡◌, ℕ, ◌+◌, ◌*◌, List, map, slice_index};
ghost use Rattle.stage.specs.Entries.{wide};

use crate::samples::Sample;

// A list of counts, read one at a time.
pub trait Entries {
    ghost counts: { Self → List ℕ };

    // The entry at `index`; beyond the list it is 0.
    fn entry(&self, index: usize) -> u16
        ensures { result ≡ slice_index (counts self.now) index };
}

// A table of samples.
#[derive(Clone, Copy)]
pub struct Table<'a, S>(pub &'a [S]);

// Profile bytes of a lut8 element: the byte v means 257·v.
pub type NarrowBytes<'a> = Table<'a, u8>;

// A table of 16-bit numbers, as a link keeps its nodes.
pub type NodeTable<'a> = Table<'a, u16>;

// Profile bytes of a lut16 element: two bytes an entry, the high one first.
#[derive(Clone, Copy)]
pub struct WideBytes<'a>(pub &'a [u8]);

// Two bytes as one number, the high one first. Apart, so that another order is refused here and not
// in a proof.
fn two_bytes(pair: &[u8; 2]) -> u16
    ensures { result ≡ 256 * slice_index pair.now 0 + slice_index pair.now 1 }
{
    u16::from_be_bytes(*pair)
}

impl<S: Sample> Entries for Table<'_, S> {
    ghost counts = { λ s. map S.width.count s.0.now };

    fn entry(&self, index: usize) -> u16 {
        self.0.get(index).map_or(0, |sample| sample.count())
    }
}

impl Entries for WideBytes<'_> {
    ghost counts = { λ s. wide s.0.now };

    fn entry(&self, index: usize) -> u16 {
        let (pairs, _) = self.0.as_chunks::<2>();
        pairs.get(index).map_or(0, two_bytes)
    }
}
