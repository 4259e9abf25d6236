// Pixels as the bytes of a picture: the samples one after the other, of two bytes the high one first.
use link::{Cmyk, Gray, Pixel, Rgb};
use stage::Sample;

// A sample as bytes. Beyond their end samples are 0, and none is put.
pub(crate) trait RawSample: Sample {
    // Sample `place` of these bytes.
    fn read_at(bytes: &[u8], place: u8) -> Self;

    // Puts it as sample `place` into these bytes.
    fn put_at(self, bytes: &mut [u8], place: u8);
}

fn put_byte(bytes: &mut [u8], place: usize, byte: u8) {
    if let Some(there) = bytes.get_mut(place) {
        *there = byte;
    }
}

impl RawSample for u8 {
    fn read_at(bytes: &[u8], place: u8) -> u8 {
        bytes.get(usize::from(place)).copied().unwrap_or(0)
    }

    fn put_at(self, bytes: &mut [u8], place: u8) {
        put_byte(bytes, usize::from(place), self);
    }
}

impl RawSample for u16 {
    fn read_at(bytes: &[u8], place: u8) -> u16 {
        let high = 2 * usize::from(place);
        let pair = [high, high + 1].map(|at| bytes.get(at).copied().unwrap_or(0));
        u16::from_be_bytes(pair)
    }

    fn put_at(self, bytes: &mut [u8], place: u8) {
        let at = 2 * usize::from(place);
        let [high, low] = self.to_be_bytes();
        put_byte(bytes, at, high);
        put_byte(bytes, at + 1, low);
    }
}

// A pixel kind as the bytes of its samples.
pub(crate) trait Raw: Pixel {
    fn from_bytes(bytes: &[u8]) -> Self;

    fn put(&self, bytes: &mut [u8]);
}

impl<S: RawSample> Raw for Gray<S> {
    fn from_bytes(bytes: &[u8]) -> Gray<S> {
        Gray {
            value: S::read_at(bytes, 0),
        }
    }

    fn put(&self, bytes: &mut [u8]) {
        self.value.put_at(bytes, 0);
    }
}

impl<S: RawSample> Raw for Rgb<S> {
    fn from_bytes(bytes: &[u8]) -> Rgb<S> {
        Rgb {
            red: S::read_at(bytes, 0),
            green: S::read_at(bytes, 1),
            blue: S::read_at(bytes, 2),
        }
    }

    fn put(&self, bytes: &mut [u8]) {
        self.red.put_at(bytes, 0);
        self.green.put_at(bytes, 1);
        self.blue.put_at(bytes, 2);
    }
}

impl<S: RawSample> Raw for Cmyk<S> {
    fn from_bytes(bytes: &[u8]) -> Cmyk<S> {
        Cmyk {
            cyan: S::read_at(bytes, 0),
            magenta: S::read_at(bytes, 1),
            yellow: S::read_at(bytes, 2),
            black: S::read_at(bytes, 3),
        }
    }

    fn put(&self, bytes: &mut [u8]) {
        self.cyan.put_at(bytes, 0);
        self.magenta.put_at(bytes, 1);
        self.yellow.put_at(bytes, 2);
        self.black.put_at(bytes, 3);
    }
}

// Makes a row of pixels of its bytes, so many for each.
pub(crate) fn read_row<P: Raw>(bytes: &[u8], size: usize, row: &mut [P]) {
    for (pixel, bytes) in row.iter_mut().zip(bytes.chunks(size.max(1))) {
        *pixel = P::from_bytes(bytes);
    }
}

// Puts a row of pixels as bytes, so many for each.
pub(crate) fn put_row<P: Raw>(row: &[P], size: usize, bytes: &mut [u8]) {
    for (pixel, bytes) in row.iter().zip(bytes.chunks_mut(size.max(1))) {
        pixel.put(bytes);
    }
}
