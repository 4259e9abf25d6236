// How long things took.
use std::fmt;

// The nanoseconds that so many things took together.
#[derive(Clone, Copy)]
pub(crate) struct Spent {
    pub nanoseconds: u128,
    pub things: u128,
}

// Those that one of them took, to a tenth.
impl fmt::Display for Spent {
    fn fmt<W: fmt::Write>(&self, f: &mut fmt::Formatter<W>) -> fmt::Result {
        let tenths = self.nanoseconds.saturating_mul(10) / self.things.max(1);
        let whole = tenths / 10;
        let tenth = tenths % 10;
        write!(f, "{whole}.{tenth}")
    }
}
