// Which rows of a picture went which way, and within which bound.
use crate::figures::Bound;
use std::{fmt, io};

// Whether a row went through the profiles themselves or through their link.
#[derive(Clone, Copy)]
pub(crate) enum Way {
    Direct,
    Link,
}

// Rows one after the other, the first and the last of them, and the bound that their calls returned.
#[derive(Clone, Copy)]
struct Part {
    first: usize,
    last: usize,
    bound: u32,
}

// The rows that went directly, and those behind them that went through the link.
#[derive(Clone, Copy)]
pub(crate) struct Tally {
    direct: Option<Part>,
    link: Option<Part>,
}

impl fmt::Display for Part {
    fn fmt<W: fmt::Write>(&self, f: &mut fmt::Formatter<W>) -> fmt::Result {
        let Part { first, last, .. } = self;
        if first == last {
            write!(f, "row {first}")
        } else {
            write!(f, "rows {first} to {last}")
        }
    }
}

// Prints a part, if there is one.
fn print_part(rt: &HostRuntime, part: Option<Part>, way: &str) -> io::Result<()> {
    let Some(part) = part else {
        return Ok(());
    };
    let bound = Bound(part.bound);
    println!(rt; "{part}: {way}, within {bound}")
}

impl Tally {
    // No rows yet.
    pub(crate) fn new() -> Tally {
        Tally {
            direct: None,
            link: None,
        }
    }

    // One row more. All calls of a part return the same bound; told is the largest.
    pub(crate) fn count(&mut self, row: usize, way: Way, bound: u32) {
        let part = match way {
            Way::Direct => &mut self.direct,
            Way::Link => &mut self.link,
        };
        let (first, bound) = match *part {
            None => (row, bound),
            Some(part) => (part.first, part.bound.max(bound)),
        };
        *part = Some(Part {
            first,
            last: row,
            bound,
        });
    }

    // The first row that went through the link, if one did.
    pub(crate) fn first_through_link(&self) -> Option<usize> {
        self.link.map(|part| part.first)
    }

    pub(crate) fn print(&self, rt: &HostRuntime) -> io::Result<()> {
        print_part(rt, self.direct, "directly")?;
        print_part(rt, self.link, "through the link")
    }
}
