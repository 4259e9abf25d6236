// The calls of a converter that a request makes, as its words hold them.
use crate::kinds::KindName;
use crate::words::{Unread, Words};
use std::alloc::Global;

// A row: the pixel kinds on both sides, the raw samples that enter, and how many pixels there is room for behind it.
#[derive(Drop)]
pub(crate) struct RowOp {
    pub enters: KindName,
    pub leaves: KindName,
    pub samples: Vec<u16>,
    pub room: usize,
}

#[derive(Drop)]
pub(crate) enum Op {
    // How many numbers of the table are lent from here on.
    Lend(usize),
    // With so many grid points.
    Begin(u32),
    // With so many nodes at most.
    Fill(usize),
    Row(RowOp),
    LinkRow(RowOp),
    Quote,
    // Into an output of so many bytes.
    Write(usize),
    Drop,
}

impl RowOp {
    fn read(heap: Global, words: &mut Words<'_>) -> Result<RowOp, Unread> {
        let enters = KindName::read(words)?;
        let leaves = KindName::read(words)?;
        let pixels = words.number::<usize>()?;
        let room = words.size()?;
        let samples = enters.samples(heap, pixels, words)?;
        Ok(RowOp {
            enters,
            leaves,
            samples,
            room,
        })
    }
}

impl Op {
    // The call that a letter begins.
    fn read(heap: Global, letter: &str, words: &mut Words<'_>) -> Result<Op, Unread> {
        match letter {
            "T" => Ok(Op::Lend(words.number()?)),
            "B" => Ok(Op::Begin(grid(words.number()?))),
            "F" => Ok(Op::Fill(words.number()?)),
            "R" => Ok(Op::Row(RowOp::read(heap, words)?)),
            "L" => Ok(Op::LinkRow(RowOp::read(heap, words)?)),
            "Q" => Ok(Op::Quote),
            "W" => Ok(Op::Write(words.size()?)),
            "D" => Ok(Op::Drop),
            _ => Err(Unread::Bad),
        }
    }

    // All calls to the end of the line.
    pub(crate) fn read_all(heap: Global, words: &mut Words<'_>) -> Result<Vec<Op>, Unread> {
        let mut ops = Vec::new(heap);
        for _ in 0..u64::MAX {
            let Some(letter) = words.next() else {
                break;
            };
            ops.push(Op::read(heap, letter, words)?)?;
        }
        Ok(ops)
    }
}

// Grid points as a begin takes them. A number that is too large for that is a wrong one too.
fn grid(points: u64) -> u32 {
    u32::try_from(points).unwrap_or(u32::MAX)
}
