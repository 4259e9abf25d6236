// A converter with its node table, the calls that are made of it, and the answer to each.
use crate::kinds::{KindName, Raw, pixels};
use crate::ops::{Op, RowOp};
use crate::request::Calls;
use crate::table::{LentTable, UNHASHED, hashed};
use link::{Cmyk8, Converter, Filled, Gray8, Pixel, Quote, Refusal, Rgb8, Rgb16, State};
use stage::Stage;
use std::alloc::{AllocError, Global};

#[derive(Drop)]
pub(crate) struct ConverterRun<S: Stage> {
    heap: Global,
    converter: Converter<S>,
    table: LentTable,
    // What is answered so far.
    text: String,
}

// Whether a row goes through the stage itself or through its link.
#[derive(Clone, Copy)]
enum Way {
    Direct,
    Link,
}

// The raw samples that a leaving row begins with.
fn blank<P: Raw>(heap: Global, count: usize) -> Result<Vec<P>, AllocError> {
    let samples: Vec<u16> = (0u64..)
        .take(count.saturating_mul(P::channels().number()))
        .map(|index| (index.wrapping_mul(3).wrapping_add(1) % 256) as u16)
        .collect(heap)?;
    pixels(heap, samples.as_slice())
}

impl<S: Stage + Drop> ConverterRun<S> {
    pub(crate) fn new(
        heap: Global,
        stage: S,
        calls: &Calls,
    ) -> Result<ConverterRun<S>, AllocError> {
        Ok(ConverterRun {
            heap,
            converter: Converter::new(stage),
            table: LentTable::new(heap, calls.numbers, calls.seed)?,
            text: String::new(heap),
        })
    }

    // What all calls answer, one after the other.
    pub(crate) fn answers(mut self, ops: &[Op]) -> Result<String, AllocError> {
        for (place, op) in ops.iter().enumerate() {
            if place > 0 {
                write!(self.text, " ; ")?;
            }
            self.call(op)?;
            self.tell_link()?;
        }
        Ok(self.text)
    }

    fn call(&mut self, op: &Op) -> Result<(), AllocError> {
        match op {
            Op::Lend(count) => self.lend(*count),
            Op::Begin(points) => self.begin(*points),
            Op::Fill(budget) => self.fill(*budget),
            Op::Row(row) => self.row("R", Way::Direct, row),
            Op::LinkRow(row) => self.row("L", Way::Link, row),
            Op::Quote => self.quote(),
            Op::Write(room) => self.write(*room),
            Op::Drop => self.drop_link(),
        }
    }

    fn lend(&mut self, count: usize) -> Result<(), AllocError> {
        self.table.lent = count;
        write!(self.text, "T ok")
    }

    fn begin(&mut self, points: u32) -> Result<(), AllocError> {
        match self.converter.begin(self.table.lent(), points) {
            Ok(()) => write!(self.text, "B ok"),
            Err(refusal) => self.refused("B", refusal),
        }
    }

    fn fill(&mut self, budget: usize) -> Result<(), AllocError> {
        match self.converter.fill(self.table.lent_mut(), budget) {
            Ok(Filled { stored, missing }) => write!(self.text, "F ok {stored} {missing}"),
            Err(refusal) => self.refused("F", refusal),
        }
    }

    fn quote(&mut self) -> Result<(), AllocError> {
        let Quote { stage, link } = self.converter.quote();
        match link {
            Some(link) => write!(self.text, "Q ok {stage} {link}"),
            None => write!(self.text, "Q ok {stage} -"),
        }
    }

    fn write(&mut self, room: usize) -> Result<(), AllocError> {
        let mut output = vec![in self.heap; 0xa5u8; room]?;
        match self
            .converter
            .write(self.table.lent(), output.as_mut_slice())
        {
            Ok(length) => write!(self.text, "W ok {length}")?,
            Err(refusal) => self.refused("W", refusal)?,
        }
        let hash = hashed(UNHASHED, output.as_slice());
        write!(self.text, " {hash:016x}")
    }

    fn drop_link(&mut self) -> Result<(), AllocError> {
        self.converter.drop_link();
        write!(self.text, "D ok")
    }

    fn refused(&mut self, letter: &str, refusal: Refusal) -> Result<(), AllocError> {
        let number = refusal.number();
        write!(self.text, "{letter} {number}")
    }

    // Where the link stands, and a hash of all numbers of the table.
    fn tell_link(&mut self) -> Result<(), AllocError> {
        match self.converter.state() {
            State::Empty => write!(self.text, " | empty")?,
            State::Filling { grid, next } => {
                let points = grid.points();
                write!(self.text, " | filling {points} {next}")?;
            }
            State::Full { grid } => {
                let points = grid.points();
                write!(self.text, " | full {points}")?;
            }
        }
        let hash = self.table.hash();
        write!(self.text, " {hash:016x}")
    }

    // The kinds are types, which no closure is generic over, so the two sides of a row are named one after the other.
    fn row(&mut self, letter: &str, way: Way, op: &RowOp) -> Result<(), AllocError> {
        match op.enters {
            KindName::Gray8 => self.row_from::<Gray8>(letter, way, op),
            KindName::Rgb8 => self.row_from::<Rgb8>(letter, way, op),
            KindName::Cmyk8 => self.row_from::<Cmyk8>(letter, way, op),
            KindName::Rgb16 => self.row_from::<Rgb16>(letter, way, op),
        }
    }

    fn row_from<P: Raw>(&mut self, letter: &str, way: Way, op: &RowOp) -> Result<(), AllocError> {
        match op.leaves {
            KindName::Gray8 => self.row_between::<P, Gray8>(letter, way, op),
            KindName::Rgb8 => self.row_between::<P, Rgb8>(letter, way, op),
            KindName::Cmyk8 => self.row_between::<P, Cmyk8>(letter, way, op),
            KindName::Rgb16 => self.row_between::<P, Rgb16>(letter, way, op),
        }
    }

    // Sends a row, and tells what is returned and what the leaving row then holds.
    fn row_between<P: Raw, Q: Raw>(
        &mut self,
        letter: &str,
        way: Way,
        op: &RowOp,
    ) -> Result<(), AllocError> {
        let entering: Vec<P> = pixels(self.heap, op.samples.as_slice())?;
        let mut leaving: Vec<Q> = blank(self.heap, op.room)?;
        match self.send(way, entering.as_slice(), leaving.as_mut_slice()) {
            Ok(bound) => write!(self.text, "{letter} ok {bound} :")?,
            Err(refusal) => {
                self.refused(letter, refusal)?;
                write!(self.text, " :")?;
            }
        }
        for pixel in &leaving {
            pixel.put(&mut self.text)?;
        }
        Ok(())
    }

    // The call that the row's way stands for.
    fn send<P: Pixel, Q: Pixel>(
        &self,
        way: Way,
        entering: &[P],
        leaving: &mut [Q],
    ) -> Result<u32, Refusal> {
        match way {
            Way::Direct => self.converter.row(entering, leaving),
            Way::Link => self
                .converter
                .link_row(self.table.lent(), entering, leaving),
        }
    }
}
