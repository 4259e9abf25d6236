// Pictures as files hold them: PGM and PPM, and PAM that are GRAYSCALE, RGB or CMYK, with samples of 8 or 16 bits.
use meaning::Channels;
use std::alloc::{AllocError, Global};
use std::str;
use thiserror::Error;

// How wide a picture's samples are.
#[derive(Clone, Copy)]
pub(crate) enum Depth {
    Eight,
    Sixteen,
}

impl Depth {
    pub(crate) fn bits(self) -> usize {
        match self {
            Depth::Eight => 8,
            Depth::Sixteen => 16,
        }
    }

    // The largest sample.
    fn largest(self) -> usize {
        match self {
            Depth::Eight => 255,
            Depth::Sixteen => 65_535,
        }
    }
}

// What the header of a picture tells.
#[derive(Clone, Copy)]
pub(crate) struct Shape {
    pub width: usize,
    pub height: usize,
    pub channels: Channels,
    pub depth: Depth,
}

// A picture, row after row.
#[derive(Clone, Copy)]
pub(crate) struct Picture<'a> {
    pub shape: Shape,
    pub pixels: &'a [u8],
}

// What is wrong with a picture.
#[derive(Debug, Drop, Error)]
pub(crate) enum BadPicture {
    #[error("it is no picture, since it begins with none of P5, P6 and P7")]
    NotAPicture,
    #[error("its header ends too early")]
    CutHeader,
    #[error("in its header stands no whole number for the {0}")]
    NotANumber(&'static str),
    #[error("its header tells no {0}")]
    Missing(&'static str),
    #[error("a line of its header begins with none of WIDTH, HEIGHT, DEPTH, MAXVAL, TUPLTYPE, ENDHDR and #")]
    UnknownLine,
    #[error("it has no pixels, with width {width} and height {height}")]
    Empty { width: usize, height: usize },
    #[error("its largest sample is {0}, and not 255 or 65535")]
    LargestSample(usize),
    #[error("it is neither GRAYSCALE of depth 1, RGB of depth 3 nor CMYK of depth 4")]
    Tuples,
    #[error("it is too large, with width {width} and height {height}")]
    TooLarge { width: usize, height: usize },
    #[error("its pixels have {found} bytes, and {wanted} are wanted")]
    Short { wanted: usize, found: usize },
}

impl Shape {
    // The bytes of a pixel.
    pub(crate) fn pixel_bytes(&self) -> usize {
        let samples = self.channels.number();
        match self.depth {
            Depth::Eight => samples,
            Depth::Sixteen => 2 * samples,
        }
    }

    // The bytes of a row, if a machine can hold so many.
    pub(crate) fn row_bytes(&self) -> Option<usize> {
        self.width.checked_mul(self.pixel_bytes())
    }

    // The shape of these numbers.
    fn new(
        width: usize,
        height: usize,
        channels: Channels,
        largest: usize,
    ) -> Result<Shape, BadPicture> {
        if width == 0 || height == 0 {
            return Err(BadPicture::Empty { width, height });
        }
        let depth = match largest {
            255 => Depth::Eight,
            65_535 => Depth::Sixteen,
            _ => return Err(BadPicture::LargestSample(largest)),
        };
        Ok(Shape {
            width,
            height,
            channels,
            depth,
        })
    }

    // The header of a picture of this shape: PGM, PPM, or for four channels PAM.
    pub(crate) fn header(&self, heap: Global) -> Result<String, AllocError> {
        let Shape { width, height, .. } = self;
        let largest = self.depth.largest();
        match self.channels {
            Channels::One => format!(in heap; "P5\n{width} {height}\n{largest}\n"),
            Channels::Three => format!(in heap; "P6\n{width} {height}\n{largest}\n"),
            Channels::Four => format!(in heap;
                "P7\nWIDTH {width}\nHEIGHT {height}\nDEPTH 4\nMAXVAL {largest}\nTUPLTYPE CMYK\nENDHDR\n"
            ),
        }
    }
}

fn is_blank(byte: u8) -> bool {
    matches!(byte, b' ' | b'\t' | b'\n' | b'\r' | 0x0b | 0x0c)
}

// What these bytes are as a whole number in decimal digits, if they are one.
fn number(digits: &[u8]) -> Option<usize> {
    if digits.is_empty() || !digits.iter().all(|digit| digit.is_ascii_digit()) {
        return None;
    }
    str::from_utf8(digits).ok()?.parse().ok()
}

// The bytes of a header that are not read yet.
#[derive(Drop)]
struct Header<'a> {
    rest: &'a [u8],
}

impl<'a> Header<'a> {
    // Takes so many bytes off the front, or all where there are fewer.
    fn take(&mut self, count: usize) -> &'a [u8] {
        let (taken, rest) = match self.rest.split_at_checked(count) {
            Some(parts) => parts,
            None => (self.rest, [].as_slice()),
        };
        self.rest = rest;
        taken
    }

    // Passes over blanks, and over remarks, which go from a # to the end of their line.
    fn pass_blanks(&mut self) {
        let mut in_remark = false;
        let mut passed = 0usize;
        for byte in self.rest {
            in_remark = *byte == b'#' || (in_remark && *byte != b'\n');
            if !in_remark && !is_blank(*byte) {
                break;
            }
            passed = passed.saturating_add(1);
        }
        self.take(passed);
    }

    // The number that comes next.
    fn number(&mut self, what: &'static str) -> Result<usize, BadPicture> {
        self.pass_blanks();
        let digits = self
            .rest
            .iter()
            .take_while(|byte| byte.is_ascii_digit())
            .count();
        number(self.take(digits)).ok_or(BadPicture::NotANumber(what))
    }

    // The line that comes next, without its end.
    fn line(&mut self) -> Result<&'a [u8], BadPicture> {
        let end = self
            .rest
            .iter()
            .position(|byte| *byte == b'\n')
            .ok_or(BadPicture::CutHeader)?;
        let line = self.take(end);
        self.take(1);
        Ok(line)
    }
}

// The shape that the header of a PGM or PPM tells, behind its first two bytes. One blank ends it.
fn read_numbers(header: &mut Header<'_>, channels: Channels) -> Result<Shape, BadPicture> {
    let width = header.number("width")?;
    let height = header.number("height")?;
    let largest = header.number("largest sample")?;
    match header.take(1) {
        [blank] if is_blank(*blank) => Shape::new(width, height, channels, largest),
        _ => Err(BadPicture::CutHeader),
    }
}

// What the lines of a PAM's header tell.
#[derive(Clone, Copy)]
struct Lines<'a> {
    width: Option<usize>,
    height: Option<usize>,
    depth: Option<usize>,
    largest: Option<usize>,
    tuples: Option<&'a [u8]>,
}

// The first word of a line, and what stands behind it.
fn key_and_value(line: &[u8]) -> (&[u8], &[u8]) {
    let line = line.trim_ascii();
    let end = line.iter().take_while(|byte| !is_blank(**byte)).count();
    match line.split_at_checked(end) {
        Some((key, value)) => (key, value.trim_ascii()),
        None => (line, [].as_slice()),
    }
}

impl<'a> Lines<'a> {
    // One line more. Of two lines for one thing the last counts.
    fn take(&mut self, key: &[u8], value: &'a [u8]) -> Result<(), BadPicture> {
        let wanted = |what| number(value).ok_or(BadPicture::NotANumber(what));
        match key {
            b"WIDTH" => self.width = Some(wanted("width")?),
            b"HEIGHT" => self.height = Some(wanted("height")?),
            b"DEPTH" => self.depth = Some(wanted("depth")?),
            b"MAXVAL" => self.largest = Some(wanted("largest sample")?),
            b"TUPLTYPE" => self.tuples = Some(value),
            [] | [b'#', ..] => {}
            _ => return Err(BadPicture::UnknownLine),
        }
        Ok(())
    }

    fn channels(&self) -> Result<Channels, BadPicture> {
        let depth = self.depth.ok_or(BadPicture::Missing("DEPTH"))?;
        let tuples = self.tuples.ok_or(BadPicture::Missing("TUPLTYPE"))?;
        match (tuples, depth) {
            (b"GRAYSCALE", 1) => Ok(Channels::One),
            (b"RGB", 3) => Ok(Channels::Three),
            (b"CMYK", 4) => Ok(Channels::Four),
            _ => Err(BadPicture::Tuples),
        }
    }

    fn shape(&self) -> Result<Shape, BadPicture> {
        let width = self.width.ok_or(BadPicture::Missing("WIDTH"))?;
        let height = self.height.ok_or(BadPicture::Missing("HEIGHT"))?;
        let channels = self.channels()?;
        let largest = self.largest.ok_or(BadPicture::Missing("MAXVAL"))?;
        Shape::new(width, height, channels, largest)
    }
}

// The shape that the header of a PAM tells, line by line, behind its first two bytes.
fn read_lines(header: &mut Header<'_>) -> Result<Shape, BadPicture> {
    let mut lines = Lines {
        width: None,
        height: None,
        depth: None,
        largest: None,
        tuples: None,
    };
    // no header has more lines than bytes
    for _ in 0..header.rest.len() {
        let (key, value) = key_and_value(header.line()?);
        if matches!(key, b"ENDHDR") {
            return lines.shape();
        }
        lines.take(key, value)?;
    }
    Err(BadPicture::CutHeader)
}

impl<'a> Picture<'a> {
    // The picture that a file holds, or what is wrong with it. Bytes behind the last pixel are not looked at.
    pub(crate) fn read(bytes: &'a [u8]) -> Result<Picture<'a>, BadPicture> {
        let mut header = Header { rest: bytes };
        let shape = match header.take(2) {
            b"P5" => read_numbers(&mut header, Channels::One)?,
            b"P6" => read_numbers(&mut header, Channels::Three)?,
            b"P7" => read_lines(&mut header)?,
            _ => return Err(BadPicture::NotAPicture),
        };
        let Shape { width, height, .. } = shape;
        let wanted = shape
            .row_bytes()
            .and_then(|row| row.checked_mul(height))
            .ok_or(BadPicture::TooLarge { width, height })?;
        let found = header.rest.len();
        let pixels = header
            .rest
            .get(..wanted)
            .ok_or(BadPicture::Short { wanted, found })?;
        Ok(Picture { shape, pixels })
    }
}
