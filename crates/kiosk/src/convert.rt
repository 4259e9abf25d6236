// A picture through a chain of profiles, row by row.
use crate::command::ConvertCall;
use crate::failure::Failure;
use crate::figures::{Many, print_stage};
use crate::output::Output;
use crate::picture::{Depth, Picture, Shape};
use crate::press::Press;
use crate::profiles::{file_of, files_of, opened};
use crate::progress::Progress;
use crate::raw::{Raw, RawSample, put_row, read_row};
use crate::tally::Tally;
use link::{Cmyk, Gray, Rgb};
use meaning::{CHANNELS, Channels};
use stage::Stage;
use std::io;

// A conversion: what is read, what prints it, and where it is written.
#[derive(Drop)]
struct Conversion<'r, 'p, 'f, 'a> {
    rt: &'r HostRuntime,
    picture: Picture<'p>,
    // The picture that is written.
    shape: Shape,
    press: Press<'f>,
    output: Output<'a>,
    tally: Tally,
}

// What is left when all rows are written.
#[derive(Drop)]
struct Converted<'f> {
    press: Press<'f>,
    tally: Tally,
}

impl<'f, 'a> Conversion<'_, '_, 'f, 'a> {
    // The kinds of pixels are types, so samples, entering and leaving pixels are named one after the other.
    fn run(&mut self) -> Result<(), Failure<'a>> {
        match self.shape.depth {
            Depth::Eight => self.run_in::<u8>(),
            Depth::Sixteen => self.run_in::<u16>(),
        }
    }

    fn run_in<S: RawSample>(&mut self) -> Result<(), Failure<'a>> {
        match self.picture.shape.channels {
            Channels::One => self.run_from::<S, Gray<S>>(),
            Channels::Three => self.run_from::<S, Rgb<S>>(),
            Channels::Four => self.run_from::<S, Cmyk<S>>(),
        }
    }

    fn run_from<S: RawSample, P: Raw>(&mut self) -> Result<(), Failure<'a>> {
        match self.shape.channels {
            Channels::One => self.run_between::<P, Gray<S>>(),
            Channels::Three => self.run_between::<P, Rgb<S>>(),
            Channels::Four => self.run_between::<P, Cmyk<S>>(),
        }
    }

    // Each row, behind a fill.
    fn run_between<P: Raw, Q: Raw>(&mut self) -> Result<(), Failure<'a>> {
        let heap = self.rt.alloc();
        let black = [0; CHANNELS];
        let Shape { width, height, .. } = self.shape;
        let entering_size = self.picture.shape.pixel_bytes();
        let leaving_size = self.shape.pixel_bytes();
        let mut entering = vec![in heap; P::make(&black); width]?;
        let mut leaving = vec![in heap; Q::make(&black); width]?;
        let mut bytes = vec![in heap; 0; width.saturating_mul(leaving_size)]?;
        let mut progress = Progress::begin(self.rt, height);
        let row_bytes = width.saturating_mul(entering_size).max(1);
        for (row, pixels) in self.picture.pixels.chunks(row_bytes).enumerate() {
            self.press.fill()?;
            read_row(pixels, entering_size, entering.as_mut_slice());
            let (way, bound) = self.press.row(entering.as_slice(), leaving.as_mut_slice())?;
            self.tally.count(row, way, bound);
            put_row(leaving.as_slice(), leaving_size, bytes.as_mut_slice());
            self.output.write(bytes.as_slice())?;
            progress.tell(self.rt, row.saturating_add(1), self.press.filled());
        }
        Ok(())
    }

    // The header, and each row.
    fn write(&mut self) -> Result<(), Failure<'a>> {
        let header = self.shape.header(self.rt.alloc())?;
        self.output.write(header.as_bytes())?;
        self.run()
    }

    // Writes the picture, and ends or takes away its file.
    fn finish(mut self) -> Result<Converted<'f>, Failure<'a>> {
        let outcome = self.write();
        let Conversion {
            rt,
            picture: _,
            shape: _,
            press,
            output,
            tally,
        } = self;
        output.finish(rt, outcome)?;
        Ok(Converted { press, tally })
    }
}

// Prints what a picture has.
fn print_picture(rt: &HostRuntime, path: &str, shape: Shape) -> io::Result<()> {
    let width = shape.width;
    let height = shape.height;
    let channels = Many(shape.channels.number(), "channel");
    let bits = shape.depth.bits();
    println!(rt; "{path}: {width} x {height} pixels, {channels} of {bits} bits")
}

// Refuses a picture that has not the channels of the profiles.
fn test_channels<'a, S: Stage>(
    path: &'a str,
    picture: &Picture<'_>,
    stage: &S,
) -> Result<(), Failure<'a>> {
    let has = picture.shape.channels.number();
    let takes = stage.ins().number();
    if has != takes {
        let has = Many(has, "channel");
        return Err(Failure::PictureChannels { path, has, takes });
    }
    Ok(())
}

pub(crate) fn run<'a>(rt: &HostRuntime, call: &ConvertCall<'a>) -> Result<(), Failure<'a>> {
    let profiles = call.profiles.as_slice();
    let files = files_of(rt, profiles)?;
    let mut press = Press::new(rt.alloc(), opened(rt, profiles, files.as_slice())?);
    let path = call.input;
    let file = file_of(rt, path)?;
    let picture = match Picture::read(file.as_slice()) {
        Ok(picture) => picture,
        Err(bad) => return Err(Failure::Picture { path, bad }),
    };
    test_channels(path, &picture, press.stage())?;
    if let Some(link) = call.link {
        press.begin(rt.alloc(), link)?;
    }
    let shape = Shape {
        channels: press.stage().outs(),
        ..picture.shape
    };
    let conversion = Conversion {
        rt,
        picture,
        shape,
        press,
        output: Output::create(rt, call.output)?,
        tally: Tally::new(),
    };
    let Converted { press, tally } = conversion.finish()?;
    print_picture(rt, path, picture.shape)?;
    print_stage(rt, press.stage())?;
    tally.print(rt)?;
    press.print_filling(rt, &tally)?;
    print_picture(rt, call.output, shape)?;
    Ok(())
}
