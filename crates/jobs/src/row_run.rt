// Sends the rows of a job through a stage or through its link, and prints what came of them.
use crate::job::{KindName, RowTask};
use crate::samples::{Sampled, pixels};
use crate::shown::{Refused, print_bound};
use link::{Cmyk8, Converter, Gray8, Pixel, Refusal, Rgb8, Rgb16};
use meaning::CHANNELS;
use stage::Stage;

// Whether a row goes through the stage itself or through its link.
#[derive(Clone, Copy)]
pub(crate) enum Route {
    Direct,
    Link,
}

// A row of a job, and the way that it is sent.
#[derive_where(Clone, Copy)]
pub(crate) struct RowRun<'a, S: Stage> {
    pub rt: &'a HostRuntime,
    pub converter: &'a Converter<S>,
    // The numbers of the node table that are lent.
    pub table: &'a [u16],
    pub route: Route,
    // What is printed in front of the row.
    pub name: &'static str,
    pub task: &'a RowTask,
}

impl<S: Stage> RowRun<'_, S> {
    // The kinds are types, which no closure is generic over, so the two sides of a row are named one after the other.
    pub(crate) fn run(self) -> anyhow::Result<()> {
        match self.task.enters {
            KindName::Gray8 => self.run_from::<Gray8>(),
            KindName::Rgb8 => self.run_from::<Rgb8>(),
            KindName::Cmyk8 => self.run_from::<Cmyk8>(),
            KindName::Rgb16 => self.run_from::<Rgb16>(),
        }
    }

    fn run_from<P: Sampled>(self) -> anyhow::Result<()> {
        match self.task.leaves {
            KindName::Gray8 => self.run_between::<P, Gray8>(),
            KindName::Rgb8 => self.run_between::<P, Rgb8>(),
            KindName::Cmyk8 => self.run_between::<P, Cmyk8>(),
            KindName::Rgb16 => self.run_between::<P, Rgb16>(),
        }
    }

    fn run_between<P: Sampled, Q: Sampled>(self) -> anyhow::Result<()> {
        let RowRun { rt, name, task, .. } = self;
        let enters = task.enters;
        let leaves = task.leaves;
        println!(rt; "  {name}, {enters} to {leaves}:")?;
        let entering: Vec<P> = match pixels(rt.alloc(), task.samples.as_slice()) {
            Ok(row) => row,
            Err(reason) => {
                println!(rt; "  not run: {reason}")?;
                return Ok(());
            }
        };
        let blank = Q::make(&[0; CHANNELS]);
        let mut leaving = vec![in rt.alloc(); blank; entering.len()]?;
        match self.send(entering.as_slice(), leaving.as_mut_slice()) {
            Err(refusal) => println!(rt; "  {}", Refused(refusal))?,
            Ok(bound) => print_row(rt, &entering, &leaving, bound)?,
        }
        Ok(())
    }

    // The call that the row's way stands for.
    fn send<P: Pixel, Q: Pixel>(self, entering: &[P], leaving: &mut [Q]) -> Result<u32, Refusal> {
        match self.route {
            Route::Direct => self.converter.row(entering, leaving),
            Route::Link => self.converter.link_row(self.table, entering, leaving),
        }
    }
}

// The pixels that entered beside those that left, and the bound.
fn print_row<P: Sampled, Q: Sampled>(
    rt: &HostRuntime,
    entering: &[P],
    leaving: &[Q],
    bound: u32,
) -> anyhow::Result<()> {
    for (p, q) in entering.iter().zip(leaving) {
        print!(rt; "   ")?;
        p.print(rt)?;
        print!(rt; " ->")?;
        q.print(rt)?;
        println!(rt; "")?;
    }
    print_bound(rt, bound)
}
