// Runs the worked figures through the stages and shows them beside what is proved of their definitions.
ghost use Rattle.std.specs.Prelude.{◌≡◌, None, Some, length, map};
ghost use Rattle.std.specs.Option.{option_map};
ghost use Rattle.std.specs.Iterator.{IsFinite};
ghost use Rattle.meaning.specs.Links.{error_of_link};
ghost use Rattle.meaning.specs.WorkedFigures.{figures, cube_figures, fading_figures, link_figures};
ghost use Rattle.link.specs.Calls.{begin_refusal};

use anyhow::{Context, anyhow};
use link::Converter;
use meaning::{Channels, worked_figures};
use stage::{Curves, Joined, Lattice, Matrix, Stage, Table};

// A figure that a stage gives, beside its name.
#[derive(Clone, Copy)]
struct Figure {
    name: &'static str,
    measured: u32,
}

// Figures in the order of the worked ones. A type of its own, since an `Option` of such an array gets no proof.
#[derive(Clone, Copy)]
struct Measured<const N: usize>([Figure; N]);

// The figures of curves, matrices and joining, as the stages give them.
fn measured_figures() -> Option<Measured<6>>
    ensures { option_map (λ shown. map (λ figure. figure.measured) shown.0) result ≡ Some figures }
{
    let bent = Curves::new(Channels::One, 3, Table(&[0u16, 1_000, 65_535]))?;
    let half_less_one = Matrix::new([32_768, -65_536, 0, 0, 0, 0, 0, 0, 0]);
    let negated = Matrix::new([-65_536, 0, 0, 0, 0, 0, 0, 0, 0]);
    let twice = Joined {
        first: bent,
        second: bent,
    };
    Some(Measured([
        Figure {
            name: "curve 0, 1000, 65535 at 32767",
            measured: bent.answer(&[32_767, 0, 0, 0])[0].into(),
        },
        Figure {
            name: "the same curve at 32768",
            measured: bent.answer(&[32_768, 0, 0, 0])[0].into(),
        },
        Figure {
            name: "its steepness",
            measured: bent.steepness(),
        },
        Figure {
            name: "matrix row 1/2, -1, 0 at 10001, 2000, 0",
            measured: half_less_one.answer(&[10_001, 2_000, 0, 0])[0].into(),
        },
        Figure {
            name: "matrix row -1, 0, 0 at 5",
            measured: negated.answer(&[5, 0, 0, 0])[0].into(),
        },
        Figure {
            name: "error of that curve after itself",
            measured: twice.error(),
        },
    ]))
}

// The worked lattice of three channels: three answers and its steepness.
fn measured_cube() -> Option<Measured<4>>
    ensures { option_map (λ shown. map (λ figure. figure.measured) shown.0) result
        ≡ Some cube_figures }
{
    let cube = Lattice::new(
        Channels::Three,
        Channels::One,
        2,
        Table(&[0u16, 1_000, 2_000, 3_000, 4_000, 5_000, 6_000, 60_000]),
    )?;
    Some(Measured([
        Figure {
            name: "lattice of eight nodes at 52428, 39321, 13107",
            measured: cube.answer(&[52_428, 39_321, 13_107, 0])[0].into(),
        },
        Figure {
            name: "the same lattice at 13107, 39321, 52428",
            measured: cube.answer(&[13_107, 39_321, 52_428, 0])[0].into(),
        },
        Figure {
            name: "the same lattice at 39321, 39321, 39321",
            measured: cube.answer(&[39_321, 39_321, 39_321, 0])[0].into(),
        },
        Figure {
            name: "its steepness",
            measured: cube.steepness(),
        },
    ]))
}

// The worked lattice of four channels: one answer.
fn measured_fading_cube() -> Option<Measured<1>>
    ensures { option_map (λ shown. map (λ figure. figure.measured) shown.0) result
        ≡ Some fading_figures }
{
    let fading = Lattice::new(
        Channels::Four,
        Channels::One,
        2,
        Table(&[
            0u16, 1_000, 2_000, 3_000, 4_000, 5_000, 6_000, 60_000, 0, 0, 0, 0, 0, 0, 0, 0,
        ]),
    )?;
    Some(Measured([Figure {
        name: "lattice of these nodes and eight zeros at 32768, 39321, 39321, 39321",
        measured: fading.answer(&[32_768, 39_321, 39_321, 39_321])[0].into(),
    }]))
}

// The error that a converter quotes for a link with so many grid points, over a stage that errs by a count and a half and rises
// by a count a count.
fn quoted_error<S: Stage + Drop>(stage: S, table: &[u16], grid: u32) -> Option<u32>
    requires error { (S.Stage.meaning stage).error ≡ 98304 }
    requires steepness { (S.Stage.meaning stage).steepness ≡ 65536 }
    requires room { begin_refusal (S.Stage.meaning stage) grid (length table.now) ≡ None }
    ensures { result ≡ Some (error_of_link 98304 65536 grid) }
{
    let mut converter = Converter::new(stage);
    converter.begin(table, grid).ok()?;
    converter.quote().link
}

// The errors of a link, with the most grid points and with the fewest, of such a stage: three straight curves, one after the
// other.
#[tactic(auto, unfolding(meaning::specs::Sums::largest_below))]
fn measured_link() -> Option<Measured<2>>
    ensures { option_map (λ shown. map (λ figure. figure.measured) shown.0) result
        ≡ Some link_figures }
{
    let straight = Curves::new(Channels::One, 2, Table(&[0u16, 65_535]))?;
    let twice = Joined {
        first: straight,
        second: straight,
    };
    let thrice = Joined {
        first: twice,
        second: straight,
    };
    Some(Measured([
        Figure {
            name: "error of a link with 33 grid points",
            measured: quoted_error(thrice, &[0; 33], 33)?,
        },
        Figure {
            name: "error of a link with 2 grid points",
            measured: quoted_error(thrice, &[0; 2], 2)?,
        },
    ]))
}

// Prints figures beside what is proved of them, and fails where some disagree.
fn compare<I: Iterator<Item = (Figure, u32)> + Drop>(
    rt: &HostRuntime,
    figures: I,
) -> anyhow::Result<()>
    requires can { I.can_next figures }
    requires ends { IsFinite (I.remaining figures) }
{
    let mut outcome = Ok(());
    for (Figure { name, measured }, proved) in figures {
        println!(rt; "  {name}: {measured}, proved {proved}")?;
        if measured != proved {
            outcome = Err(anyhow!("a stage does not give its worked figure"));
        }
    }
    outcome
}

// Shows all worked figures, and fails where a stage gives another.
pub(crate) fn run(rt: &HostRuntime) -> anyhow::Result<()> {
    println!(rt; "selftest")?;
    let Measured(curves) = measured_figures().context("the curve was refused")?;
    let Measured(cube) = measured_cube().context("the lattice was refused")?;
    let Measured(fading) = measured_fading_cube().context(
        "the lattice of four channels was refused",
    )?;
    let Measured(link) = measured_link().context("the link was refused")?;
    let proved = worked_figures();
    let curves = curves.into_iter().zip(proved.curves);
    let cube = cube.into_iter().zip(proved.cube);
    let fading = fading.into_iter().zip(proved.fading_cube);
    let link = link.into_iter().zip(proved.link);
    compare(rt, curves.chain(cube).chain(fading).chain(link))
}
