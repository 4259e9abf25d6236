// The stages that a job describes line by line, as one type.
use crate::job::StageTask;
use meaning::Channels;
use stage::{Colour, Curves, Lattice, Matrix, NodeTable, Stage, Table};

// One stage of a job.
#[derive(Clone, Copy)]
pub(crate) enum Step<'a> {
    Matrix(Matrix),
    Curves(Curves<NodeTable<'a>>),
    Lattice(Lattice<NodeTable<'a>>),
}

impl<'a> Step<'a> {
    // The stage that a line of the job describes.
    pub(crate) fn of(stage: &'a StageTask) -> Step<'a> {
        match stage {
            StageTask::Matrix(coefficients) => Step::Matrix(Matrix::new(*coefficients)),
            StageTask::Curves(tables) => Step::Curves(Curves::over(
                tables.channels,
                tables.length,
                Table(tables.entries.as_slice()),
            )),
            StageTask::Lattice(nodes) => Step::Lattice(Lattice::over(
                nodes.ins,
                nodes.outs,
                nodes.grid,
                Table(nodes.entries.as_slice()),
            )),
        }
    }

    pub(crate) fn name(&self) -> &'static str {
        match self {
            Step::Matrix(_) => "matrix",
            Step::Curves(_) => "curves",
            Step::Lattice(_) => "lattice",
        }
    }
}

// A match in each method, since no function may hand out the `&dyn Stage` that one match would make.
impl Stage for Step<'_> {
    ghost use Rattle.jobs.specs.declared.steps.Step.TheVariants.{Matrix, Curves, Lattice};

    ghost meaning = { elim [
      | Matrix m ↦ ⟦<Matrix as Stage>⟧.meaning m
      | Curves c ↦ ⟦<Curves<NodeTable<'static>> as Stage>⟧.meaning c
      | Lattice l ↦ ⟦<Lattice<NodeTable<'static>> as Stage>⟧.meaning l
    ] };

    ghost lawful = { elim [
      | Matrix m ↦ ⟦<Matrix as Stage>⟧.lawful m
      | Curves c ↦ ⟦<Curves<NodeTable<'static>> as Stage>⟧.lawful c
      | Lattice l ↦ ⟦<Lattice<NodeTable<'static>> as Stage>⟧.lawful l
    ] };

    fn ins(&self) -> Channels {
        match self {
            Step::Matrix(matrix) => matrix.ins(),
            Step::Curves(curves) => curves.ins(),
            Step::Lattice(lattice) => lattice.ins(),
        }
    }

    fn outs(&self) -> Channels {
        match self {
            Step::Matrix(matrix) => matrix.outs(),
            Step::Curves(curves) => curves.outs(),
            Step::Lattice(lattice) => lattice.outs(),
        }
    }

    fn steepness(&self) -> u32 {
        match self {
            Step::Matrix(matrix) => matrix.steepness(),
            Step::Curves(curves) => curves.steepness(),
            Step::Lattice(lattice) => lattice.steepness(),
        }
    }

    fn error(&self) -> u32 {
        match self {
            Step::Matrix(matrix) => matrix.error(),
            Step::Curves(curves) => curves.error(),
            Step::Lattice(lattice) => lattice.error(),
        }
    }

    fn answer(&self, colour: &Colour) -> Colour {
        match self {
            Step::Matrix(matrix) => matrix.answer(colour),
            Step::Curves(curves) => curves.answer(colour),
            Step::Lattice(lattice) => lattice.answer(colour),
        }
    }
}
