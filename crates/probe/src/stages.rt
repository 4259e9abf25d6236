// What a stage tells of itself, and what it answers to colours.
use crate::request::{Nodes, Tables};
use stage::{Colour, Curves, Lattice, Matrix, Stage, Table};
use std::alloc::{AllocError, Global};

// Channels, steepness and error, and an answer for each colour.
pub(crate) fn stage_answer<S: Stage>(
    heap: Global,
    stage: &S,
    colours: &[Colour],
) -> Result<String, AllocError> {
    let ins = stage.ins().number();
    let outs = stage.outs().number();
    let steepness = stage.steepness();
    let error = stage.error();
    let mut text = format!(in heap; "ok {ins} {outs} {steepness} {error}")?;
    for colour in colours {
        let [a, b, c, d] = stage.answer(colour);
        write!(text, " ; {a} {b} {c} {d}")?;
    }
    Ok(text)
}

pub(crate) fn curve_answer(
    heap: Global,
    tables: &Tables,
    colours: &[Colour],
) -> Result<String, AllocError> {
    let entries = Table(tables.entries.as_slice());
    let curves = Curves::over(tables.channels, tables.length, entries);
    stage_answer(heap, &curves, colours)
}

pub(crate) fn matrix_answer(
    heap: Global,
    coefficients: [i32; 9],
    colours: &[Colour],
) -> Result<String, AllocError> {
    stage_answer(heap, &Matrix::new(coefficients), colours)
}

pub(crate) fn lattice_answer(
    heap: Global,
    nodes: &Nodes,
    colours: &[Colour],
) -> Result<String, AllocError> {
    let entries = Table(nodes.entries.as_slice());
    let lattice = Lattice::over(nodes.ins, nodes.outs, nodes.grid, entries);
    stage_answer(heap, &lattice, colours)
}
