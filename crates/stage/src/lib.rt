// Stages: what a chain is made of. A stage turns a colour into a colour, and reports how far its
// answers may lie from the exact map that it stands for. A cast narrows what is proved to fit,
// where `try_from` would ask for an answer to a failure that cannot come, or makes an index of a
// `u32`, for which there is no `From`.
#![tactic(auto)]

pub mod chain;
pub mod curves;
pub mod entries;
mod folding;
pub mod joined;
pub mod lattice;
mod legs;
pub mod matrix;
mod planes;
pub mod rated;
pub mod samples;
pub mod traits;
mod weighing;

pub use chain::Chain;
pub use curves::{Curves, TableLength};
pub use entries::{Entries, NarrowBytes, NodeTable, Table, WideBytes};
pub use joined::Joined;
pub use lattice::{Grid, Lattice, lattice_entries, lattice_nodes};
pub use matrix::Matrix;
pub use rated::Rated;
pub use samples::Sample;
pub use traits::{Colour, Stage};
