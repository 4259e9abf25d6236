// Profiles: what the bytes of an ICC version 2 profile hold, or which fault they have and where. The checks stand in
// specs/ as lists, in the order in which they are made; the code here makes them one after the other.
#![tactic(auto)]

mod bytes;
pub mod chain;
mod directory;
pub mod element;
mod faithful;
pub mod fault;
pub mod header;
pub mod opening;
mod reading;
mod sentences;
pub mod space;
pub mod tag;

pub use chain::{ChainError, ChainRoom, ElementChain, Report, Source, open_chain};
pub use element::{Element, Kind, Part, Tables};
pub use fault::{Fault, Layer};
pub use header::Header;
pub use opening::{Opened, open};
pub use space::Space;
pub use tag::Tag;
