// Pixels through a stage: the pixel kinds, and the converter, which sends rows of pixels through a stage, bakes the stage into
// one lattice between rows, and sends rows through that.
#![tactic(auto)]

pub mod answers;
pub mod converter;
mod filling;
mod lent;
mod parts;
pub mod pixel;
mod read_back;
pub mod refusal;
mod rows;
pub mod state;
mod writing;

pub use answers::{Filled, Quote};
pub use converter::Converter;
pub use pixel::{Cmyk, Cmyk8, Gray, Gray8, Pixel, Rgb, Rgb8, Rgb16};
pub use refusal::Refusal;
pub use state::State;
