// What the calls are made of: the conditions that they share, and the local form of a cell.
// An inner crate: what its functions require, every caller proves.
#![tactic(auto)]

mod cell;
mod scale;
mod sheet;

pub use cell::Cell;
pub use sheet::{Sheet, count};
