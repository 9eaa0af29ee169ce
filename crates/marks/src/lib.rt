// What a walk leaves of a cell: its colour and its bend, what is seen of it, its record, and its block of bytes.
// An inner crate: what its functions require, every caller proves.
#![tactic(auto)]

mod cell;
mod paint;

pub use cell::{bend_of, cell_record, colour_of, cut_cell, one_cell};
pub use paint::paint_block;

// What a walk has seen: cells visited, finest cells coloured, and the largest bend of these.
#[derive(Clone, Copy)]
pub struct Seen {
    pub visited: u32,
    pub coloured: u32,
    pub bend: u64,
}
