// A table f(i,j), i + j ≤ d, row by row in one place: moved by additions inside that place, scaled, halved, and its value.
// An inner crate: what its functions require, every caller proves.
// A row goes by where it starts in the places, and is not cut out as a slice: the runs that are added overlap, which two slices may not, and `along` and
// `across` are of whole tables, so a slice's contract would be brought back to the places in every proof: no plainer.
// The degree comes beside the places: the struct that holds both is `local::Form`, above, and the contracts there are about the places of it.
#![tactic(auto)]

mod columns;
mod parts;
mod rows;
mod run;
mod scaling;
mod value;

pub use parts::{move_table, to_part};
pub use scaling::{halve, scale};
pub use value::value_at;
