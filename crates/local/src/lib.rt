// The local form on the machine: a table by value, the range of its values, and the verdict by a range.
// An inner crate: what its functions require, every caller proves.
#![tactic(auto)]

mod judging;
mod measure;
mod sizes;

pub use judging::judge;
pub use measure::range_on;

// The degree and 45 places, of which those not used are zero.
#[derive(Clone, Copy)]
pub struct Form {
    pub degree: u32,
    pub places: [i64; 45],
}

// What the even rule spares of a form's fall and of its rise.
#[derive(Clone, Copy)]
struct Spare {
    pub fall: u64,
    pub rise: u64,
}

// The range of a form's values: the lower bound, the upper bound and the bend.
#[derive(Clone, Copy)]
pub struct Range {
    pub lower: i64,
    pub upper: i64,
    pub bend: u64,
}
