// What a cell's verdict is. The rest of the crate is definitions and theorems: what follows from verdicts alone.
// An inner crate: types, and no functions.
#![tactic(auto)]

// Above, below or open, with both bounds and the bend.
#[derive(Clone, Copy)]
pub enum Verdict {
    Above { lower: i64, upper: i64, bend: u64 },
    Below { lower: i64, upper: i64, bend: u64 },
    Open { lower: i64, upper: i64, bend: u64 },
}
