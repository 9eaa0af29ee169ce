// Lines of a text: a letter in field 1, and a number in each field after it; or the first fault of a line.
// An inner crate: what its functions require, every caller proves.
#![tactic(auto)]

mod digits;
mod fields;
mod finding;
mod line;

pub use line::take_line;
use page::Refusal;

// How many fields a line has, 5 where it has more than four, and where the first four end: there is no heap to hold the fields in.
#[derive(Clone, Copy)]
struct Parted {
    pub count: usize,
    pub ends: [usize; 4],
}

// What is wrong with a line, and at which field, counted from 1; field 0 where none is meant.
#[derive(Clone, Copy)]
pub struct Fault {
    pub refusal: Refusal,
    pub field: u32,
}

// What a line comes to: its first fault, if it has one; and how many of its numbers were read, and these, which are told beside a fault too.
#[derive(Clone, Copy)]
struct Numbers {
    pub fault: Option<Fault>,
    pub read: usize,
    pub values: [i32; 3],
}

// The same of a line of a text, and where the next line begins. No Result, since a term is judged by two numbers before the fault of a third.
#[derive(Clone, Copy)]
pub struct Taken {
    pub fault: Option<Fault>,
    pub next: usize,
    pub read: usize,
    pub values: [i32; 3],
}
