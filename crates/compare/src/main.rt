// Answers many cases of the public calls, so that tests/compare.py can hold the answers to those of its second program.
//
// Standard input is a row of cases of 320 bytes (`case` says what they mean), and standard output a row of answers of 40 bytes in the same
// order (`answer`). After the case of a raster or a listing comes the whole place that is lent to it, as it is before the call, and after the
// answer the whole place again, as the call left it (`place`). The program ends where the input does.
#![tactic(auto)]

mod answer;
mod call;
mod case;
mod coding;
mod place;

use answer::NoValues;
use case::{Call, Case};
use std::io;
use std::io::{Read, Write};

// Reads one case and writes its answer; an error where no whole case is left, with its place, or the answer can't be written.
fn one_case<R: Read, W: Write>(from: &mut R, to: &mut W) -> io::Result<()> {
    let case = Case::read(from)?;
    match case.call {
        Call::Check => answer::write(to, call::check(&case)),
        Call::Value => answer::write(to, call::value(&case)),
        Call::Bounds => answer::write(to, call::bounds(&case)),
        Call::Raster => place::raster(from, to, &case),
        Call::Listing => place::listing(from, to, &case),
        Call::Unknown => answer::write(to, Err(NoValues::NoSuchCall)),
    }
}

// A proved loop has to end, and nothing says that the input does: the cases are counted up to a number that no run comes to.
fn main(rt: HostRuntime) {
    for _ in 0..u64::MAX {
        if one_case(&mut rt.stdin(), &mut rt.stdout()).is_err() {
            break;
        }
    }
}
