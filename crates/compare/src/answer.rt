// An answer: five words. The first is 0 where the call answered values, 1 where it refused, and 2 where there is no such call. After a 1
// stands the refusal's number; after a 0 stand the values: weight and spare places; or F; or the verdict (1 above, 2 below, 3 open),
// the lower bound, the upper bound and the bend; or visited, coloured and the largest bend; or the listing's length, and these three. F and
// the bounds are signed codes. Words not used are 0.
use probe::{Refusal, Verdict};
use std::io;
use std::io::Write;
use words::{code, put};

// Why a case has no values.
#[derive(Clone, Copy)]
pub enum NoValues {
    Refused(Refusal),
    NoSuchCall,
}

impl From<Refusal> for NoValues {
    fn from(refusal: Refusal) -> NoValues {
        NoValues::Refused(refusal)
    }
}

pub type Answer = Result<[u64; 4], NoValues>;

pub fn of_verdict(verdict: Verdict) -> [u64; 4] {
    match verdict {
        Verdict::Above { lower, upper, bend } => [1, code(lower), code(upper), bend],
        Verdict::Below { lower, upper, bend } => [2, code(lower), code(upper), bend],
        Verdict::Open { lower, upper, bend } => [3, code(lower), code(upper), bend],
    }
}

fn words_of(answer: Answer) -> [u64; 5] {
    match answer {
        Ok(values) => {
            let [a, b, c, d] = values;
            [0, a, b, c, d]
        }
        Err(NoValues::Refused(refusal)) => [1, u64::from(numbering::number(refusal)), 0, 0, 0],
        Err(NoValues::NoSuchCall) => [2, 0, 0, 0, 0],
    }
}

// Writes the answer, eight bytes for each word, the lowest first.
pub fn write<W: Write>(to: &mut W, answer: Answer) -> io::Result<()> {
    let mut out = [0; 40];
    for (i, word) in words_of(answer).into_iter().enumerate() {
        put(&mut out, 8 * i, word);
    }
    to.write_all(&out)
}
