// The lines after the fourth: zero or more `T` i j coefficient, in any order, no (i,j) twice, i + j ≤ the declared d, i and j at most 8.
ghost use Rattle.std.specs.Prelude.{◌≡◌, [], ◌≤◌, ◌<◌, length, set};
ghost use Rattle.page.specs.SheetLine.{whole_at, number_at};
ghost use Rattle.reading.specs.Steps.{place_of, term_fault_in, fault_by, Tables, TermTaken, TermsRead};

use crate::Refused;
use crate::opening::at_line;
use lines::{Fault, Taken, take_line};
use page::Refusal;

// What is wrong with a term: it is beyond the degree, or an exponent is above 8; or it was named before.
fn term_fault(d: u32, i: u32, j: u32, named: &[u8]) -> Result<(), Refusal>
    requires { length named.now ≡ 81 }
    ensures { result ≡ term_fault_in d i j named.now }
{
    if 8 < i {
        return Err(Refusal::Beyond);
    }
    if 8 < j {
        return Err(Refusal::Beyond);
    }
    if d < i + j {
        return Err(Refusal::Beyond);
    }
    if named[(9 * i + j) as usize] != 0 {
        return Err(Refusal::Twice);
    }
    Ok(())
}

// What is wrong with a term's line, by what was taken of it: once both exponents are read the term is judged, before a fault of the coefficient.
fn line_fault(taken: Taken, d: u32, named: &[u8]) -> Result<(), Fault>
    requires { (length taken.values ≡ 3) × (length named.now ≡ 81) }
    ensures { result ≡ fault_by taken d named.now }
{
    let term = taken.values;
    if 2 <= taken.read {
        if let Err(refusal) = term_fault(d, term[0].unsigned_abs(), term[1].unsigned_abs(), named) {
            return Err(Fault { refusal, field: 2 });
        }
    }
    match taken.fault {
        Some(fault) => Err(fault),
        None => Ok(()),
    }
}

// Enters the term of a line's three numbers.
fn enter(term: [i32; 3], values: &mut [i32], named: &mut [u8])
    requires { (length term ≡ 3) × (whole_at term 0 ≤ 8) × (whole_at term 1 ≤ 8) × (length values.old ≡ 81) × (length named.old ≡ 81) }
    ensures { (values.new ≡ set values.old (place_of (whole_at term 0) (whole_at term 1)) (number_at term 2))
        × (named.new ≡ set named.old (place_of (whole_at term 0) (whole_at term 1)) 1) }
{
    let at = (9 * term[0].unsigned_abs() + term[1].unsigned_abs()) as usize;
    named[at] = 1;
    values[at] = term[2];
}

// The line of a text from `at` on, as a term, which is entered: where the next line begins, or what is wrong.
fn term_line(
    text: &[u8],
    at: usize,
    d: u32,
    values: &mut [i32],
    named: &mut [u8],
) -> Result<usize, Fault>
    requires { (at < length text.now) × (length values.old ≡ 81) × (length named.old ≡ 81) }
    ensures { TermTaken text.now at d values.old values.new named.old named.new result }
{
    let taken = take_line(text, at, b'T', 3, [false, false, true]);
    line_fault(taken, d, named)?;
    enter(taken.values, values, named);
    Ok(taken.next)
}

// All lines from `from` on, the fifth and its followers: what is wrong with the first that has a fault.
pub fn read_terms(
    text: &[u8],
    from: usize,
    d: u32,
    values: &mut [i32],
    named: &mut [u8],
) -> Result<(), Refused>
    requires { (from ≤ length text.now) × (length text.now ≤ 8_192) × Tables [] values.old named.old }
    ensures { TermsRead text.now from d values.new result }
{
    let mut at = from;
    let mut line = 5;
    // a while: it goes by where a line ends
    while at < text.len() {
        match term_line(text, at, d, values, named) {
            Ok(next) => at = next,
            Err(fault) => return Err(at_line(line, fault)),
        }
        line += 1;
    }
    Ok(())
}
