// Lines: the letter in field 1, a number in each field after it, and LF; or what is wrong first.
ghost use Rattle.std.specs.Prelude.{◌≡◌, ◌≤◌, length};
ghost use Rattle.lines.specs.Steps.{fault_after, opening_by, LineRead, none_at, closed_at, LineTaken};

use crate::digits::number;
use crate::fields::{letter_alone, part};
use crate::finding::find;
use crate::{Fault, Numbers, Taken};
use page::Refusal;

const LF: u8 = b'\n';

// The fault of the field that comes after `read` numbers, which is field read + 2.
fn field_fault(refusal: Refusal, read: usize, values: [i32; 3]) -> Numbers
    requires { read ≤ 3 }
    ensures { result ≡ fault_after refusal read values }
{
    Numbers {
        fault: Some(Fault {
            refusal,
            field: (read + 2) as u32,
        }),
        read,
        values,
    }
}

// What is wrong before a number is read: the letter is tried, and after it the count of fields.
fn opening(right: bool, count: usize, asked: usize) -> Option<Fault>
    ensures { result ≡ opening_by right count asked }
{
    if !right {
        return Some(Fault {
            refusal: Refusal::Letter,
            field: 1,
        });
    }
    if count != asked {
        return Some(Fault {
            refusal: Refusal::Fields,
            field: 0,
        });
    }
    None
}

// What a line comes to that has to begin with the letter and to hold `count` numbers, each negative only where `signs` says so.
fn numbers_of(line: &[u8], letter: u8, count: usize, signs: [bool; 3]) -> Numbers
    requires { (count ≤ 3) × (length signs ≡ 3) }
    ensures { LineRead line.now letter count signs result }
{
    let parted = part(line);
    let ends = parted.ends;
    let right = letter_alone(&line[..ends[0]], letter);
    let mut values = [0i32; 3];
    if let Some(fault) = opening(right, parted.count, count + 1) {
        return Numbers {
            fault: Some(fault),
            read: 0,
            values,
        };
    }
    for i in 0..count {
        match number(&line[ends[i] + 1..ends[i + 1]], signs[i]) {
            Ok(value) => values[i] = value,
            Err(refusal) => return field_fault(refusal, i, values),
        }
    }
    Numbers {
        fault: None,
        read: count,
        values,
    }
}

// A line that is missing: a letter fault, at field 0.
fn no_line(at: usize) -> Taken
    ensures { result ≡ none_at at }
{
    Taken {
        fault: Some(Fault {
            refusal: Refusal::Letter,
            field: 0,
        }),
        next: at,
        read: 0,
        values: [0; 3],
    }
}

// What a line of a text of n bytes comes to, which ends at `end`: where no LF stands there it is unended, which is tried last.
fn closed(line: Numbers, end: usize, n: usize) -> Taken
    requires { end ≤ n }
    ensures { result ≡ closed_at line end n }
{
    // by a variable: an array put from field to field is not covered
    let values = line.values;
    if end < n {
        return Taken {
            fault: line.fault,
            next: end + 1,
            read: line.read,
            values,
        };
    }
    let unended = Fault {
        refusal: Refusal::Unended,
        field: 0,
    };
    Taken {
        fault: line.fault.or(Some(unended)),
        next: end,
        read: line.read,
        values,
    }
}

// The line of a text from `at` on: missing, or its first fault, or its numbers.
pub fn take_line(text: &[u8], at: usize, letter: u8, count: usize, signs: [bool; 3]) -> Taken
    requires { (at ≤ length text.now) × (count ≤ 3) × (length signs ≡ 3) }
    ensures { LineTaken text.now at letter count signs result }
{
    let n = text.len();
    if at == n {
        return no_line(at);
    }
    let end = find(text, at, LF);
    let line = numbers_of(&text[at..end], letter, count, signs);
    closed(line, end, n)
}
