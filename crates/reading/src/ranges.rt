// A well-formed text: its coefficients in the page's order, and its ranges.
ghost use Rattle.std.specs.Prelude.{◌≡◌, map, ◌+◌, ◌≤◌, ◌<◌, length};
ghost use Rattle.std.proofs.lemmas.List.Edits.{sets};
ghost use Rattle.algebra.specs.Sum.{◌⋯◌};
ghost use Rattle.reading.specs.Steps.{table_at, gathered_from, refused_text, Judged};

use crate::{Head, Refused, Sheet};
use page::Refusal;

// The coefficients of a row, A(i,0) to A(i,n), from `at` on: those of the table's row i.
fn put_row(coefficients: &mut [i32; 45], at: usize, values: &[i32], i: usize, n: usize)
    requires { (length coefficients.old ≡ 45) × (length values.now ≡ 81) × (i ≤ 8) × (n ≤ 8) × (at + n < 45) }
    ensures { coefficients.new ≡ sets coefficients.old at (map (table_at values.now i) (0 ⋯ n)) }
{
    for j in 0..n + 1 {
        coefficients[at + j] = values[9 * i + j];
    }
}

// The coefficients A(i,j) in the order i = 0..d and within it j = 0..d-i, and zeros after them.
fn gathered(d: usize, values: &[i32]) -> [i32; 45]
    requires { (d ≤ 8) × (length values.now ≡ 81) }
    ensures { result ≡ gathered_from d values.now }
{
    let mut coefficients = [0i32; 45];
    let mut at = 0;
    for i in 0..d + 1 {
        put_row(&mut coefficients, at, values, i, d - i);
        at += d - i + 1;
    }
    coefficients
}

// A refusal of the text as a whole: no line and no field are meant.
pub fn refused(refusal: Refusal) -> Refused
    ensures { result ≡ refused_text refusal }
{
    Refused {
        refusal,
        line: 0,
        field: 0,
    }
}

// The sheet of a well-formed text, judged by 1, 3, 4, 5, 6.
pub fn judged(head: Head, values: &[i32]) -> Result<Sheet, Refused>
    requires { length values.now ≡ 81 }
    ensures { Judged head values.now result }
{
    let d = head.d;
    if 8 < d {
        return Err(refused(Refusal::Degree));
    }
    let n = d as usize;
    let coefficients = gathered(n, values);
    let count = cells::count(d);
    let sheet = cells::Sheet {
        d,
        coefficients: &coefficients[..count],
        x: head.x,
        y: head.y,
        s: head.s,
        k: head.k,
    };
    if let Err(refusal) = sheet.check_mode(head.mode) {
        return Err(refused(refusal));
    }
    Ok(Sheet {
        d,
        x: head.x,
        y: head.y,
        s: head.s,
        k: head.k,
        mode: head.mode,
        coefficients,
    })
}
