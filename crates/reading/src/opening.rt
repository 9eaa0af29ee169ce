// The first four lines of a text: `D` d; `B` X Y s; `K` k; `M` mode.
ghost use Rattle.std.specs.Prelude.{◌≡◌, ◌≤◌, length};
ghost use Rattle.reading.specs.Steps.{head_by, refused_at, HeadLine, HeadRead};

use crate::{Head, Refused};
use lines::{Fault, Taken, take_line};

// The refusal at a line, by the fault that it has.
pub fn at_line(line: u32, fault: Fault) -> Refused
    ensures { result ≡ refused_at line fault }
{
    Refused {
        refusal: fault.refusal,
        line,
        field: fault.field,
    }
}

// A line of the text, from `at` on: taken, or what is wrong with it.
fn head_line(
    text: &[u8],
    at: usize,
    line: u32,
    letter: u8,
    count: usize,
    signs: [bool; 3],
) -> Result<Taken, Refused>
    requires { (at ≤ length text.now) × (count ≤ 3) × (length signs ≡ 3) }
    ensures { HeadLine text.now at line letter count signs result }
{
    let taken = take_line(text, at, letter, count, signs);
    match taken.fault {
        Some(fault) => Err(at_line(line, fault)),
        None => Ok(taken),
    }
}

// What the four lines say, by the numbers of each; of those without a sign the size is the number.
fn head_of(next: usize, degree: [i32; 3], square: [i32; 3], depth: [i32; 3], mode: [i32; 3]) -> Head
    requires { (length degree ≡ 3) × (length square ≡ 3) × (length depth ≡ 3) × (length mode ≡ 3) }
    ensures { result ≡ head_by next degree square depth mode }
{
    Head {
        next,
        d: degree[0].unsigned_abs(),
        x: square[0],
        y: square[1],
        s: square[2].unsigned_abs(),
        k: depth[0].unsigned_abs(),
        mode: mode[0].unsigned_abs(),
    }
}

// The first four lines, or what is wrong with the first of them that has a fault.
pub fn read_head(text: &[u8]) -> Result<Head, Refused>
    ensures { HeadRead text.now result }
{
    let d = head_line(text, 0, 1, b'D', 1, [false, false, false])?;
    let b = head_line(text, d.next, 2, b'B', 3, [true, true, false])?;
    let k = head_line(text, b.next, 3, b'K', 1, [false, false, false])?;
    let m = head_line(text, k.next, 4, b'M', 1, [false, false, false])?;
    Ok(head_of(m.next, d.values, b.values, k.values, m.values))
}
