// Sizes: digits of any count. Their number is not read above 2^63, which no text has bytes for.
ghost use Rattle.std.specs.Prelude.{◌≤◌, length};
ghost use Rattle.header.specs.Steps.{DigitsPassed, SizeTaken};

use crate::Size;
use crate::gaps::gap_end;

// 2^63, which no text has bytes for.
pub const MOST: u64 = 9_223_372_036_854_775_808;

// Where the digits end that begin at `at`.
fn digits_end(text: &[u8], at: usize) -> usize
    requires { at ≤ length text.now }
    ensures { DigitsPassed text.now at result }
{
    match text[at..].iter().position(|byte| !byte.is_ascii_digit()) {
        Some(count) => at + count,
        None => text.len(),
    }
}

// The size after the gap that begins at `at`.
pub fn size_after(text: &[u8], at: usize) -> Option<Size>
    requires { at ≤ length text.now }
    ensures { SizeTaken text.now at result }
{
    let from = gap_end(text, at);
    let end = digits_end(text, from);
    if from == at {
        return None;
    }
    if end == from {
        return None;
    }
    let value = decimals::capped_amount::<MOST>(&text[from..end]);
    if value == 0 {
        return None;
    }
    Some(Size { value, next: end })
}
