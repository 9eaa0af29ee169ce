// The digits: white space may stand among them, and what follows the last one, if anything does, begins with white space.
ghost use Rattle.std.specs.Prelude.{◌≡◌, ◌||◌, cond, ◌*◌, ◌^◌, ◌≤◌, min, length, drop};
ghost use Rattle.pbm.specs.Reading.{is_white, is_bit, is_after};
ghost use Rattle.scanning.specs.Steps.{DataTaken, DataComplete};

use header::{MOST, is_white};

// Whether the byte is `0` or `1`.
pub fn is_bit(byte: u8) -> bool
    ensures { result ≡ is_bit byte }
{
    matches!(byte, b'0' | b'1')
}

// Whether the byte may stand among the digits.
fn among(byte: u8) -> bool
    ensures { result ≡ is_bit byte || is_white byte }
{
    is_bit(byte) || is_white(byte)
}

// How many digits the byte is.
fn count_of(byte: u8) -> u64
    ensures { result ≡ cond (is_bit byte) 1 0 }
{
    u64::from(is_bit(byte))
}

// So many digits from `at` on, with what stands among them: where the last one ends, if there are so many.
fn take_data(text: &[u8], at: usize, count: u64) -> Option<usize>
    requires { at ≤ length text.now }
    ensures { DataTaken text.now at count result }
{
    let mut left = count;
    for i in at..text.len() {
        if left == 0 {
            return Some(i);
        }
        if !among(text[i]) {
            return None;
        }
        left -= count_of(text[i]);
    }
    if left == 0 { Some(text.len()) } else { None }
}

// Whether nothing follows at `at`, or white space does.
fn followed(text: &[u8], at: usize) -> bool
    requires { at ≤ length text.now }
    ensures { result ≡ is_after (drop at text.now) }
{
    match &text[at..] {
        [byte, ..] => is_white(*byte),
        [] => true,
    }
}

// How many digits a picture has, but not more than 2^63.
fn count(width: u64, height: u64) -> u64
    ensures { result ≡ min (width * height) (2 ^ 63) }
{
    width.saturating_mul(height).min(MOST)
}

// Whether the digits of a picture of these sizes stand from `at` on, and are followed as they must be.
pub fn complete(text: &[u8], at: usize, width: u64, height: u64) -> bool
    requires { at ≤ length text.now }
    ensures { DataComplete text.now at width height result }
{
    match take_data(text, at, count(width, height)) {
        Some(next) => followed(text, next),
        None => false,
    }
}
