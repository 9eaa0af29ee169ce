// The mask's rows, from the digits of a plain PBM: the top row comes first there, and last here.
ghost use Rattle.std.specs.Prelude.{◌+◌, ◌*◌, ◌≤◌, ◌<◌, length, drop};
ghost use Rattle.scanning.specs.Steps.{bits_ahead, BitFound, RowTaken, RowsTaken};

use crate::digits::is_bit;

// The next digit from `at` on, of which there is one.
// A while: by `position` a dense picture takes a sixth more instructions, and up to half more time as the code happens to lie; by a `for` more of them yet.
fn next_bit(text: &[u8], at: usize) -> usize
    requires { 0 < length (bits_ahead (drop at text.now)) }
    ensures { BitFound text.now at result }
{
    let mut i = at;
    while !is_bit(text[i]) {
        i += 1;
    }
    i
}

// Sets the bytes of a row from `from` on, from the digits from `at` on: where the last of them ends.
fn put_row(text: &[u8], at: usize, place: &mut [u8], from: usize, side: usize) -> usize
    requires { (side ≤ length (bits_ahead (drop at text.now))) × (from + side ≤ length place.old) }
    ensures { RowTaken text.now at from side place.old place.new result }
{
    let mut next = at;
    for p in 0..side {
        let found = next_bit(text, next);
        place[from + p] = text[found] - b'0';
        next = found + 1;
    }
    next
}

// Sets all rows: the n-th from above is row side - 1 - n of the mask.
pub fn put_rows(text: &[u8], at: usize, place: &mut [u8], side: usize)
    requires { (side * side ≤ length (bits_ahead (drop at text.now))) × (side * side ≤ length place.old) }
    ensures { RowsTaken text.now at side place.old place.new }
{
    let mut next = at;
    for n in 0..side {
        next = put_row(text, next, place, (side - 1 - n) * side, side);
    }
}
