// Whole numbers as words of bytes, for the programs that the comparisons run. A negative number is coded by its top bit and the number of
// steps that it lies below -1, so that every number of its type has one code and every code is a number.
// An inner crate: what its functions require, every caller proves.
#![tactic(auto)]

ghost use Rattle.std.specs.Prelude.{◌+◌, ◌≤◌, length};

// The number that four bytes hold, the lowest first.
pub fn number(a: u8, b: u8, c: u8, d: u8) -> u32 {
    u32::from_le_bytes([a, b, c, d])
}

pub fn code(number: i64) -> u64 {
    if number < 0 {
        9223372036854775808 + (!number as u64)
    } else {
        number as u64
    }
}

// Puts a word at eight places, the lowest byte first.
pub fn put(out: &mut [u8], at: usize, word: u64)
    requires { at + 8 ≤ length out.old }
{
    out[at..at + 8].copy_from_slice(&word.to_le_bytes());
}
