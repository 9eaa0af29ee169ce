// A case: 80 words of four bytes, the lowest byte first. Word 0 names the call, 0 check, 1 value, 2 bounds, 3 raster, 4 listing; the others
// are what it takes, in the order of `Case`. X, Y, U, V and the coefficients are signed codes; U and V have two words each, the lower one first;
// word 15 is the number of entries of the place that is lent to raster and listing, which follow the case.
ghost use Rattle.std.specs.Prelude.{◌≡◌, ◌≤◌, length};

use crate::coding::{long, long_signed, signed};
use std::io::Read;
use std::{array, io};

// The most entries that a place has: those of the finest grid and 32 more.
pub const ENTRIES: usize = 16416;

// The most coefficients that a case holds.
const COEFFICIENTS: usize = 64;

#[derive(Clone, Copy)]
pub enum Call {
    Check,
    Value,
    Bounds,
    Raster,
    Listing,
    Unknown,
}

impl From<u32> for Call {
    fn from(number: u32) -> Call {
        match number {
            0 => Call::Check,
            1 => Call::Value,
            2 => Call::Bounds,
            3 => Call::Raster,
            4 => Call::Listing,
            _ => Call::Unknown,
        }
    }
}

#[derive(Clone, Copy)]
pub struct Case {
    pub call: Call,
    pub d: u32,
    count: usize,
    pub x: i32,
    pub y: i32,
    pub s: u32,
    pub k: u32,
    pub mode: u32,
    pub j: u32,
    pub p: u32,
    pub q: u32,
    pub u: i64,
    pub v: i64,
    pub entries: usize,
    all: [i32; COEFFICIENTS],
    ghost counted: { count ≤ 64 },
    ghost whole: { length all ≡ 64 },
    ghost held: { entries ≤ 16416 },
}

impl From<[u32; 80]> for Case {
    fn from(words: [u32; 80]) -> Case {
        Case {
            call: Call::from(words[0]),
            d: words[1],
            count: (words[2] as usize).min(COEFFICIENTS),
            x: signed(words[3]),
            y: signed(words[4]),
            s: words[5],
            k: words[6],
            mode: words[7],
            j: words[8],
            p: words[9],
            q: words[10],
            u: long_signed(long(words[11], words[12])),
            v: long_signed(long(words[13], words[14])),
            entries: (words[15] as usize).min(ENTRIES),
            all: array::from_fn(|i| signed(words[16 + i])),
        }
    }
}

impl Case {
    // The next case of the input.
    pub fn read<R: Read>(from: &mut R) -> io::Result<Case> {
        let mut bytes = [0u8; 320];
        from.read_exact(&mut bytes)?;
        Ok(Case::from(words_of(&bytes)))
    }

    // The coefficients that are handed over, at most the 64 that a case holds.
    pub fn coefficients(&self) -> &[i32] {
        &self.all[..self.count]
    }
}

fn words_of(bytes: &[u8; 320]) -> [u32; 80] {
    let mut words = [0; 80];
    for (word, four) in words.iter_mut().zip(bytes.chunks_exact(4)) {
        *word = u32::from_le_bytes([four[0], four[1], four[2], four[3]]);
    }
    words
}
