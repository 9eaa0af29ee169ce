// The calls that are lent a place. The entries that it holds before the call follow the case in the input, and those that it holds afterwards
// follow the answer: all of them, one byte for each entry of a raster's, four for each of a listing's, the lowest first. So every entry can be
// chosen, and every entry is seen, whether it was written or left.
ghost use Rattle.std.specs.Prelude.{◌+◌, ◌*◌, ◌≤◌, length};

use crate::answer::Answer;
use crate::case::{Case, ENTRIES};
use crate::{answer, call};
use std::io;
use std::io::{Read, Write};

// The entry in four bytes.
fn entry_at(given: &[u8], at: usize) -> u32
    requires { at + 4 ≤ length given.now }
{
    u32::from_le_bytes([given[at], given[at + 1], given[at + 2], given[at + 3]])
}

// The entries from their bytes, each by its place: `chunks_exact` would end early where the chunks are too long (must-fail/entries_five_bytes_apart),
// and here the check sees that they are.
fn take_entries(place: &mut [u32], given: &[u8])
    requires { 4 * length place.old ≤ length given.now }
{
    for (i, entry) in place.iter_mut().enumerate() {
        *entry = entry_at(given, 4 * i);
    }
}

// The entries in bytes.
fn put_entries(out: &mut [u8], place: &[u32]) {
    for (four, entry) in out.chunks_exact_mut(4).zip(place) {
        four.copy_from_slice(&entry.to_le_bytes());
    }
}

// The answer, then the place.
fn write<W: Write>(to: &mut W, answer: Answer, place: &[u8]) -> io::Result<()> {
    answer::write(to, answer)?;
    to.write_all(place)
}

// Lends a raster a place of the asked length. `listing` does the like with four bytes for each entry: one function that lends either its bytes,
// over a closure, would be longer than the lines that it spares, and would ask of the closure that it can take so many.
pub fn raster<R: Read, W: Write>(from: &mut R, to: &mut W, case: &Case) -> io::Result<()> {
    let mut space = [0; ENTRIES];
    let place = &mut space[..case.entries];
    from.read_exact(place)?;
    let answer = call::raster(case, place);
    write(to, answer, place)
}

// Lends a listing the entries that the bytes hold, and leaves in the bytes what becomes of them.
fn relisted(case: &Case, place: &mut [u32], held: &mut [u8]) -> Answer
    requires { 4 * length place.old ≤ length held.old }
{
    take_entries(place, held);
    let answer = call::listing(case, place);
    put_entries(held, place);
    answer
}

pub fn listing<R: Read, W: Write>(from: &mut R, to: &mut W, case: &Case) -> io::Result<()> {
    let mut bytes = [0; 4 * ENTRIES];
    let held = &mut bytes[..4 * case.entries];
    from.read_exact(held)?;
    let mut space = [0; ENTRIES];
    let answer = relisted(case, &mut space[..case.entries], held);
    write(to, answer, held)
}
