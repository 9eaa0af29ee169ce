// What a reader gives, into a place: what the programs begin with, on standard input.
// An inner crate: what its functions require, every caller proves.
#![tactic(auto)]

ghost use Rattle.std.specs.Prelude.{◌≡◌, ◌≤◌, length};
ghost use Rattle.intake.specs.Steps.{counted, ReadOn};

use std::io;
use std::io::Read;

// One byte more than a sheet text may have: so a longer text is refused, and no more of it is held.
pub fn text_space() -> [u8; 8193]
    ensures { 8193 ≡ length result }
{
    [0; 8193]
}

// Fills the place from what is read, until it is full or the input ends, and says how many bytes were read. The first read that fails ends it.
// A loop on `at`: how far each turn goes, only the read says, so there is nothing that a `for` could run over.
pub fn read_all<R: Read>(from: &mut R, place: &mut [u8]) -> io::Result<usize>
    ensures within { counted result ≤ length place.new }
    ensures bytes { ReadOn result (R.remaining from.old) (R.remaining from.new) place.new }
{
    let mut at = 0;
    while at < place.len() {
        let n = from.read(&mut place[at..])?;
        if n == 0 {
            return Ok(at);
        }
        at += n;
    }
    Ok(at)
}
