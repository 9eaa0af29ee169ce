// Writes and reads many pictures, so that tests/pictures.py can hold what comes of them to its second program.
//
// Standard input is a row of items. An item begins with seven numbers of four bytes (`items`): the call, the depth, how long the raster or the text is,
// how long the place is that is lent, and what the place holds. Then come the raster or the text, and the bytes of the place that are given one by
// one. So every entry of a place can be chosen. For each item standard output has a word of eight bytes with the refusal's number, a word with the
// answer, and all of the place, as the call left it. An item whose call is 3 has only its seven numbers, and asks for the place that
// `reply::picture_place` makes: all of it is written, and nothing else. The program ends where the input does.
#![tactic(auto)]

ghost use Rattle.std.specs.Prelude.{◌≡◌, length};

use page::Refusal;
use std::io;
use std::io::{Read, Write};
use words::put;

// The longest raster or text, and the longest place, that is held.
const LONGEST: usize = 65_600;

// What the numbers of an item's head say; the three from BYTE on are those of the place.
const CALL: usize = 0;

const DEPTH: usize = 1;

const INPUT: usize = 2;

const PLACE: usize = 3;

const BYTE: usize = 4;

// The first number of an item that asks for what `reply::picture_place` makes.
const MADE: usize = 3;

#[derive(Clone, Copy)]
enum Call {
    Write,
    Read,
    Depict,
}

impl From<usize> for Call {
    fn from(number: usize) -> Call {
        match number {
            0 => Call::Write,
            1 => Call::Read,
            _ => Call::Depict,
        }
    }
}

fn answer_of(call: Call, k: u32, input: &[u8], place: &mut [u8]) -> Result<usize, Refusal> {
    match call {
        Call::Write => printing::write_pbm(k, input, place),
        Call::Read => scanning::read_pbm(input, place).map(|k| k as usize),
        Call::Depict => Ok(reply::depict(input, place)),
    }
}

// Where a raster or a text is held, and where the place that is lent.
fn space() -> [u8; LONGEST]
    ensures { 65600 ≡ length result }
{
    [0; LONGEST]
}

// Writes the place that `reply::picture_place` makes. A function of its own: in `one_item` the place would be made anew for every item, whether it asks for it or not.
fn made<W: Write>(to: &mut W) -> io::Result<()> {
    to.write_all(&reply::picture_place())
}

// Writes an answer, after the number of a refusal, or 0; and the place.
fn shown<W: Write>(to: &mut W, answer: Result<usize, Refusal>, place: &[u8]) -> io::Result<()> {
    let (number, value) = match answer {
        Ok(value) => (0, value),
        Err(refusal) => (numbering::number(refusal), 0),
    };
    let mut out = [0; 16];
    put(&mut out, 0, u64::from(number));
    put(&mut out, 8, value as u64);
    to.write_all(&out)?;
    to.write_all(place)
}

// Reads one item and writes what comes of it; an error where no whole item is left, or the answer can't be written.
// compare_texts has the like: one function over the calls of both would be as long as what it spares, and here the text and the place are cut to
// their lengths, which must-fail/place_beyond_its_space keeps within their spaces.
fn one_item<R: Read, W: Write>(
    from: &mut R,
    to: &mut W,
    text: &mut [u8],
    place: &mut [u8],
) -> io::Result<()> {
    let mut head = [0; 28];
    from.read_exact(&mut head)?;
    if items::at(&head, CALL) == MADE {
        return made(to);
    }
    let n = items::within(&head, INPUT, text.len());
    let entries = items::within(&head, PLACE, place.len());
    let input = &mut text[..n];
    from.read_exact(input)?;
    let lent = &mut place[..entries];
    items::hold(from, &head, BYTE, lent)?;
    let call = Call::from(items::at(&head, CALL));
    let k = items::at(&head, DEPTH) as u32;
    shown(to, answer_of(call, k, input, lent), lent)
}

// A proved loop has to end, and nothing says that the input does: the items are counted up to a number that no run comes to.
fn main(rt: HostRuntime) {
    let mut text = space();
    let mut place = space();
    for _ in 0..u64::MAX {
        if one_item(&mut rt.stdin(), &mut rt.stdout(), &mut text, &mut place).is_err() {
            break;
        }
    }
}
