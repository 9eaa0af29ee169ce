// Reads many sheet texts, so that tests/texts.py can hold what comes of them to its second program.
//
// Standard input is a row of items. An item begins with seven numbers of four bytes (`items`): how long its text and the place that is lent to `answer`
// are, what the place holds, and how many of its first entries, and how many of its last ones, are shown. Then come the text, and the bytes of the place
// that are given one by one.
// So every entry of a place can be chosen, and every entry can be seen. For each item standard output has the words of what `read` answers
// (`sheet`), a word with what `answer` answers, and the first and the last entries of the place, so many as are asked for, as the call left
// them. An item whose first number is 2^32 - 1 has only its seven numbers, and asks for the place that `reply::place` makes: all of it is written,
// and nothing else. The program ends where the input does.
#![tactic(auto)]

mod sheet;

ghost use Rattle.std.specs.Prelude.{◌≡◌, length};

use std::io;
use std::io::{Read, Write};

// The longest text, and the longest place, that is held.
const LONGEST: usize = 262_144;

const ENTRIES: usize = 262_208;

// What the numbers of an item's head say; the three from BYTE on are those of the place.
const TEXT: usize = 0;

const PLACE: usize = 1;

const BYTE: usize = 2;

const FIRST: usize = 5;

const LAST: usize = 6;

// The first number of an item that asks for what `reply::place` makes.
const MADE: usize = 4_294_967_295;

// Where a text is held.
fn text_space() -> [u8; LONGEST]
    ensures { 262144 ≡ length result }
{
    [0; LONGEST]
}

// Where the place is held that is lent.
fn place_space() -> [u8; ENTRIES]
    ensures { 262208 ≡ length result }
{
    [0; ENTRIES]
}

// Writes the place that `reply::place` makes. A function of its own: in `one_item` the place would be made anew for every item, whether it asks for it or not.
fn made<W: Write>(to: &mut W) -> io::Result<()> {
    to.write_all(&reply::place())
}

// Writes what comes of a text, and the first and the last entries of the place.
fn answered<W: Write>(
    to: &mut W,
    head: &[u8; 28],
    input: &[u8],
    place: &mut [u8],
) -> io::Result<()> {
    let first = items::within(head, FIRST, place.len());
    let last = items::within(head, LAST, place.len());
    let n = reply::answer(input, place);
    let from = place.len() - last;
    to.write_all(&sheet::words_of(reading::read(input), n as u64))?;
    to.write_all(&place[..first])?;
    to.write_all(&place[from..])
}

// Reads one item and writes what comes of it; an error where no whole item is left, or the answer can't be written.
// compare_pictures has the like: one function over the calls of both would be as long as what it spares, and here the text and the place are cut to
// their lengths, which must-fail/place_beyond_its_space keeps within their spaces.
fn one_item<R: Read, W: Write>(
    from: &mut R,
    to: &mut W,
    text: &mut [u8],
    place: &mut [u8],
) -> io::Result<()> {
    let mut head = [0; 28];
    from.read_exact(&mut head)?;
    if items::at(&head, TEXT) == MADE {
        return made(to);
    }
    let n = items::within(&head, TEXT, text.len());
    let entries = items::within(&head, PLACE, place.len());
    let input = &mut text[..n];
    from.read_exact(input)?;
    let lent = &mut place[..entries];
    items::hold(from, &head, BYTE, lent)?;
    answered(to, &head, input, lent)
}

// A proved loop has to end, and nothing says that the input does: the items are counted up to a number that no run comes to.
fn main(rt: HostRuntime) {
    let mut text = text_space();
    let mut place = place_space();
    for _ in 0..u64::MAX {
        if one_item(&mut rt.stdin(), &mut rt.stdout(), &mut text, &mut place).is_err() {
            break;
        }
    }
}
