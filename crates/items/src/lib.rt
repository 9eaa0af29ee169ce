// Items that the comparisons' programs are given, for those that are lent a place of bytes. An item begins with its head, seven numbers of four bytes,
// the lowest byte first; three of them, one after the other, say what the place holds: which byte fills it, and from which of its entries on, and before
// which one, it holds other bytes, that are given one by one. Where a number is larger than what there is, all that there is is meant.
// An inner crate: what its functions require, every caller proves.
#![tactic(auto)]

ghost use Rattle.std.specs.Prelude.{◌≤◌, ◌<◌};

use std::io;
use std::io::Read;
use words::number;

// The number at a place of the head.
pub fn at(head: &[u8; 28], i: usize) -> usize
    requires { i < 7 }
    ensures { result < 4294967296 }
{
    let from = 4 * i;
    number(head[from], head[from + 1], head[from + 2], head[from + 3]) as usize
}

// The same, but at most so much.
pub fn within(head: &[u8; 28], i: usize, most: usize) -> usize
    requires { i < 7 }
    ensures { result ≤ most }
{
    at(head, i).min(most)
}

// Makes the place hold what the three numbers from the first on say; an error where the input ends within that.
pub fn hold<R: Read>(
    from: &mut R,
    head: &[u8; 28],
    first: usize,
    place: &mut [u8],
) -> io::Result<()>
    requires { first < 5 }
{
    place.fill((at(head, first) % 256) as u8);
    let end = within(head, first + 2, place.len());
    let start = within(head, first + 1, end);
    from.read_exact(&mut place[start..end])
}
