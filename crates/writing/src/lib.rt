// The text of a listing, or of a refusal, written on a place that is lent.
// The place and where to go on stand beside each other: a cursor would hold both, and its contracts say no more plainly what is written, and what stays.
// An inner crate: what its functions require, every caller proves.
#![tactic(auto)]

mod lines;
mod number;

ghost use Rattle.std.specs.Prelude.{◌++◌, ◌+◌, ◌*◌, ◌≤◌, length};
ghost use Rattle.page.specs.ListingText.{total_line, refused_line};
ghost use Rattle.writing.specs.Steps.{records_text, Put};

pub use lines::put_word;
pub use number::{put_byte, put_field};

// A line for each record, and the total.
pub fn write_listing(place: &mut [u8], records: &[u32], visited: u32, coloured: u32) -> usize
    requires { 16 * length records.now + 28 ≤ length place.old }
    ensures { Put 0 (records_text records.now ++ total_line visited coloured) place.old place.new result }
{
    let end = lines::put_records(place, records);
    lines::put_line(place, end, b"total", &[visited, coloured])
}

// The single line of a refusal.
pub fn write_refusal(place: &mut [u8], number: u32, line: u32, field: u32) -> usize
    requires { 41 ≤ length place.old }
    ensures { Put 0 (refused_line number line field) place.old place.new result }
{
    lines::put_line(place, 0, b"refused", &[number, line, field])
}
