// Lines: those of the records, and a word with numbers.
ghost use Rattle.std.specs.Prelude.{◌≡◌, ◌∷◌, map, ◌+◌, ◌*◌, ◌≤◌, length};
ghost use Rattle.page.specs.ListingText.{mark, line_text, decimal};
ghost use Rattle.writing.specs.Steps.{record_text, records_text, tabbed, Put};

use crate::number::{put_byte, put_field, put_number};

// A tab between fields, LF after the last.
const TAB: u8 = b'\t';

const LF: u8 = b'\n';

// `+` above, `-` below, `0` coloured.
fn mark_of(colour: u32) -> u8
    ensures { result ≡ mark colour }
{
    match colour {
        2 => b'+',
        3 => b'-',
        _ => b'0',
    }
}

// The line of a record: level, p, q, and the mark.
fn put_record(place: &mut [u8], at: usize, item: u32) -> usize
    requires { at + 16 ≤ length place.old }
    ensures { Put at (record_text item) place.old place.new result }
{
    let a = put_field(place, at, item / 65_536, TAB);
    let b = put_field(place, a, item / 4 % 128, TAB);
    let c = put_field(place, b, item / 512 % 128, TAB);
    let d = put_byte(place, c, mark_of(item % 4));
    put_byte(place, d, LF)
}

// The lines of all records.
pub fn put_records(place: &mut [u8], records: &[u32]) -> usize
    requires { 16 * length records.now ≤ length place.old }
    ensures { Put 0 (records_text records.now) place.old place.new result × (result ≤ 16 * length records.now) }
{
    let mut end = 0;
    for &item in records {
        end = put_record(place, end, item);
    }
    end
}

// A word.
pub fn put_word(place: &mut [u8], at: usize, word: &[u8]) -> usize
    requires { at + length word.now ≤ length place.old }
    ensures { Put at word.now place.old place.new result }
{
    let end = at + word.len();
    place[at..end].copy_from_slice(word);
    end
}

// Numbers, each after a tab.
fn put_numbers(place: &mut [u8], at: usize, numbers: &[u32]) -> usize
    requires { at + 11 * length numbers.now ≤ length place.old }
    ensures { Put at (tabbed numbers.now) place.old place.new result × (result ≤ at + 11 * length numbers.now) }
{
    let mut end = at;
    for &n in numbers {
        end = put_byte(place, end, TAB);
        end = put_number(place, end, n);
    }
    end
}

// The line of a word and numbers.
pub fn put_line(place: &mut [u8], at: usize, word: &[u8], numbers: &[u32]) -> usize
    requires { at + length word.now + 11 * length numbers.now + 1 ≤ length place.old }
    ensures { Put at (line_text (word.now ∷ map decimal numbers.now)) place.old place.new result }
{
    let next = put_word(place, at, word);
    let end = put_numbers(place, next, numbers);
    put_byte(place, end, LF)
}
