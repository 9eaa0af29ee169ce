// The rows, the top row first: digits, and an LF after every 70 of a row and at its end.
ghost use Rattle.std.specs.Prelude.{◌≡◌, ◌+◌, ◌*◌, ◌≤◌, ◌<◌, length};
ghost use Rattle.pbm.specs.Writing.{bit, ends_line, row_text, rows_text};
ghost use Rattle.writing.specs.Steps.{Put};
ghost use Rattle.printing.specs.Steps.{digit_bytes};

use writing::put_byte;

const LF: u8 = b'\n';

// `1` for a coloured byte, `0` for any other.
fn digit(byte: u8) -> u8
    ensures { result ≡ 48 + bit byte }
{
    if byte == 1 { b'1' } else { b'0' }
}

// Whether an LF follows column p of a row with so many columns: at most 128, so that only one line can be full.
fn ends_line(p: usize, side: usize) -> bool
    requires { (p < side) × (side ≤ 128) }
    ensures { result ≡ ends_line side p }
{
    let count = p + 1;
    count == 70 || count == side
}

// The digit of column p, and the LF where one follows.
fn put_digit(place: &mut [u8], at: usize, byte: u8, p: usize, side: usize) -> usize
    requires { (p < side) × (side ≤ 128) × (at + length (digit_bytes side byte p) ≤ length place.old) }
    ensures { Put at (digit_bytes side byte p) place.old place.new result }
{
    let end = put_byte(place, at, digit(byte));
    if ends_line(p, side) {
        return put_byte(place, end, LF);
    }
    end
}

// Row q of the raster.
fn put_row(place: &mut [u8], at: usize, raster: &[u8], q: usize, side: usize) -> usize
    requires { (side ≤ 128) × (q * side + side ≤ length raster.now) × (at + length (row_text side raster.now q) ≤ length place.old) }
    ensures { Put at (row_text side raster.now q) place.old place.new result }
{
    let from = q * side;
    let mut end = at;
    for p in 0..side {
        end = put_digit(place, end, raster[from + p], p, side);
    }
    end
}

// All rows: the n-th from above is row side - 1 - n of the raster.
pub fn put_rows(place: &mut [u8], at: usize, raster: &[u8], side: usize) -> usize
    requires { (side ≤ 128) × (side * side ≤ length raster.now) × (at + length (rows_text side raster.now) ≤ length place.old) }
    ensures { Put at (rows_text side raster.now) place.old place.new result }
{
    let mut end = at;
    for n in 0..side {
        end = put_row(place, end, raster, side - 1 - n, side);
    }
    end
}
