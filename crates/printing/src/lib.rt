// The call that writes a raster as a plain PBM, the Netpbm `P1` form, on a lent place.
#![tactic(auto)]

mod refusals;
mod rows;

ghost use Rattle.std.specs.Prelude.{◌≤◌, length};
ghost use Rattle.pbm.specs.Writing.{head_text};
ghost use Rattle.writing.specs.Steps.{Put};
ghost use Rattle.printing.specs.Promises.{PrintPromise};

pub use page::Refusal;

const SPACE: u8 = b' ';

const LF: u8 = b'\n';

// `P1`, and the two sizes.
fn put_head(place: &mut [u8], side: u32) -> usize
    requires { length (head_text side) ≤ length place.old }
    ensures { Put 0 (head_text side) place.old place.new result }
{
    let first = writing::put_word(place, 0, b"P1\n");
    let second = writing::put_field(place, first, side, SPACE);
    writing::put_field(place, second, side, LF)
}

// Writes the raster of depth k: the byte at q·2^k + p is that of column p, row q, and row 0 is the bottom row. The number of bytes written, or a refusal.
pub fn write_pbm(k: u32, raster: &[u8], place: &mut [u8]) -> Result<usize, Refusal>
    ensures { PrintPromise k raster.now place.old result place.new }
{
    refusals::print_refusal(k, raster.len(), place.len())?;
    let side = refusals::side(k);
    let at = put_head(place, side);
    let end = rows::put_rows(place, at, raster, side as usize);
    Ok(end)
}
