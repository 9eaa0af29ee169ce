// The calls that walk a sheet: its raster and its listing, each with the tally.
#![tactic(auto)]

mod examine;
mod leaves;
mod refusals;

ghost use Rattle.page.specs.Sheet.{sheet_of};
ghost use Rattle.walk.specs.Promises.{RasterPromise, ListingPromise};

use cells::{Cell, Sheet};
use leaves::{Bytes, Entries};
pub use marks::Seen;
pub use page::Refusal;

// The whole sheet is the cell at level 0.
const WHOLE: Cell = Cell {
    level: 0,
    column: 0,
    row: 0,
};

// A listing: how many records stand in the place, and what the walk has seen.
#[derive(Clone, Copy)]
pub struct Records {
    pub length: usize,
    pub seen: Seen,
}

// The raster of a sheet: the byte at q·2^k + p for the finest cell at column p, row q. What the walk has seen is the tally.
pub fn raster(
    d: u32,
    coefficients: &[i32],
    x: i32,
    y: i32,
    s: u32,
    k: u32,
    mode: u32,
    place: &mut [u8],
) -> Result<Seen, Refusal>
    ensures { RasterPromise (sheet_of d coefficients.now x y s k) mode place.old result place.new }
{
    let sheet = Sheet {
        d,
        coefficients,
        x,
        y,
        s,
        k,
    };
    let bytes = place.len();
    refusals::check_walk(sheet, mode, bytes)?;
    let form = sheet.cell_form(WHOLE);
    let mut bytes = Bytes { place };
    let seen = examine::examine(&mut bytes, form, 0, 0, k, mode, WHOLE);
    Ok(seen)
}

// The listing of a sheet: one record per cleared or coloured cell in walking order.
pub fn listing(
    d: u32,
    coefficients: &[i32],
    x: i32,
    y: i32,
    s: u32,
    k: u32,
    mode: u32,
    place: &mut [u32],
) -> Result<Records, Refusal>
    ensures { ListingPromise (sheet_of d coefficients.now x y s k) mode place.old result place.new }
{
    let sheet = Sheet {
        d,
        coefficients,
        x,
        y,
        s,
        k,
    };
    let entries = place.len();
    refusals::check_walk(sheet, mode, entries)?;
    let form = sheet.cell_form(WHOLE);
    let mut entries = Entries { place, length: 0 };
    let seen = examine::examine(&mut entries, form, 0, 0, k, mode, WHOLE);
    let length = entries.length;
    Ok(Records { length, seen })
}
