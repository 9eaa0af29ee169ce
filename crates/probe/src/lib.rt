// The calls that walk nothing: check a sheet, value F at a point, bounds and bend of a cell.
#![tactic(auto)]

pub use page::Refusal;
pub use verdicts::Verdict;

mod refusals;

ghost use Rattle.page.specs.Sheet.{sheet_of};
ghost use Rattle.probe.specs.Promises.{CheckPromise, ValuePromise, BoundsPromise};

use cells::{Cell, Sheet};

// Weight and spare places of a sheet.
#[derive(Clone, Copy)]
pub struct Checked {
    pub weight: u64,
    pub spare: u32,
}

// Check a sheet.
pub fn check(
    d: u32,
    coefficients: &[i32],
    x: i32,
    y: i32,
    s: u32,
    k: u32,
) -> Result<Checked, Refusal>
    ensures { CheckPromise (sheet_of d coefficients.now x y s k) result }
{
    let sheet = Sheet {
        d,
        coefficients,
        x,
        y,
        s,
        k,
    };
    let weight = refusals::check_sheet(sheet)?;
    let spare = weight::spare_places(weight);
    Ok(Checked { weight, spare })
}

// Value F at a whole-number point (u, v) of the closed square.
pub fn value(
    d: u32,
    coefficients: &[i32],
    x: i32,
    y: i32,
    s: u32,
    k: u32,
    u: i64,
    v: i64,
) -> Result<i64, Refusal>
    ensures { ValuePromise (sheet_of d coefficients.now x y s k) u v result }
{
    let sheet = Sheet {
        d,
        coefficients,
        x,
        y,
        s,
        k,
    };
    refusals::check_point(sheet, u, v)?;
    let form = sheet.scaled_form();
    let n = d as usize;
    let z = tables::value_at(&form.places, n, u, v);
    Ok(z)
}

// Bounds and bend of the cell at level j, column p, row q: both stand in the verdict on it.
pub fn bounds(
    d: u32,
    coefficients: &[i32],
    x: i32,
    y: i32,
    s: u32,
    k: u32,
    mode: u32,
    j: u32,
    p: u32,
    q: u32,
) -> Result<Verdict, Refusal>
    ensures { BoundsPromise (sheet_of d coefficients.now x y s k) mode j p q result }
{
    let sheet = Sheet {
        d,
        coefficients,
        x,
        y,
        s,
        k,
    };
    let cell = Cell {
        level: j,
        column: p,
        row: q,
    };
    refusals::check_cell(sheet, mode, cell)?;
    let form = sheet.cell_form(cell);
    let n = d as usize;
    let verdict = local::judge(local::range_on(&form.places, n, mode));
    Ok(verdict)
}
