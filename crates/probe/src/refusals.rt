// The conditions of the refusal table that each call of this crate tries, in its order.
ghost use Rattle.std.specs.Prelude.{◌≡◌, ◌≤◌, nat_abs};
ghost use Rattle.page.specs.Weight.{weight};
ghost use Rattle.page.specs.Refusals.{outside_side, refusal, to_check, at_point, in_cell};
ghost use Rattle.page.specs.Numbers.{answer, passed};
ghost use Rattle.cells.specs.Sheet.{the_sheet};

use cells::{Cell, Sheet};
use page::Refusal;

// U outside its side of the closed square, and so of V.
fn outside(z: i32, s: u32, k: u32, u: i64) -> bool
    requires { (nat_abs z ≤ 1_048_576) × (s ≤ 10) × (k ≤ 7) }
    ensures { result ≡ outside_side s k z u }
{
    let scale = numbers::power(k + 1);
    let near = numbers::wide(z);
    let low = numbers::product(scale, near);
    if u < low {
        return true;
    }
    let far = numbers::sum(near, numbers::power(s));
    let high = numbers::product(scale, far);
    high < u
}

// The weight, where none of 1 to 4 and 6 holds.
pub fn check_sheet(sheet: Sheet<'_>) -> Result<u64, Refusal>
    ensures { result ≡ answer (refusal (to_check (the_sheet sheet.entry))) (weight (the_sheet sheet.entry)) }
{
    sheet.check_ranges()?;
    let weight = sheet.weight();
    if weight == numbers::CEILING {
        return Err(Refusal::Weight);
    }
    Ok(weight)
}

// The first that holds of those that `check` tries, and then of 8.
pub fn check_point(sheet: Sheet<'_>, u: i64, v: i64) -> Result<(), Refusal>
    ensures { result ≡ passed (refusal (at_point (the_sheet sheet.entry) u v)) }
{
    check_sheet(sheet)?;
    if outside(sheet.x, sheet.s, sheet.k, u) || outside(sheet.y, sheet.s, sheet.k, v) {
        return Err(Refusal::Outside);
    }
    Ok(())
}

// The first of 1 to 6 and 8 that holds.
pub fn check_cell(sheet: Sheet<'_>, mode: u32, cell: Cell) -> Result<(), Refusal>
    ensures { result ≡ passed (refusal (in_cell (the_sheet sheet.entry) mode cell.level cell.column cell.row)) }
{
    sheet.check_mode(mode)?;
    if sheet.k < cell.level {
        return Err(Refusal::Outside);
    }
    let columns = 1u32 << cell.level;
    if columns <= cell.column || columns <= cell.row {
        return Err(Refusal::Outside);
    }
    Ok(())
}
