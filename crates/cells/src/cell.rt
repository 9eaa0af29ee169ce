// The local form of a cell, worked out from the sheet.
ghost use Rattle.std.specs.Prelude.{◌≡◌, ◌+◌, ◌*◌, ◌-◌, ◌^◌, ◌≤◌, ◌<◌, pos, ◌+ℤ◌, ◌*ℤ◌, nat_abs};
ghost use Rattle.local.specs.Form.{Tabled};
ghost use Rattle.page.specs.Scaled.{IsCell};
ghost use Rattle.page.specs.LocalForm.{G};
ghost use Rattle.page.specs.Weight.{Accepted};
ghost use Rattle.cells.specs.Sheet.{the_sheet};
ghost use Rattle.cells.specs.Cell.{PartOf};

use crate::Sheet;
use local::Form;

// A cell of a sheet, by its level, column and row.
#[derive(Clone, Copy)]
pub struct Cell {
    pub level: u32,
    pub column: u32,
    pub row: u32,
}

impl Cell {
    // One of its four parts: on its left or its right, 0 or 1, and so below or above.
    pub fn part(self, right: u32, above: u32) -> Cell
        requires { (self.level ≤ 7) × (self.column < 128) × (self.row < 128) × (right ≤ 1) × (above ≤ 1) }
        ensures { PartOf self right above result }
    {
        Cell {
            level: self.level + 1,
            column: 2 * self.column + right,
            row: 2 * self.row + above,
        }
    }
}

// 2^(k+1)·X, and so of Y
fn corner(z: i32, k: u32) -> i64
    requires { (nat_abs z ≤ 1_048_576) × (k ≤ 7) }
    ensures { result ≡ pos (2 ^ (k + 1)) *ℤ z }
{
    numbers::product(numbers::power(k + 1), numbers::wide(z))
}

// U0 = 2^(k+1) X + (2p+1) H, and so V0
fn centre(z: i32, k: u32, p: u32, h: i64) -> i64
    requires { (nat_abs z ≤ 1_048_576) × (k ≤ 7) × (p < 128) × (nat_abs h ≤ 2 ^ 17) }
    ensures { result ≡ pos (2 ^ (k + 1)) *ℤ z +ℤ pos (2 * p + 1) *ℤ h }
{
    let odd = numbers::whole(2 * p + 1);
    numbers::sum(corner(z, k), numbers::product(odd, h))
}

impl Sheet<'_> {
    // The local form of a cell: the scaled form moved to the centre, and each place times its power of the half-side.
    pub fn cell_form(self, cell: Cell) -> Form
        requires { Accepted (the_sheet self) × IsCell self.k cell.level cell.column cell.row }
        ensures { Tabled self.entry.d (G (the_sheet self.entry) cell.level cell.column cell.row) result }
    {
        let h = numbers::power(self.s + self.k - cell.level);
        let u = centre(self.x, self.k, cell.column, h);
        let v = centre(self.y, self.k, cell.row, h);
        let mut form = self.scaled_form();
        let n = self.d as usize;
        tables::move_table(&mut form.places, n, u, v);
        tables::scale(&mut form.places, self.d, self.s + self.k - cell.level, 0);
        form
    }
}
