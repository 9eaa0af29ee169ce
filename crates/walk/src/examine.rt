// Walking a sheet: examining a cell and cutting it call on each other, and the levels left fall. What a cell leaves in the lent place is a raster's or a listing's.
ghost use Rattle.std.specs.Prelude.{◌-◌, ◌^◌, ◌<◌};
ghost use Rattle.walk.specs.Steps.{Carried, EachExamined, Owned, EachCut};

use crate::leaves::Leaves;
use cells::Cell;
use local::Form;
use marks::{Seen, bend_of, colour_of, cut_cell, one_cell};

// A cell above or below is cleared and is not cut. An open cell at level k is coloured; one at a lower level is cut.
// The form is near to the cell's: it is moved by `across` and `along`, each -1, 0 or 1, in the cell's own copy.
#[cycle(cut_examine)]
pub fn examine<L: Leaves>(
    place: &mut L,
    mut form: Form,
    across: i64,
    along: i64,
    k: u32,
    mode: u32,
    cell: Cell,
) -> Seen
    requires { Carried form across along k cell.level cell.column cell.row × L.HasRoom k (4 ^ (k - cell.level)) place.old }
    ensures { EachExamined L.Left form across along k mode cell.level cell.column cell.row place.old place.new result }
{
    let n = form.degree as usize;
    tables::to_part(&mut form.places, n, across, along);
    let verdict = local::judge(local::range_on(&form.places, n, mode));
    let colour = colour_of(verdict);
    if colour == 1 {
        if cell.level < k {
            return cut(place, form, k, mode, cell);
        }
    }
    place.leave(k, cell, colour);
    one_cell(colour, bend_of(verdict))
}

// Four parts, in the order lower left, lower right, upper left, upper right. Each is handed the form of the whole, halved, and its side.
#[cycle(cut_examine)]
fn cut<L: Leaves>(place: &mut L, mut form: Form, k: u32, mode: u32, cell: Cell) -> Seen
    requires { Owned form k cell.level cell.column cell.row × L.HasRoom k (4 ^ (k - cell.level)) place.old × (cell.level < k) }
    ensures { EachCut L.Left form k mode cell.level cell.column cell.row place.old place.new result }
{
    let n = form.degree as usize;
    tables::halve(&mut form.places, n);
    let a = examine(place, form, -1, -1, k, mode, cell.part(0, 0));
    let b = examine(place, form, 1, -1, k, mode, cell.part(1, 0));
    let c = examine(place, form, -1, 1, k, mode, cell.part(0, 1));
    let d = examine(place, form, 1, 1, k, mode, cell.part(1, 1));
    cut_cell(a, b, c, d)
}
