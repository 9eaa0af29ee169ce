// The first variable moved: the same, with a row in place of a number.
ghost use Rattle.tables.specs.Moves.{RowsAddable, RowsAdded, ColumnsMovable, ColumnsMoved};

use crate::run::add_run;

// To each row of the table of degree n from `first` on, s times the next row.
fn add_rows(places: &mut [i64], first: usize, n: usize, s: i64)
    requires { RowsAddable first n s places.old }
    ensures { RowsAdded first n s places.old places.new }
{
    let mut at = first;
    for m in (1..=n).rev() {
        add_run(places, at, at + m + 1, m, s);
        at += m + 1;
    }
}

// The columns of the table of degree d from `start` on, by Horner's rule: the last n + 1 rows are a table of degree n.
pub fn move_columns(places: &mut [i64], start: usize, d: usize, s: i64)
    requires { ColumnsMovable start d s places.old }
    ensures { ColumnsMoved start d s places.old places.new }
{
    let mut first = start + (d + 1) * (d + 2) / 2 - 1;
    for n in 1..=d {
        first -= n + 1;
        add_rows(places, first, n, s);
    }
}
