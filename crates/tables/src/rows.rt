// The second variable moved: every row by itself.
ghost use Rattle.tables.specs.Moves.{RowMovable, RowMoved, RowsMovable, RowsMoved};

use crate::run::add_run;

// The row c(0), .., c(n) from `first` on becomes that of the sum of c(j) (t + s)^j, by Horner's rule: n passes of c(j) += s c(j+1).
fn move_row(places: &mut [i64], first: usize, n: usize, s: i64)
    requires { RowMovable first n s places.old }
    ensures { RowMoved first n s places.old places.new }
{
    for i in (0..n).rev() {
        add_run(places, first + i, first + i + 1, n - i, s);
    }
}

// The rows of the table of degree d from `start` on.
pub fn move_rows(places: &mut [i64], start: usize, d: usize, s: i64)
    requires { RowsMovable start d s places.old }
    ensures { RowsMoved start d s places.old places.new }
{
    let mut first = start;
    for i in 0..=d {
        move_row(places, first, d - i, s);
        first += d + 1 - i;
    }
}
