// A table moved: by any numbers, and, fast, to a part of its cell.
ghost use Rattle.std.specs.Prelude.{◌≡◌, refl, ◌≤◌, List, ℕ, ℤ, pos, nat_abs, length};
ghost use Rattle.std.proofs.Common.{sym};
ghost use Rattle.forms.proofs.Moves.{along_still, across_still};
ghost use Rattle.tables.specs.Table.{held_from};
ghost use Rattle.tables.specs.Moves.{RowsMovable, RowsMoved, ColumnsMovable, ColumnsMoved, Movable, Moved};

use crate::columns::move_columns;
use crate::rows::move_rows;

// One of the two variables, by which a table is moved.
trait Variable {
    ghost IsMovable: { ℕ → ℕ → ℤ → List ℤ → Type 0 };

    ghost IsMoved: { ℕ → ℕ → ℤ → List ℤ → List ℤ → Type 0 };

    fn shift(places: &mut [i64], start: usize, d: usize, s: i64)
        requires { IsMovable start d s places.old }
        ensures { IsMoved start d s places.old places.new };

    // What is moved by 0 stays.
    ghost still: { (d : ℕ) (places : List ℤ) → IsMoved 0 d (pos 0) places places };
}

// The second variable: every row is moved by itself.
struct Along;

impl Variable for Along {
    ghost IsMovable = { RowsMovable };

    ghost IsMoved = { RowsMoved };

    fn shift(places: &mut [i64], start: usize, d: usize, s: i64) {
        move_rows(places, start, d, s);
    }

    ghost still = { λ d p. record {
      long = refl;
      each = λ a b l. sym (along_still d (held_from p 0 d) a b l);
      before = λ m l. refl;
      after = λ m l. refl;
    } };
}

// The first variable: every column is.
struct Across;

impl Variable for Across {
    ghost IsMovable = { ColumnsMovable };

    ghost IsMoved = { ColumnsMoved };

    fn shift(places: &mut [i64], start: usize, d: usize, s: i64) {
        move_columns(places, start, d, s);
    }

    ghost still = { λ d p. record {
      long = refl;
      each = λ a b l. sym (across_still d (held_from p 0 d) a b l);
      before = λ m l. refl;
      after = λ m l. refl;
    } };
}

// The first variable moved by u and the second by v.
pub fn move_table(places: &mut [i64; 45], d: usize, u: i64, v: i64)
    requires { (length places.old ≡ 45) × Movable d u v places.old }
    ensures { Moved d u v places.old places.new }
{
    move_rows(places, 0, d, v);
    move_columns(places, 0, d, u);
}

// A variable moved by -1, 0 or 1: a literal at each call, which makes of a product a sum or a difference.
fn move_by<V: Variable>(places: &mut [i64; 45], d: usize, s: i64)
    requires { (length places.old ≡ 45) × (nat_abs s ≤ 1) × V.IsMovable 0 d s places.old }
    ensures { V.IsMoved 0 d s places.old places.new }
{
    if s < 0 {
        V::shift(places, 0, d, -1);
    } else if 0 < s {
        V::shift(places, 0, d, 1);
    }
}

// The same by the degree: each arm hands on a literal, and the compiler makes code of its own for each degree, with no loop left.
fn move_to<V: Variable>(places: &mut [i64; 45], d: usize, s: i64)
    requires { (length places.old ≡ 45) × (d ≤ 8) × (nat_abs s ≤ 1) × V.IsMovable 0 d s places.old }
    ensures { V.IsMoved 0 d s places.old places.new }
{
    match d {
        0 => move_by::<V>(places, 0, s),
        1 => move_by::<V>(places, 1, s),
        2 => move_by::<V>(places, 2, s),
        3 => move_by::<V>(places, 3, s),
        4 => move_by::<V>(places, 4, s),
        5 => move_by::<V>(places, 5, s),
        6 => move_by::<V>(places, 6, s),
        7 => move_by::<V>(places, 7, s),
        _ => move_by::<V>(places, 8, s),
    }
}

// The table moved to a part: by -1, 0 or 1 in each variable.
pub fn to_part(places: &mut [i64; 45], d: usize, across: i64, along: i64)
    requires { (length places.old ≡ 45) × (d ≤ 8) × (nat_abs across ≤ 1) × (nat_abs along ≤ 1) × Movable d across along places.old }
    ensures { Moved d across along places.old places.new }
{
    move_to::<Along>(places, d, along);
    move_to::<Across>(places, d, across);
}
