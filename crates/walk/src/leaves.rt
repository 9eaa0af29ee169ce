// What a walk leaves of a cell that is not cut, in the place that was lent: its block of bytes in a raster, its record in a listing.
ghost use Rattle.std.specs.Prelude.{◌≡◌, [], ◌∷◌, ℕ, ◌+◌, ◌-◌, ◌*◌, ◌^◌, ◌≤◌, ◌<◌, length};
ghost use Rattle.std.proofs.Common.{◌∙◌, rules};
ghost use Rattle.algebra.specs.Written.{Written};
ghost use Rattle.verdicts.specs.Walking.{Verdicts, colour_of};
ghost use Rattle.verdicts.specs.Operational.{records_from};
ghost use Rattle.page.specs.Scaled.{IsCell};
ghost use Rattle.marks.proofs.Leaving.{painted_room, painted_cut, written_room, written_cut};
ghost use Rattle.walk.specs.Steps.{Settled, Finest};

use cells::Cell;
use marks::{cell_record, paint_block};

// A lent place, as far as a walk has come.
pub trait Leaves {
    // It has room for what is left of so many finest cells of a sheet of that depth.
    ghost HasRoom: { ℕ → ℕ → Self → Type 0 };

    // It is the same place, and by these verdicts what is left of the cell at a level, column and row stands in it besides.
    ghost Left: { Verdicts → ℕ → ℕ → ℕ → ℕ → Self → Self → Type 0 };

    // Leaves a cell of this colour that is not cut.
    fn leave(&mut self, k: u32, cell: Cell, colour: u8)
        requires { (k ≤ 7) × IsCell k cell.level cell.column cell.row × HasRoom k (4 ^ (k - cell.level)) self.old }
        ensures { (v : Verdicts) → Settled v cell.level (k - cell.level) cell.column cell.row colour → Left v k cell.level cell.column cell.row self.old self.new };

    // Where there is room for many cells, there is for fewer.
    ghost fewer: { (k m n : ℕ) (a : Self) → m ≤ n → HasRoom k n a → HasRoom k m a };

    // What is left of a cell leaves the rest of the room.
    ghost rest: { (v : Verdicts) (k level p q m : ℕ) (a b : Self) → Left v k level p q a b → HasRoom k (4 ^ (k - level) + m) a → HasRoom k m b };

    // What is left of the four parts, one after the other, is what is left of the whole.
    ghost parts: { (v : Verdicts) (k level p q : ℕ) (a b c d e : Self) → level < k → colour_of (v level p q ∷ []) ≡ 1
        → Left v k (level + 1) (2 * p) (2 * q) a b → Left v k (level + 1) (2 * p + 1) (2 * q) b c
        → Left v k (level + 1) (2 * p) (2 * q + 1) c d → Left v k (level + 1) (2 * p + 1) (2 * q + 1) d e
        → Left v k level p q a e };
}

// The bytes of a raster.
#[derive(Drop)]
pub struct Bytes<'a> {
    pub place: &'a mut [u8],
}

impl Leaves for Bytes<'_> {
    ghost HasRoom = { λ k n s. 4 ^ k ≤ length s.place.now };

    ghost Left = { λ v k level p q old new. (new.place.ghost_name ≡ old.place.ghost_name) × Finest v k level p q old.place.now new.place.now };

    fn leave(&mut self, k: u32, cell: Cell, colour: u8) {
        paint_block(self.place, k, cell.level, cell.column, cell.row, colour);
    }

    ghost fewer = { λ k m n a l h. h };

    ghost rest = { λ v k level p q m a b l h. painted_room l.1 h };

    ghost parts = { λ v k level p q a b c d e l o w x y z. (z.0 ∙ y.0 ∙ x.0 ∙ w.0, painted_cut v k level p q l o w.1 x.1 y.1 z.1) };
}

// The records of a listing, and how many there are.
#[derive(Drop)]
pub struct Entries<'a> {
    pub place: &'a mut [u32],
    pub length: usize,
}

impl Leaves for Entries<'_> {
    ghost HasRoom = { λ k n s. s.length + n ≤ length s.place.now };

    ghost Left = { λ v k level p q old new. (new.place.ghost_name ≡ old.place.ghost_name) × Written (records_from v level (k - level) p q) old.length old.place.now new.place.now new.length };

    fn leave(&mut self, k: u32, cell: Cell, colour: u8) {
        self.place[self.length] = cell_record(colour, cell.level, cell.column, cell.row);
        self.length += 1;
    }

    ghost fewer = { λ k m n a l h. Prim.search rules };

    ghost rest = { λ v k level p q m a b l h. written_room v k level p q m l.1 h };

    ghost parts = { λ v k level p q a b c d e l o w x y z. (z.0 ∙ y.0 ∙ x.0 ∙ w.0, written_cut v k level p q l o w.1 x.1 y.1 z.1) };
}
