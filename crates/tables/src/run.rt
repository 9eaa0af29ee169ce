// What every move is made of: a run of places added to another one.
ghost use Rattle.tables.specs.Moves.{Addable, Added};

// To each of `count` places from `to` on, s times the one that stands as far from `from` on: where s is a literal, 1 or -1, a sum or a difference.
// The runs may overlap: `from` is above `to`.
pub fn add_run(places: &mut [i64], to: usize, from: usize, count: usize, s: i64)
    requires { Addable to from count s places.old }
    ensures { Added to from count s places.old places.new }
{
    for c in 0..count {
        places[to + c] += s * places[from + c];
    }
}
