// The range of a form's values. With S the sizes of all places but G(0,0) together, the form falls by S less what the even rule spares, and rises so;
// the bend is S less the sizes of the two linear places.
ghost use Rattle.std.specs.Prelude.{◌≡◌, ◌≤◌};
ghost use Rattle.forms.specs.Bounds.{mode_of};
ghost use Rattle.tables.specs.Table.{held};
ghost use Rattle.local.specs.Range.{Light, range_of, spare_in};

use crate::sizes::{sizes, spared};
use crate::{Range, Spare};

// What the even rule spares in this mode, a number of document 01 that every call takes.
fn spared_in(places: &[i64; 45], d: usize, mode: u32) -> Spare
    requires { Light d places.now }
    ensures { result ≡ spare_in mode places.now d }
{
    if mode == 0 {
        return spared(places, d);
    }
    Spare { fall: 0, rise: 0 }
}

// The two bounds and the bend of a form of degree d, 1 or more.
fn range_by(places: &[i64; 45], d: usize, mode: u32) -> Range
    requires { (1 ≤ d) × Light d places.now }
    ensures { result ≡ range_of d (mode_of mode) (held places.now d) }
{
    let total = sizes(places, (d + 1) * (d + 2) / 2);
    let bend = total - numbers::size(places[1]) - numbers::size(places[d + 1]);
    let spare = spared_in(places, d, mode);
    let centre = places[0];
    let lower = centre - (total - spare.fall) as i64;
    let upper = centre + (total - spare.rise) as i64;
    Range { lower, upper, bend }
}

// Of a form of degree 0: its one place.
fn flat_range(places: &[i64; 45], mode: u32) -> Range
    ensures { result ≡ range_of 0 (mode_of mode) (held places.now 0) }
{
    let centre = places[0];
    Range {
        lower: centre,
        upper: centre,
        bend: 0,
    }
}

// The same by the degree: each arm hands on a literal, and the compiler makes code of its own for each degree, with no loop left.
// Not by a const parameter: with `range_by::<4>` the walk of a sheet of degree 4 takes 4.8 per cent more instructions, with 6 5.1.
pub fn range_on(places: &[i64; 45], d: usize, mode: u32) -> Range
    requires { Light d places.now }
    ensures { result ≡ range_of d (mode_of mode) (held places.now d) }
{
    match d {
        0 => flat_range(places, mode),
        1 => range_by(places, 1, mode),
        2 => range_by(places, 2, mode),
        3 => range_by(places, 3, mode),
        4 => range_by(places, 4, mode),
        5 => range_by(places, 5, mode),
        6 => range_by(places, 6, mode),
        7 => range_by(places, 7, mode),
        _ => range_by(places, 8, mode),
    }
}
