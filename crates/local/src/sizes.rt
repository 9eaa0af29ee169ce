// Sums over the places of a form: of all sizes, and of what the even rule spares.
ghost use Rattle.std.specs.Prelude.{◌≡◌, ◌^◌, ◌<◌, nat_abs};
ghost use Rattle.local.specs.Range.{above_zero, below_zero, Sizable, sizes_of, RowSparable, row_spare_of, Light, spare_of};

use crate::Spare;

// The sizes of the places from 1 up to `count`, together.
pub fn sizes(places: &[i64; 45], count: usize) -> u64
    requires { Sizable places.now count }
    ensures { result ≡ sizes_of places.now count }
{
    let mut sum = 0;
    for at in 1..count {
        sum += numbers::size(places[at]);
    }
    sum
}

// How far g is above 0, and how far below: 0 where it is not. The larger and the smaller of two is what tells them apart, and neither is a number.
fn above(g: i64) -> u64
    ensures { result ≡ above_zero g }
{
    g.max(0).unsigned_abs()
}

fn below(g: i64) -> u64
    requires { nat_abs g < 2 ^ 63 }
    ensures { result ≡ below_zero g }
{
    g.min(0).unsigned_abs()
}

// The places b = from, from + 2, .. of a row of n + 1 places, where the exponents before are even: of the fall what is above 0, of the rise what is below.
fn spared_row(places: &[i64; 45], first: usize, from: usize, n: usize) -> Spare
    requires { RowSparable places.now first from n }
    ensures { result ≡ row_spare_of places.now first from n }
{
    let mut fall = 0;
    let mut rise = 0;
    for b in (from..=n).step_by(2) {
        let g = places[first + b];
        fall += above(g);
        rise += below(g);
    }
    Spare { fall, rise }
}

// The rows 0, 2, .. of a table of degree d; of the row 0 not the place 0.
// A loop on `a`: the walk of a sheet of degree 6 takes 2.1 per cent more instructions with `for a in (2..=d).step_by(2)`.
pub fn spared(places: &[i64; 45], d: usize) -> Spare
    requires { Light d places.now }
    ensures { result ≡ spare_of places.now d }
{
    let top = spared_row(places, 0, 2, d);
    let mut fall = top.fall;
    let mut rise = top.rise;
    let mut first = 2 * d + 1;
    let mut a = 2;
    while a <= d {
        let row = spared_row(places, first, 0, d - a);
        fall += row.fall;
        rise += row.rise;
        first += 2 * (d - a) + 1;
        a += 2;
    }
    Spare { fall, rise }
}
