// The weight of a sheet on the machine, with a ceiling.
// An inner crate: what its functions require, every caller proves.
#![tactic(auto)]

ghost use Rattle.std.specs.Prelude.{◌≡◌, ◌+◌, ◌*◌, ◌-◌, ◌/◌, ◌^◌, ◌≤◌, ◌<◌, min, max, pos, ◌+ℤ◌, nat_abs, length, get_or};
ghost use Rattle.algebra.specs.Triangle.{triangle, place};
ghost use Rattle.algebra.specs.Digits.{digits};
ghost use Rattle.weight.specs.Series.{series, sizes};

// how far the square goes along an axis: the larger of |z| and |z + 2^s|
pub fn axis_limit(z: i32, s: u32) -> u64
    requires { s ≤ 10 }
    ensures { result ≡ max (nat_abs z) (nat_abs (z +ℤ pos (2 ^ s))) }
{
    let corner = numbers::wide(z);
    let other = numbers::sum(corner, numbers::power(s));
    let near = numbers::size(corner);
    let far = numbers::size(other);
    near.max(far)
}

// one row: the sum of |A| r^j over the n + 1 coefficients from `first` on
fn row_weight(coefficients: &[i32], first: usize, n: usize, r: u64) -> u64
    requires { (first + n < length coefficients.now) × (r ≤ 2 ^ 62) }
    ensures { result ≡ min (series (sizes coefficients.now first) r n) (2 ^ 62) }
{
    let mut sum = 0;
    let mut power = 1;
    for &a in &coefficients[first..first + n + 1] {
        let term = numbers::capped_product(u64::from(a.unsigned_abs()), power);
        sum = numbers::capped_sum(sum, term);
        power = numbers::capped_product(power, r);
    }
    sum
}

// all rows: the sum of |A(i,j)| rx^i ry^j
fn sum_weight(d: usize, coefficients: &[i32], rx: u64, ry: u64) -> u64
    requires { (d ≤ 8) × (length coefficients.now ≡ (d + 1) * (d + 2) / 2) × (rx ≤ 2 ^ 62) × (ry ≤ 2 ^ 62) }
    ensures { result ≡ min (triangle d (λ i j. nat_abs (get_or coefficients.now (place d i j) (pos 0)) * rx ^ i * ry ^ j)) (2 ^ 62) }
{
    let mut sum = 0;
    let mut scale = 1;
    let mut first = 0;
    for i in 0..=d {
        let row = numbers::capped_product(row_weight(coefficients, first, d - i, ry), scale);
        sum = numbers::capped_sum(sum, row);
        scale = numbers::capped_product(scale, rx);
        first += d + 1 - i;
    }
    sum
}

// 2^n times the sum of |A(i,j)| rx^i ry^j, but not above 2^62
pub fn capped_weight(d: u32, coefficients: &[i32], rx: u64, ry: u64, n: u32) -> u64
    requires { (d ≤ 8) × (length coefficients.now ≡ (d + 1) * (d + 2) / 2) × (rx ≤ 2 ^ 62) × (ry ≤ 2 ^ 62) }
    ensures { result ≡ min (2 ^ n * triangle d (λ i j. nat_abs (get_or coefficients.now (place d i j) (pos 0)) * rx ^ i * ry ^ j)) (2 ^ 62) }
{
    numbers::capped_product(
        numbers::capped_power(n),
        sum_weight(d as usize, coefficients, rx, ry),
    )
}

// 62 minus the count of binary digits, which is 64 less the machine's own count of leading zeros
pub fn spare_places(weight: u64) -> u32
    requires { weight < 2 ^ 62 }
    ensures { result ≡ 62 - digits weight }
{
    let digits = 64 - weight.leading_zeros();
    62 - digits
}
