// Whole numbers on the machine: sums of two products, sizes, and arithmetic with a ceiling. Each is the operator or the method of the library, with a
// contract in exact integers, by which a proof above is done with bits.
// An inner crate: what its functions require, every caller proves.
#![tactic(auto)]

ghost use Rattle.std.specs.Prelude.{◌≡◌, ◌+◌, ◌*◌, ◌^◌, ◌≤◌, ◌<◌, min, pos, ◌+ℤ◌, ◌*ℤ◌, nat_abs};
ghost use Rattle.numbers.specs.Room.{Room};

// x u + y h
pub fn combine(x: i64, u: i64, y: i64, h: i64) -> i64
    requires { Room x u y h }
    ensures { result ≡ x *ℤ u +ℤ y *ℤ h }
{
    x * u + y * h
}

// a + b
pub fn sum(a: i64, b: i64) -> i64
    requires { nat_abs a + nat_abs b < 2 ^ 63 }
    ensures { result ≡ a +ℤ b }
{
    a + b
}

// a b
pub fn product(a: i64, b: i64) -> i64
    requires { nat_abs a * nat_abs b < 2 ^ 63 }
    ensures { result ≡ a *ℤ b }
{
    a * b
}

// |z|
pub fn size(z: i64) -> u64
    requires { nat_abs z < 2 ^ 63 }
    ensures { result ≡ nat_abs z }
{
    z.unsigned_abs()
}

// The ceiling 2^62.
pub const CEILING: u64 = 4611686018427387904;

// a + b, but not above the ceiling
pub fn capped_sum(a: u64, b: u64) -> u64
    requires { (a ≤ 2 ^ 62) × (b ≤ 2 ^ 62) }
    ensures { result ≡ min (a + b) (2 ^ 62) }
{
    (a + b).min(CEILING)
}

// a b, but not above the ceiling
pub fn capped_product(a: u64, b: u64) -> u64
    requires { (a ≤ 2 ^ 62) × (b ≤ 2 ^ 62) }
    ensures { result ≡ min (a * b) (2 ^ 62) }
{
    a.saturating_mul(b).min(CEILING)
}

// 2^n, but not above the ceiling
pub fn capped_power(n: u32) -> u64
    ensures { result ≡ min (2 ^ n) (2 ^ 62) }
{
    1u64 << n.min(62)
}

// 2^n
pub fn power(n: u32) -> i64
    requires { n ≤ 62 }
    ensures { result ≡ pos (2 ^ n) }
{
    1i64 << n
}

// z in 64 bits, where its size fits too: that of -2^31 does not fit 32.
pub fn wide(z: i32) -> i64
    ensures { (result ≡ z) × (nat_abs z ≤ 2 ^ 31) }
{
    i64::from(z)
}

// n as a signed number
pub fn whole(n: u32) -> i64
    ensures { result ≡ pos n }
{
    i64::from(n)
}
