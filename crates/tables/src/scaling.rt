// Every place times its own power of two, and halved as many times as its exponents say.
ghost use Rattle.std.specs.Prelude.{◌≡◌, ℕ, ◌+◌, ◌*◌, ◌^◌, ◌<◌, ◌≤◌, pos, ◌*ℤ◌, nat_abs, length};
ghost use Rattle.tables.specs.Table.{row_of, held};
ghost use Rattle.tables.specs.Scaling.{RowMapped, Mapped, Scalable, Scaled, Halvable, Halved};

// z times 2^n. Beside a zero the power need not fit.
fn times_power(z: i64, n: u32) -> i64
    requires { nat_abs z * 2 ^ n < 2 ^ 62 }
    ensures { result ≡ z *ℤ pos (2 ^ n) }
{
    if z == 0 {
        return 0;
    }
    numbers::product(z, numbers::power(n))
}

// The row of n + 1 places from `first` on, of which the first is the place (a, 0): each becomes what the rule makes of it and of its exponents.
fn map_row<F: Fn(i64, usize, usize) -> i64>(
    places: &mut [i64],
    first: usize,
    a: usize,
    n: usize,
    rule: &F,
)
    requires inside { first + n < length places.old }
    requires ready { (b : ℕ) → b ≤ n → F.pre rule.now (row_of places.old first b) a b }
    ensures { RowMapped first n (λ b x y. F.post rule.now x a b y) places.old places.new }
{
    for b in 0..=n {
        places[first + b] = rule(places[first + b], a, b);
    }
}

// Each place (a, b) of a table of degree d becomes what the rule makes of it, of a and of b.
fn map_places<F: Fn(i64, usize, usize) -> i64>(places: &mut [i64; 45], d: usize, rule: &F)
    requires small { (length places.old ≡ 45) × (d ≤ 8) }
    requires ready { (a b : ℕ) → a + b ≤ d → F.pre rule.now (held places.old d a b) a b }
    ensures { Mapped d (λ a b x y. F.post rule.now x a b y) places.old places.new }
{
    let mut first = 0;
    for a in 0..=d {
        map_row(places, first, a, d - a, rule);
        first += d + 1 - a;
    }
}

// The place (a, b) of a table of degree d times 2^(e (a + b) + f (d - a - b)).
pub fn scale(places: &mut [i64; 45], d: u32, e: u32, f: u32)
    requires { Scalable d e f places.old }
    ensures { Scaled d e f places.old places.new }
{
    map_places(
        places,
        d as usize,
        &|g, a, b| {
            let t = (a + b) as u32;
            times_power(g, e * t + f * (d - t))
        },
    );
}

// The place (a, b) of a table of degree d halved a + b times.
pub fn halve(places: &mut [i64; 45], d: usize)
    requires { Halvable d places.old }
    ensures { Halved d places.old places.new }
{
    map_places(places, d, &|g, a, b| g >> (a + b));
}
