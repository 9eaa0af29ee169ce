// The value of a table at a point, by Horner's rule.
ghost use Rattle.std.specs.Prelude.{◌≡◌};
ghost use Rattle.tables.specs.Value.{RowValuable, row_value, Valuable, table_value};

// The sum of c(j) v^j over the n + 1 places from `first` on.
fn row_value(places: &[i64; 45], first: usize, n: usize, v: i64) -> i64
    requires { RowValuable first n v places.now }
    ensures { result ≡ row_value places.now first n v }
{
    let mut z = 0;
    for j in (0..=n).rev() {
        z = numbers::combine(z, v, places[first + j], 1);
    }
    z
}

// The sum of f(i,j) u^i v^j over the table.
pub fn value_at(places: &[i64; 45], d: usize, u: i64, v: i64) -> i64
    requires { Valuable d u v places.now }
    ensures { result ≡ table_value places.now d u v }
{
    let mut z = 0;
    let mut first = (d + 1) * (d + 2) / 2;
    for n in 0..=d {
        first -= n + 1;
        z = numbers::combine(z, u, row_value(places, first, n, v), 1);
    }
    z
}
