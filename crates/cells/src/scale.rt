// The scaled coefficients of a sheet, as a form.
ghost use Rattle.std.specs.Prelude.{◌≤◌, length};
ghost use Rattle.local.specs.Form.{Tabled};
ghost use Rattle.cells.specs.Steps.{scaled_by, Scalable, Widened};

use crate::Sheet;
use local::Form;

// The coefficients in 64 bits, from the first place on.
fn wide_places(coefficients: &[i32]) -> [i64; 45]
    requires { length coefficients.now ≤ 45 }
    ensures { Widened coefficients.now result }
{
    let mut places = [0i64; 45];
    for (at, &a) in coefficients.iter().enumerate() {
        places[at] = i64::from(a);
    }
    places
}

impl Sheet<'_> {
    // A(i,j) · 2^((k+1)(d-i-j)) at every place of a form.
    pub fn scaled_form(self) -> Form
        requires { Scalable self.d self.coefficients.now self.k }
        ensures { Tabled self.entry.d (scaled_by self.entry.d self.entry.coefficients.now self.entry.k) result }
    {
        let mut places = wide_places(self.coefficients);
        tables::scale(&mut places, self.d, 0, self.k + 1);
        Form {
            degree: self.d,
            places,
        }
    }
}
