// A sheet, and the conditions that calls try before their own: the rows 1 to 4, the mode, and the weight.
ghost use Rattle.std.specs.Prelude.{◌≡◌, ◌^◌, ◌≤◌, min};
ghost use Rattle.page.specs.Sheet.{InRange};
ghost use Rattle.page.specs.Sheet.{count as counts};
ghost use Rattle.page.specs.Weight.{weight};
ghost use Rattle.page.specs.Refusals.{outside_range};
ghost use Rattle.page.specs.Steps.{range_refusal, mode_refusal};
ghost use Rattle.page.specs.Numbers.{passed};
ghost use Rattle.cells.specs.Sheet.{the_sheet};

use page::Refusal;

// A sheet as a call is given it. Nothing is asked of its numbers: whether they are in their ranges, `check_ranges` finds.
#[derive(Clone, Copy)]
pub struct Sheet<'a> {
    pub d: u32,
    pub coefficients: &'a [i32],
    pub x: i32,
    pub y: i32,
    pub s: u32,
    pub k: u32,
}

// X or Y outside its range.
fn beyond(z: i32) -> bool
    ensures { result ≡ outside_range z }
{
    1_048_576 < z.unsigned_abs()
}

// n = (d+1)(d+2)/2
pub fn count(d: u32) -> usize
    requires { d ≤ 8 }
    ensures { result ≡ counts d }
{
    let n = d as usize;
    (n + 1) * (n + 2) / 2
}

impl Sheet<'_> {
    // The first of the rows 1 to 4 that holds.
    #[tactic(auto, unfolding(page::specs::Steps::range_refusal, page::specs::Refusals::table, page::specs::Refusals::first, page::specs::Numbers::by_number))]
    pub fn check_ranges(self) -> Result<(), Refusal>
        ensures { result ≡ passed (range_refusal (the_sheet self.entry)) }
    {
        if 8 < self.d {
            return Err(Refusal::Degree);
        }
        if self.coefficients.len() != count(self.d) {
            return Err(Refusal::Count);
        }
        if 7 < self.k {
            return Err(Refusal::Depth);
        }
        if beyond(self.x) || beyond(self.y) || 10 < self.s {
            return Err(Refusal::Range);
        }
        Ok(())
    }

    // The first of the rows 1 to 6 that holds.
    pub fn check_mode(self, mode: u32) -> Result<(), Refusal>
        ensures { result ≡ passed (mode_refusal (the_sheet self.entry) mode) }
    {
        self.check_ranges()?;
        if 1 < mode {
            return Err(Refusal::Mode);
        }
        if self.weight() == numbers::CEILING {
            return Err(Refusal::Weight);
        }
        Ok(())
    }

    // The weight, but not above 2^62.
    pub fn weight(self) -> u64
        requires { InRange (the_sheet self) }
        ensures { result ≡ min (weight (the_sheet self.entry)) (2 ^ 62) }
    {
        let rx = weight::axis_limit(self.x, self.s);
        let ry = weight::axis_limit(self.y, self.s);
        weight::capped_weight(self.d, self.coefficients, rx, ry, (self.k + 1) * self.d)
    }
}
