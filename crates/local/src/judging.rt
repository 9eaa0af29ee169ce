// The verdict by a range.
ghost use Rattle.std.specs.Prelude.{◌≡◌};
ghost use Rattle.local.specs.Range.{judged_by};

use crate::Range;
use verdicts::Verdict;

// Above, below or open, by the two bounds; it carries them and the bend on.
pub fn judge(range: Range) -> Verdict
    ensures { result ≡ judged_by range }
{
    let lower = range.lower;
    let upper = range.upper;
    let bend = range.bend;
    if 0 < lower {
        Verdict::Above { lower, upper, bend }
    } else if upper < 0 {
        Verdict::Below { lower, upper, bend }
    } else {
        Verdict::Open { lower, upper, bend }
    }
}
