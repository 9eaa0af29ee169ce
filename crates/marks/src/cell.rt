// One cell of a walk: its colour, its bend, what is seen of it, and its record.
ghost use Rattle.std.specs.Prelude.{◌≡◌, [], ◌∷◌, ◌≤◌, ◌<◌};
ghost use Rattle.verdicts.specs.Judging.{carried_bend};
ghost use Rattle.verdicts.specs.Walking.{colour_of, record_of};
ghost use Rattle.marks.specs.Steps.{one_seen, cut_seen, Few};

use crate::Seen;
use verdicts::Verdict;

// 2 for a cell above, 3 for one below, 1 for an open one: a colour is a number, since document 01 has it in bytes and records.
pub fn colour_of(verdict: Verdict) -> u8
    ensures { result ≡ colour_of (verdict ∷ []) }
{
    match verdict {
        Verdict::Above { .. } => 2,
        Verdict::Below { .. } => 3,
        Verdict::Open { .. } => 1,
    }
}

// The bend that a verdict carries.
pub fn bend_of(verdict: Verdict) -> u64
    ensures { result ≡ carried_bend verdict }
{
    match verdict {
        Verdict::Above { bend, .. } | Verdict::Below { bend, .. } | Verdict::Open { bend, .. } => {
            bend
        }
    }
}

// A cell of this colour and bend that is not cut: visited, and coloured or not.
pub fn one_cell(colour: u8, bend: u64) -> Seen
    ensures { result ≡ one_seen colour bend }
{
    if colour == 1 {
        Seen {
            visited: 1,
            coloured: 1,
            bend,
        }
    } else {
        Seen {
            visited: 1,
            coloured: 0,
            bend: 0,
        }
    }
}

// A cell that is cut: itself, and what is seen of its four parts.
pub fn cut_cell(a: Seen, b: Seen, c: Seen, d: Seen) -> Seen
    requires { Few a × Few b × Few c × Few d }
    ensures { result ≡ cut_seen a b c d }
{
    let low = a.bend.max(b.bend);
    let high = c.bend.max(d.bend);
    let bend = low.max(high);
    Seen {
        visited: 1 + a.visited + b.visited + c.visited + d.visited,
        coloured: a.coloured + b.coloured + c.coloured + d.coloured,
        bend,
    }
}

// colour + 4·p + 512·q + 65,536·level
pub fn cell_record(colour: u8, level: u32, p: u32, q: u32) -> u32
    requires { (level ≤ 7) × (p < 128) × (q < 128) }
    ensures { result ≡ record_of colour level p q }
{
    u32::from(colour) + 4 * p + 512 * q + 65_536 * level
}
