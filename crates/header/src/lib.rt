// What stands before the digits of a plain PBM: `P1`, the width, the height, and the white space that opens the digits.
// An inner crate: what its functions require, every caller proves.
#![tactic(auto)]

mod gaps;
mod sizes;

ghost use Rattle.std.specs.Prelude.{◌≡◌};
ghost use Rattle.pbm.specs.Steps.{is_magic};
ghost use Rattle.header.specs.Steps.{HeadTaken};

pub use gaps::is_white;
pub use sizes::MOST;

// The two sizes, one above 2^63 told as 2^63, and where the digits begin.
#[derive(Clone, Copy)]
pub struct Head {
    pub width: u64,
    pub height: u64,
    pub next: usize,
}

// A size, one above 2^63 told as 2^63, and where it ends.
#[derive(Clone, Copy)]
struct Size {
    pub value: u64,
    pub next: usize,
}

// Whether the text begins with `P1`.
fn magic(text: &[u8]) -> bool
    ensures { result ≡ is_magic text.now }
{
    matches!(text, [b'P', b'1', ..])
}

// What stands before the digits, if the text is of the form that was looked for.
pub fn read_head(text: &[u8]) -> Option<Head>
    ensures { HeadTaken text.now result }
{
    if !magic(text) {
        return None;
    }
    let wide = sizes::size_after(text, 2)?;
    let high = sizes::size_after(text, wide.next)?;
    let next = gaps::opening_end(text, high.next)?;
    Some(Head {
        width: wide.value,
        height: high.value,
        next,
    })
}
