// Reading a sheet text: the whole sheet by value, or a refusal.
#![tactic(auto)]

mod opening;
mod ranges;
mod terms;

ghost use Rattle.reading.specs.Promises.{ReadPromise};

pub use page::Refusal;

// A sheet as a text gives it, its unused coefficients zero.
#[derive(Clone, Copy)]
pub struct Sheet {
    pub d: u32,
    pub x: i32,
    pub y: i32,
    pub s: u32,
    pub k: u32,
    pub mode: u32,
    pub coefficients: [i32; 45],
}

// What a text is refused by, and the line and the field where they are meant; zeros where they are not.
#[derive(Clone, Copy, Debug, PartialEq, Eq)]
pub struct Refused {
    pub refusal: Refusal,
    pub line: u32,
    pub field: u32,
}

// What the first four lines say, and where the fifth begins.
#[derive(Clone, Copy)]
struct Head {
    pub next: usize,
    pub d: u32,
    pub x: i32,
    pub y: i32,
    pub s: u32,
    pub k: u32,
    pub mode: u32,
}

// Reads a text of any bytes and any length.
pub fn read(text: &[u8]) -> Result<Sheet, Refused>
    ensures { ReadPromise text.now result }
{
    if 8_192 < text.len() {
        return Err(ranges::refused(Refusal::Text));
    }
    let head = opening::read_head(text)?;
    let mut values = [0i32; 81];
    let mut named = [0u8; 81];
    terms::read_terms(text, head.next, head.d, &mut values, &mut named)?;
    ranges::judged(head, &values)
}
