// What writing is refused for: a depth above 7, a raster or a place that is too short.
ghost use Rattle.std.specs.Prelude.{◌≡◌, ◌^◌, ◌≤◌, length};
ghost use Rattle.page.specs.ListingText.{decimal};
ghost use Rattle.pbm.specs.Writing.{text_length};
ghost use Rattle.pbm.specs.Refusals.{write_refusal};
ghost use Rattle.page.specs.Numbers.{passed};

use page::Refusal;

// 2^k, as in `marks` in another type
pub fn side(k: u32) -> u32
    requires { k ≤ 7 }
    ensures { (result ≡ 2 ^ k) × (result ≤ 128) }
{
    1u32 << k
}

// How many digits a size has.
fn digits(side: usize) -> usize
    requires { side ≤ 999 }
    ensures { (result ≡ length (decimal side)) × (result ≤ 3) }
{
    if side < 10 {
        return 1;
    }
    if side < 100 { 2 } else { 3 }
}

// How long the text is: each size, with 5 bytes about the two; for each row its digits, and an LF for each of its lines.
fn text_length(k: u32) -> usize
    requires { k ≤ 7 }
    ensures { result ≡ text_length k }
{
    let side = side(k) as usize;
    5 + 2 * digits(side) + side * (side + (side + 69) / 70)
}

// The first condition that holds refuses.
pub fn print_refusal(k: u32, bytes: usize, entries: usize) -> Result<(), Refusal>
    ensures { result ≡ passed (write_refusal k bytes entries) }
{
    if 7 < k {
        return Err(Refusal::Depth);
    }
    let side = side(k) as usize;
    if bytes < side * side {
        return Err(Refusal::Place);
    }
    if entries < text_length(k) {
        return Err(Refusal::Place);
    }
    Ok(())
}
