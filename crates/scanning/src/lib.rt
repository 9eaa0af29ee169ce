// The call that reads a plain PBM, the Netpbm `P1` form, from any bytes, as a mask on a lent place.
#![tactic(auto)]

mod digits;
mod rows;

ghost use Rattle.std.specs.Prelude.{◌≡◌};
ghost use Rattle.scanning.specs.Promises.{ScanPromise};
ghost use Rattle.scanning.specs.Steps.{depth_at, PictureFound};

use header::Head;
pub use page::Refusal;

// The sizes of a plain PBM, one above 2^63 told as 2^63, and where its digits begin, if the text is one.
fn picture_in(text: &[u8]) -> Option<Head>
    ensures { PictureFound text.now result }
{
    let head = header::read_head(text)?;
    if !digits::complete(text, head.next, head.width, head.height) {
        return None;
    }
    Some(head)
}

// The depth of a picture of these sizes, if it has one.
fn depth_of(width: u64, height: u64) -> Option<u32>
    ensures { result ≡ depth_at width height }
{
    for k in 0..8 {
        let side = 1u64 << k;
        if width == side && height == side {
            return Some(k);
        }
    }
    None
}

// Reads a picture: a byte 1 or 0 for each of its cells, in raster order, row 0 the bottom row. The depth of its side, or a refusal.
pub fn read_pbm(text: &[u8], place: &mut [u8]) -> Result<u32, Refusal>
    ensures { ScanPromise text.now place.old result place.new }
{
    let head = picture_in(text).ok_or(Refusal::NotPlain)?;
    let depth = depth_of(head.width, head.height).ok_or(Refusal::Sides)?;
    let side = 1usize << depth;
    if place.len() < side * side {
        return Err(Refusal::Place);
    }
    rows::put_rows(text, head.next, place, side);
    Ok(depth)
}
