// The picture of a sheet text: its raster as a plain PBM, or the line of a refusal.
ghost use Rattle.std.specs.Prelude.{◌≡◌, refl, ◌^◌, ◌≤◌, length};
ghost use Rattle.std.proofs.Common.{rules};
ghost use Rattle.pbm.specs.PictureText.{picture_after};
ghost use Rattle.reply.specs.Answers.{picture_room};
ghost use Rattle.reply.specs.Promises.{PicturePlacePromise, DepictPromise};
ghost use Rattle.reply.specs.Steps.{FromText, PaintsRaster};

use crate::answering::{Telling, told};
use reading::Sheet;
use walk::{Refusal, Seen};

// Room enough for the picture of any sheet: the longest is one of depth 7.
pub const PICTURE_ROOM: usize = 16_651;

// A place that has it.
pub fn picture_place() -> [u8; PICTURE_ROOM]
    ensures { PicturePlacePromise result }
{
    [0; PICTURE_ROOM]
}

// Room for the raster of any sheet.
fn raster_space() -> [u8; 16384]
    ensures { 16384 ≡ length result }
{
    [0; 16384]
}

// How many finest cells there are: 4^k.
fn finest(k: u32) -> usize
    requires { k ≤ 7 }
    ensures { result ≡ 4 ^ k }
{
    1usize << (2 * k)
}

// The raster of an accepted sheet.
fn paint(sheet: Sheet, raster: &mut [u8]) -> Result<Seen, Refusal>
    requires { FromText sheet }
    ensures { PaintsRaster sheet raster.old result raster.new }
{
    let d = sheet.d;
    let count = cells::count(d);
    let coefficients = sheet.coefficients;
    walk::raster(
        d,
        &coefficients[..count],
        sheet.x,
        sheet.y,
        sheet.s,
        sheet.k,
        sheet.mode,
        raster,
    )
}

// What the program `picture` tells of a sheet. A sheet that is accepted is refused by no number.
struct Picture;

impl Telling for Picture {
    const ROOM: usize = PICTURE_ROOM;

    ghost ROOM = { picture_room };

    ghost told = { picture_after };

    fn tell(sheet: Sheet, place: &mut [u8]) -> usize {
        let mut raster = raster_space();
        let _ = paint(sheet, &mut raster);
        let count = finest(sheet.k);
        match printing::write_pbm(sheet.k, &raster[..count], place) {
            Ok(n) => n,
            Err(refusal) => writing::write_refusal(place, numbering::number(refusal), 0, 0),
        }
    }

    ghost refusals = { λ n line field. refl };

    ghost roomy = { Prim.search rules };
}

// Reads a sheet text, paints its raster, and writes the picture or the line of a refusal at the start of the place: how long it is. A place that has
// not the room is left as it was, and the answer is 0.
pub fn depict(text: &[u8], place: &mut [u8]) -> usize
    ensures { DepictPromise text.now place.old result place.new }
{
    told::<Picture>(text, place)
}
