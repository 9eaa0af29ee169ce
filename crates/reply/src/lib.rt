// The listing of a sheet text, as text, and its picture: what the listing program and the program `picture` write for what they read.
#![tactic(auto)]

mod answering;
mod picture;

ghost use Rattle.std.specs.Prelude.{◌≡◌, refl, length};
ghost use Rattle.std.proofs.Common.{rules};
ghost use Rattle.page.specs.ListingText.{text_after};
ghost use Rattle.reply.specs.Answers.{room};
ghost use Rattle.reply.specs.Promises.{PlacePromise, AnswerPromise};
ghost use Rattle.reply.specs.Steps.{FromText, ListsRecords};

use answering::{Telling, told};
pub use picture::{PICTURE_ROOM, depict, picture_place};
use reading::Sheet;
use walk::{Records, Refusal};

// Room enough for the listing of any sheet: 16 bytes for each of 16,384 records, and 28 for the total.
pub const ROOM: usize = 262_172;

// A place that has it.
pub fn place() -> [u8; ROOM]
    ensures { PlacePromise result }
{
    [0; ROOM]
}

// Room for the records of any sheet.
fn record_space() -> [u32; 16384]
    ensures { 16384 ≡ length result }
{
    [0; 16384]
}

// The records of an accepted sheet.
fn list_records(sheet: Sheet, records: &mut [u32]) -> Result<Records, Refusal>
    requires { FromText sheet }
    ensures { ListsRecords sheet records.old result records.new }
{
    let d = sheet.d;
    let count = cells::count(d);
    let coefficients = sheet.coefficients;
    walk::listing(
        d,
        &coefficients[..count],
        sheet.x,
        sheet.y,
        sheet.s,
        sheet.k,
        sheet.mode,
        records,
    )
}

// What the listing program tells of a sheet. A sheet that is accepted is refused by no number.
struct Listing;

impl Telling for Listing {
    const ROOM: usize = ROOM;

    ghost ROOM = { room };

    ghost told = { text_after };

    fn tell(sheet: Sheet, place: &mut [u8]) -> usize {
        let mut records = record_space();
        match list_records(sheet, &mut records) {
            Ok(Records { length, seen }) => {
                writing::write_listing(place, &records[..length], seen.visited, seen.coloured)
            }
            Err(refusal) => writing::write_refusal(place, numbering::number(refusal), 0, 0),
        }
    }

    ghost refusals = { λ n line field. refl };

    ghost roomy = { Prim.search rules };
}

// Reads a sheet text, lists its sheet, and writes the listing's text or the line of a refusal at the start of the place: how long it is. A
// place that has not the room is left as it was, and the answer is 0.
pub fn answer(text: &[u8], place: &mut [u8]) -> usize
    ensures { AnswerPromise text.now place.old result place.new }
{
    told::<Listing>(text, place)
}
