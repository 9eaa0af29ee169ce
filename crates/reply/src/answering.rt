// What a program tells of a sheet text: at the start of a place that is lent, the text that it makes of the sheet, or the line of a refusal.
ghost use Rattle.std.specs.Prelude.{◌≡◌, ◌≤◌, ℕ, List, length};
ghost use Rattle.page.specs.SheetText.{Outcome, refused, outcome};
ghost use Rattle.page.specs.ListingText.{refused_line};
ghost use Rattle.reply.specs.Promises.{Told};
ghost use Rattle.reply.specs.Steps.{FromText, Tells, TellsRefused};

use reading::{Refused, Sheet};

// What is told of a sheet.
pub trait Telling {
    // Room enough for what is told of any.
    const ROOM: usize;

    ghost ROOM: { ℕ };

    // The text that is told of what a text comes to.
    ghost told: { Outcome → List ℕ };

    // Writes what is told of an accepted sheet: where it ends.
    fn tell(sheet: Sheet, place: &mut [u8]) -> usize
        requires { FromText sheet × (ROOM ≤ length place.old) }
        ensures { Tells told sheet place.old place.new result };

    // Of a refusal its line is told, for which there is room.
    ghost refusals: { (n line field : ℕ) → told (refused n line field) ≡ refused_line n line field };

    ghost roomy: { 41 ≤ ROOM };
}

// Writes the line of a text's refusal: where it ends.
fn refuse(refused: Refused, place: &mut [u8]) -> usize
    requires { 41 ≤ length place.old }
    ensures { TellsRefused refused place.old place.new result }
{
    let number = numbering::number(refused.refusal);
    writing::write_refusal(place, number, refused.line, refused.field)
}

// Reads a sheet text, and tells of it: how long the text is that is written. A place that has not the room is left as it was, and the answer is 0.
pub fn told<T: Telling>(text: &[u8], place: &mut [u8]) -> usize
    ensures { Told T.ROOM (T.told (outcome text.now)) place.old result place.new }
{
    if place.len() < T::ROOM {
        return 0;
    }
    match reading::read(text) {
        Ok(sheet) => T::tell(sheet, place),
        Err(refused) => refuse(refused, place),
    }
}
