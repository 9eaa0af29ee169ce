// The conditions of the refusal table that a walk tries, in its order.
ghost use Rattle.std.specs.Prelude.{◌≡◌};
ghost use Rattle.page.specs.Refusals.{refusal, to_walk};
ghost use Rattle.page.specs.Numbers.{passed};
ghost use Rattle.cells.specs.Sheet.{the_sheet};

use cells::Sheet;
use page::Refusal;

// The first of 1 to 7 that holds. Where these do not hold 9 does not either, which is proved, so nothing is counted for it.
pub fn check_walk(sheet: Sheet<'_>, mode: u32, entries: usize) -> Result<(), Refusal>
    ensures { result ≡ passed (refusal (to_walk (the_sheet sheet.entry) mode entries)) }
{
    sheet.check_mode(mode)?;
    if entries < 1usize << (2 * sheet.k) {
        return Err(Refusal::Place);
    }
    Ok(())
}
