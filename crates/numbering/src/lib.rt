// The call that says a refusal's number in the table.
#![tactic(auto)]

ghost use Rattle.numbering.specs.Promises.{NumberPromise};

pub use page::Refusal;

// The number of a refusal.
pub fn number(refusal: Refusal) -> u32
    ensures { NumberPromise refusal result }
{
    refusal as u32
}
