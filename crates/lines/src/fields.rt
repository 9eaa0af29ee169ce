// The fields of a line: parted by one tab.
ghost use Rattle.std.specs.Prelude.{◌≡◌};
ghost use Rattle.page.specs.SheetLine.{is_letter};
ghost use Rattle.lines.specs.Steps.{Parts};

use crate::Parted;
use crate::finding::find;

const TAB: u8 = b'\t';

// How many fields there are, 5 where there are more than four, and where the first four end.
pub fn part(line: &[u8]) -> Parted
    ensures { Parts line.now result }
{
    let n = line.len();
    let mut ends = [0usize; 4];
    let mut at = find(line, 0, TAB);
    ends[0] = at;
    let mut count = 1;
    // a while: it goes by where a field ends, and may stop with the line before four have
    while at < n {
        if count == 4 {
            return Parted { count: 5, ends };
        }
        at = find(line, at + 1, TAB);
        ends[count] = at;
        count += 1;
    }
    Parted { count, ends }
}

// Whether a field is the letter alone.
pub fn letter_alone(field: &[u8], letter: u8) -> bool
    ensures { result ≡ is_letter letter field.now }
{
    matches!(field, [byte] if *byte == letter)
}
