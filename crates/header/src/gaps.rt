// White space and comments: a gap of them, and the white space that opens the digits.
ghost use Rattle.std.specs.Prelude.{◌≡◌, ◌≤◌, length};
ghost use Rattle.pbm.specs.Reading.{ends_comment, is_white};
ghost use Rattle.pbm.specs.Steps.{in_gap, goes_on};
ghost use Rattle.header.specs.Steps.{GapPassed, CommentPassed, Opened};

// What begins a comment.
const HASH: u8 = b'#';

// Whether the byte is LF or CR.
fn ends_comment(byte: u8) -> bool
    ensures { result ≡ ends_comment byte }
{
    matches!(byte, b'\n' | b'\r')
}

// Whether the byte is white space: blank, tab, LF or CR.
pub fn is_white(byte: u8) -> bool
    ensures { result ≡ is_white byte }
{
    matches!(byte, b' ' | b'\t' | b'\n' | b'\r')
}

// Whether the byte belongs to a gap, where `inside` says whether it stands in a comment.
fn in_gap(inside: bool, byte: u8) -> bool
    ensures { result ≡ in_gap inside byte }
{
    inside || is_white(byte) || byte == HASH
}

// Whether the byte after it stands in a comment.
fn goes_on(inside: bool, byte: u8) -> bool
    ensures { result ≡ goes_on inside byte }
{
    if inside {
        !ends_comment(byte)
    } else {
        byte == HASH
    }
}

// Where the gap ends that begins at `at`; `at` itself where there is none, which no Option need say: GapPassed tells the two apart by the place.
pub fn gap_end(text: &[u8], at: usize) -> usize
    requires { at ≤ length text.now }
    ensures { GapPassed text.now at result }
{
    let mut inside = false;
    for i in at..text.len() {
        if !in_gap(inside, text[i]) {
            return i;
        }
        inside = goes_on(inside, text[i]);
    }
    text.len()
}

// The next LF or CR from `at` on.
fn comment_end(text: &[u8], at: usize) -> Option<usize>
    requires { at ≤ length text.now }
    ensures { CommentPassed text.now at result }
{
    let length = text[at..].iter().position(|&byte| ends_comment(byte))?;
    Some(at + length)
}

// Where the digits begin, after one white space and perhaps a comment before it.
pub fn opening_end(text: &[u8], at: usize) -> Option<usize>
    requires { at ≤ length text.now }
    ensures { Opened text.now at result }
{
    match &text[at..] {
        [byte, ..] if is_white(*byte) => Some(at + 1),
        [byte, ..] if *byte == HASH => Some(comment_end(text, at + 1)? + 1),
        _ => None,
    }
}
