// A byte looked for in a text.
ghost use Rattle.std.specs.Prelude.{◌≡◌, ◌==◌, ◌≤◌, length, position};
ghost use Rattle.lines.specs.Steps.{Finds};

// Where the first such byte stands in what is left of a text, if one does.
fn place(rest: &[u8], byte: u8) -> Option<usize>
    ensures { result ≡ position (λ b. b == byte) rest.now }
{
    rest.iter().position(|&b| b == byte)
}

// Where the first such byte stands, from a place on; the end of the text where there is none.
pub fn find(text: &[u8], from: usize, byte: u8) -> usize
    requires { from ≤ length text.now }
    ensures { Finds byte text.now from result }
{
    match place(&text[from..], byte) {
        Some(n) => from + n,
        None => text.len(),
    }
}
