// The listing program: reads a sheet text from standard input and writes its listing, or the line of a refusal, to standard output.
// `picture` is like it: one function for both would take the call, the place and the name, and be as long as what is spared.
#![tactic(auto)]

// Writes the listing of a text, or the line of its refusal.
fn respond(rt: &(impl Print + Eprint), input: &[u8]) {
    let mut place = reply::place();
    let n = reply::answer(input, &mut place);
    if rt.write_all(&place[..n]).is_err() {
        let _ = rt.eprintln("listing: standard output cannot be written");
    }
}

fn main(rt: HostRuntime) {
    let mut space = intake::text_space();
    let input = intake::read_all(&mut rt.stdin(), &mut space);
    match input {
        Ok(n) => respond(&rt, &space[..n]),
        Err(_) => {
            let _ = rt.eprintln("listing: standard input cannot be read");
        }
    }
}
