// The program `picture`: reads a sheet text from standard input and writes its picture, a plain PBM, or the line of a refusal, to standard output.
// `listing` is like it, and says why they are two.
#![tactic(auto)]

// Writes the picture of a text, or the line of its refusal.
fn respond(rt: &(impl Print + Eprint), input: &[u8]) {
    let mut place = reply::picture_place();
    let n = reply::depict(input, &mut place);
    if rt.write_all(&place[..n]).is_err() {
        let _ = rt.eprintln("picture: standard output cannot be written");
    }
}

fn main(rt: HostRuntime) {
    let mut space = intake::text_space();
    let input = intake::read_all(&mut rt.stdin(), &mut space);
    match input {
        Ok(n) => respond(&rt, &space[..n]),
        Err(_) => {
            let _ = rt.eprintln("picture: standard input cannot be read");
        }
    }
}
