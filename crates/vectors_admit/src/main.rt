// Answers the separate tool's inputs of `admit`: document 01, "Examples from the recorder". The first word
// is the number of cases; each case is a word with its length in bytes and then its bytes. What `admit`
// would print for each is written, one after another.
#![tactic(auto)]

use std::io::Read;

fn answer(input: &mut impl Read, out: &impl Print) {
    let mut room = [0u8; 70000];
    let case = vectors_input::next_bytes(input, &mut room);
    let mut text = [0u8; 1024];
    let reported = report::report(case, &mut text);
    let _ = out.write_all(&text[..reported.length as usize]);
}

fn main(rt: HostRuntime) {
    let mut input = rt.stdin();
    for _ in 0..vectors_input::next_word(&mut input) {
        answer(&mut input, &rt);
    }
}
