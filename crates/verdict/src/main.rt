// The verdict program: reads a plan text on standard input and writes its verdict text.
#![tactic(auto)]

use std::io;
use std::io::Write;

fn main(rt: HostRuntime) -> io::Result<()> {
    // One byte more than the longest text in the form: a longer text is read as its front is (proofs/Longer of `verify_texts`).
    let mut plan = [0u8; text::PLAN_SIZE + 1];
    let length = bytes_io::read_full(&mut rt.stdin(), &mut plan)?;
    let mut verdict = [0u8; text::VERDICT_SIZE];
    let written = certify_texts::verdict_text(&plan[..length], &mut verdict);
    match written {
        Ok(count) => io::writer(&rt).write_all(&verdict[..count]),
        // never: there is room for every verdict text (proofs/Passing of `certify_texts`)
        Err(_) => Ok(()),
    }
}
