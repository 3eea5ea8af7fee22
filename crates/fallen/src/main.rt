// The program of the pieces that would fall: reads a plan text on standard input and writes how many they are, then a line for each; a refused
// plan's number alone.
#![tactic(auto)]

use std::io;
use std::io::Write;

fn main(rt: HostRuntime) -> io::Result<()> {
    // One byte more than the longest text in the form: a longer text is read as its front is (proofs/Longer of `verify_texts`).
    let mut plan = [0u8; text::PLAN_SIZE + 1];
    let length = bytes_io::read_full(&mut rt.stdin(), &mut plan)?;
    let mut fallen = [0u8; fallen_texts::FALLEN_SIZE];
    let written = fallen_texts::fallen_text(&plan[..length], &mut fallen);
    match written {
        Ok(count) => io::writer(&rt).write_all(&fallen[..count]),
        // never: there is room for every text (proofs/Enough of `fallen_texts`)
        Err(_) => Ok(()),
    }
}
