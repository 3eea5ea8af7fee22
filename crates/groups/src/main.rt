// The groups program: reads a plan text on standard input and writes a line for each piece that is kept, piece and group; a refused plan's number
// alone.
#![tactic(auto)]

use std::io;
use std::io::Write;

fn main(rt: HostRuntime) -> io::Result<()> {
    // One byte more than the longest text in the form: a longer text is read as its front is (proofs/Longer of `verify_texts`).
    let mut plan = [0u8; text::PLAN_SIZE + 1];
    let length = bytes_io::read_full(&mut rt.stdin(), &mut plan)?;
    let mut groups = [0u8; text::GROUPS_SIZE];
    let written = components_texts::groups_text(&plan[..length], &mut groups);
    match written {
        Ok(count) => io::writer(&rt).write_all(&groups[..count]),
        // never: there is room for every text (proofs/Enough of `components_texts`)
        Err(_) => Ok(()),
    }
}
