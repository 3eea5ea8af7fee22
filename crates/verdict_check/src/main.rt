// The check program: opens plan.txt and verdict.txt and prints number and place in two columns on one line; 0 and 0 means passed.
#![tactic(auto)]

ghost use Rattle.std.specs.Io.{ReadsAtMost};

use std::io::Write;
use std::rt::Files;
use std::{fs, io};

fn main(rt: HostRuntime) -> io::Result<()> {
    // One byte more than the longest text in the form: a longer text is answered as its front is (proofs/Longer of `verify_texts`).
    let mut plan = [0u8; text::PLAN_SIZE + 1];
    let mut verdict = [0u8; text::VERDICT_SIZE + 1];
    let plan_length = read_file(&rt, "plan.txt", &mut plan)?;
    let verdict_length = read_file(&rt, "verdict.txt", &mut verdict)?;
    let answer = verify_texts::check_texts(&plan[..plan_length], &verdict[..verdict_length]);
    io::writer(&rt).write_all(&text_write::answer_line(answer))
}

// Reads the file until `bytes` is full and answers how many there were. A file that can't be opened counts as an empty text.
fn read_file(rt: &impl Files, path: &str, bytes: &mut [u8]) -> io::Result<usize>
    ensures { ReadsAtMost result bytes.new }
{
    match fs::open(rt, path) {
        Ok(mut file) => bytes_io::read_full(&mut file, bytes),
        Err(_) => Ok(0),
    }
}
