// Takes tabs away from the plans of a table, and prints what documents 01 and 02 call the outcome, with every piece that falls.
//
// The table is the standard input, a line for each case:
//     name; pieces; ends of the tabs; tabs that are lost; slugs;
// A digit stands for itself, a letter for a larger number (`worth`). A letter in place of the ends stands for a rule that gives them (`Rule`).
#![tactic(auto)]

use graph::Answer;
use removal::Fallen;
use rule::Rule;
use std::alloc::{AllocError, Global};
use std::io;
use std::io::{Read, Write};

mod rule; // rule.rt: the tabs of large plans

// How much of the input is read.
const MOST: u64 = 4096;

// How many numbers a line has at most; further ones are left out.
const LONGEST: usize = 32;

fn main(rt: HostRuntime) -> io::Result<()> {
    let mut text = Vec::new(rt.alloc());
    rt.stdin().take(MOST).read_to_end(&mut text)?;
    for line in text.split_inclusive(|byte| *byte == b'\n') {
        run(&rt, line)?;
    }
    Ok(())
}

// Shows the name of a case, and what is lost. A line that is cut off where the input ends has only a name.
fn run(rt: &(impl Print + AllocGlobal), line: &[u8]) -> io::Result<()> {
    let whole = line.strip_suffix(b"\n");
    let mut parts = whole.unwrap_or(line).splitn(2, |byte| *byte == b';');
    io::writer(rt).write_all(parts.next().unwrap_or(&[]))?;
    if whole.is_none() {
        return Ok(());
    }
    let case = Case::read(rt.alloc(), parts.next().unwrap_or(&[]))?;
    tell(rt, case.lose())
}

// A plan, and the tabs that are lost.
#[derive(Drop)]
struct Case {
    pieces: u16,
    ends: Vec<u16>,
    lost: Vec<u16>,
    slugs: Vec<u16>,
}

impl Case {
    // The case of a line behind its name. Of the fields that a semicolon ends the last three are the ends, the lost tabs and the slugs.
    fn read(alloc: Global, line: &[u8]) -> Result<Case, AllocError> {
        let mut room = LONGEST;
        let mut fields = Vec::new(alloc);
        for field in line.split(|byte| *byte == b';') {
            let numbers = numbers(alloc, field, room)?;
            room = room.saturating_sub(numbers.len());
            fields.push(numbers)?;
        }
        let pieces = fields.iter().flatten().copied().next().unwrap_or(0);
        fields.pop();
        let slugs = fields.pop().unwrap_or(Vec::new(alloc));
        let lost = fields.pop().unwrap_or(Vec::new(alloc));
        let listed = fields.pop().unwrap_or(Vec::new(alloc));
        Ok(Case {
            pieces,
            ends: ends(alloc, pieces, listed)?,
            lost,
            slugs,
        })
    }

    fn lose(&self) -> Result<Fallen, Answer> {
        removal::remove(self.pieces, &self.ends, &self.slugs, &self.lost)
    }
}

// The numbers of a field, at most so many. A blank stands for nothing.
fn numbers(alloc: Global, field: &[u8], most: usize) -> Result<Vec<u16>, AllocError> {
    field
        .iter()
        .copied()
        .filter(|byte| *byte != b' ')
        .map(worth)
        .take(most)
        .collect(alloc)
}

// The ends that are listed, or those of a plan whose rule stands there.
fn ends(alloc: Global, pieces: u16, listed: Vec<u16>) -> Result<Vec<u16>, AllocError> {
    if let [number] = listed.as_slice() {
        return Rule::from(*number).ends(alloc, pieces);
    }
    Ok(listed)
}

// The number that a byte stands for.
fn worth(byte: u8) -> u16 {
    match byte {
        b'a' => 62,
        b'b' => 63,
        b'c' => 64,
        b'd' => 65,
        b'e' => 126,
        b'f' => 127,
        b'g' => 128,
        b'h' => 129,
        b'i' => 998,
        b'j' => 70,
        b'k' => rule::KNOT,
        b'l' => 999,
        b'm' => 1000,
        b'n' => 1001,
        b'p' => rule::PATH,
        b'r' => rule::ROW,
        b's' => rule::STAR,
        b't' => rule::SHIFTED,
        _ => u16::from(byte % 48),
    }
}

// The outcome, and the pieces that are marked, whatever was counted.
fn tell(rt: &impl Print, lost: Result<Fallen, Answer>) -> io::Result<()> {
    let fallen = match lost {
        Ok(fallen) => fallen,
        Err(answer) => return println!(rt; ": refused {} {}", answer.number, answer.place),
    };
    if fallen.count == 0 {
        print!(rt; ": one body")?;
    } else {
        print!(rt; ": parted, fall {}:", fallen.count)?;
    }
    let words = fallen.words;
    for v in 0..64 * Fallen::WORDS {
        if words[v / 64] >> (v % 64) & 1 == 1 {
            print!(rt; " {v}")?;
        }
    }
    println!(rt)
}
