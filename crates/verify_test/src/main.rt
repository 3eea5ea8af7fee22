// Runs the check on a table of verdicts, and prints each case with its answer: a number and a place.
//
// The table is the standard input, a line for each case:
//     name; vertices; ends of the edges; kind; list of the verdict; excluded vertices (02: slugs), if there are any
// A record is written as its rows: step, edge, vertex. A digit stands for itself, and another byte for a larger number (`worth`).
// The cases:
//     1 to 13     document 01's example, and P1 to P10 with their verdicts
//     14 to 22    the plan's own refusals, each before 9
//     23 to 26    the limit of the tabs; all ends are 0
//     27 to 37    9: kinds, a record cut short and one too long, a weak list too long
//     38 to 43    10: a step that is neither the last one nor one more
//     44 to 48    11 in a record: a tab that is none, or used before
//     49 to 53    12: not an end of the tab, or not where the walk has come to
//     54 to 65    two faults in one row or in one step: the first in order is told
//     66 to 74    13, and three paths that pass
//     75 to 82    13: inner pieces of the three paths
//     83 to 91    14, and closed walks that pass
//     92 to 102   15, and ears between different links that pass
//     103, 104    15 in a link that is a part of a step, with branches at both ends
//     105 to 110  16: fewer than three steps, a piece that is not built or has two tabs
//     111 to 116  11 in a weak list: equal, descending and unknown tabs
//     117 to 124  17, and weak lists that pass without being the lowest
//     125 to 136  18 and 19: after 4 and 5, also those of a slug's tab, and before 9
//     137 to 140  9: three numbers for each kept tab
//     141 to 145  11 in a record: a slug's tab
//     146 to 151  records over the kept pieces, under their drawn numbers, and 16
//     152 to 163  weak lists: 11 for a slug's tab whatever the other parts, 17, and what the loss of a slug parts
#![tactic(auto)]

use graph::Answer;
use std::alloc::{AllocError, Global};
use std::io;
use std::io::{Read, Write};

// How much of the input is read.
const MOST: u64 = 65536;

// How many numbers a list of a case takes: ends or numbers of the verdict, and excluded vertices. Further ones are left out.
const LONGEST: usize = 36;

const MOST_EXCLUDED: usize = 8;

// What is given to the check.
#[derive(Drop)]
struct Case {
    vertices: u16,
    ends: Vec<u16>,
    kind: u16,
    list: Vec<u16>,
    excluded: Vec<u16>,
}

impl Case {
    fn check(&self) -> Answer {
        verify::check(
            self.vertices,
            &self.ends,
            &self.excluded,
            self.kind,
            &self.list,
        )
    }
}

// The number that a byte stands for.
fn worth(byte: u8) -> u16 {
    match byte {
        b'0'..=b'9' => u16::from(byte - b'0'),
        b'a' => 10,
        b'b' => 11,
        b'm' => 1000,
        b'n' => 1001,
        b'w' => 8000,
        b'x' => 8001,
        b'y' => 8002,
        _ => 65535,
    }
}

// The numbers of a field, at most so many. What parts the fields, and a blank, stands for nothing.
fn numbers(alloc: Global, field: &[u8], most: usize) -> Result<Vec<u16>, AllocError> {
    let digits = field.iter().filter(|byte| !matches!(**byte, b' ' | b';'));
    digits.map(|byte| worth(*byte)).take(most).collect(alloc)
}

// The number of a field: the last one in it.
fn number(field: &[u8]) -> u16 {
    let digit = field.iter().rev().find(|byte| **byte != b' ');
    digit.map_or(0, |byte| worth(*byte))
}

// The ends of a case, which may be many and all 0.
fn ends(alloc: Global, field: &[u8]) -> Result<Vec<u16>, AllocError> {
    let many = field
        .iter()
        .rev()
        .map(|byte| worth(*byte))
        .find(|x| *x / 8000 == 1);
    match many {
        Some(count) => vec![in alloc; 0; usize::from(count)],
        None => numbers(alloc, field, LONGEST),
    }
}

// A field of a line: the name, the vertices, the ends, the kind, the list of the verdict, the excluded vertices. Nothing where the line has fewer.
fn field(line: &[u8], i: usize) -> &[u8] {
    line.splitn(6, |byte| *byte == b';').nth(i).unwrap_or(&[])
}

// Shows the name of a case, and how it is answered. A line that is cut off where the input ends has only a name.
fn run(rt: &(impl Print + AllocGlobal), line: &[u8]) -> io::Result<()> {
    let Some(whole) = line.strip_suffix(b"\n") else {
        return io::writer(rt).write_all(field(line, 0));
    };
    io::writer(rt).write_all(field(whole, 0))?;
    let case = Case {
        vertices: number(field(whole, 1)),
        ends: ends(rt.alloc(), field(whole, 2))?,
        kind: number(field(whole, 3)),
        list: numbers(rt.alloc(), field(whole, 4), LONGEST)?,
        excluded: numbers(rt.alloc(), field(whole, 5), MOST_EXCLUDED)?,
    };
    let answer = case.check();
    println!(rt; ": {} {}", answer.number, answer.place)
}

fn main(rt: HostRuntime) -> io::Result<()> {
    let mut text = Vec::new(rt.alloc());
    rt.stdin().take(MOST).read_to_end(&mut text)?;
    for line in text.split_inclusive(|byte| *byte == b'\n') {
        run(&rt, line)?;
    }
    Ok(())
}
