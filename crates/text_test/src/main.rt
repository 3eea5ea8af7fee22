// Runs the four entries on texts in the form and on damaged ones, and prints each answer and what the lent memory holds then.
//
// The cases are the standard input. Each begins with a line of eight bytes: a letter, how much memory is lent, and how long the text
// below is. The text itself follows byte for byte, and a line feed that is no part of it. The letters:
//     t  a title, which is printed
//     p  a plan text that is read, into so many of eight numbers
//     v  a verdict text that is read, into so many of eight numbers
//     P  the pieces of a plan, how many ends it has, its ends and its slugs, in five columns each, that are written into so many of 56 bytes
//     V  the kind of a verdict and its list, likewise
#![tactic(auto)]

ghost use Rattle.std.specs.Prelude.{◌<◌, length};
ghost use Rattle.std.specs.Iterator.{at_most};

use graph::{Answer, Graph};
use std::io;
use std::io::{Read, Write};
use text_read::VerdictRead;

// How much of the input is read.
const MOST: u64 = 65536;

fn main(rt: HostRuntime) -> io::Result<()> {
    let mut text = Vec::new(rt.alloc());
    rt.stdin().take(MOST).read_to_end(&mut text)?;
    for case in Cases(&text) {
        case.run(&rt)?;
    }
    Ok(())
}

// The cases that are left of the input.
#[derive(Drop)]
struct Cases<'a>(&'a [u8]);

impl<'a> Iterator for Cases<'a> {
    type Item = Case<'a>;

    ghost remaining = { λ s. at_most (length s.0.now) };

    fn next(&mut self) -> Option<Case<'a>> {
        let text = self.0;
        let letter = *text.first()?;
        let space = two(text, 2);
        let size = two(text, 5);
        self.0 = text.get(9 + size..).unwrap_or(&[]);
        Some(Case {
            letter,
            space,
            text: text.get(8..8 + size).unwrap_or(text),
        })
    }
}

// The number of two digits at a place of a case's first line; 0 where that is cut off.
fn two(text: &[u8], at: usize) -> usize
    requires { at < 7 }
    ensures { result < 256 }
{
    match text.first_chunk::<8>() {
        Some(line) => usize::from(line[at] % 16 * 10 + line[at + 1] % 16),
        None => 0,
    }
}

// A case: the letter, how much memory is lent, and the text.
#[derive(Drop)]
struct Case<'a> {
    letter: u8,
    space: usize,
    text: &'a [u8],
}

impl Case<'_> {
    fn run(&self, rt: &impl Print) -> io::Result<()> {
        match self.letter {
            b't' => line(rt, self.text),
            b'p' => self.read_plan(rt),
            b'v' => self.read_verdict(rt),
            b'P' => self.write(rt, write_plan),
            _ => self.write(rt, text_write::write_verdict),
        }
    }

    fn read_plan(&self, rt: &impl Print) -> io::Result<()> {
        let mut table = [9; 8];
        let answer = text_read::read_plan(self.text, &mut table[..self.space % 9]);
        admission(rt, answer)?;
        memory(rt, &table)
    }

    fn read_verdict(&self, rt: &impl Print) -> io::Result<()> {
        let mut list = [9; 8];
        let answer = text_read::read_verdict(self.text, &mut list[..self.space % 9]);
        verdict_read(rt, answer)?;
        memory(rt, &list)
    }

    // Calls an entry that writes what the numbers of the text say: the pieces of a plan, or the kind of a verdict, and behind it the list.
    fn write<F>(&self, rt: &impl Print, entry: F) -> io::Result<()>
    where
        F: FnOnce(u16, &[u16], &mut [u8]) -> Result<usize, Answer>,
        requires { F.IsAlwaysCallable entry }
    {
        let mut numbers = [0; 12];
        for (x, columns) in numbers.iter_mut().zip(self.text.chunks(5)) {
            *x = number(columns);
        }
        let first = numbers[0];
        let list = numbers.get(1..self.text.len() / 5).unwrap_or(&numbers);
        let mut bytes = [b'.'; 56];
        let answer = entry(first, list, &mut bytes[..self.space % 57]);
        written(rt, answer)?;
        line(rt, &bytes)
    }
}

// The number in some columns, of digits and blanks.
fn number(columns: &[u8]) -> u16 {
    columns.iter().fold(
        0,
        |x: u16, byte| (x % 6554 * 10).wrapping_add(u16::from(byte % 16)),
    )
}

// The list has how many ends there are, the ends, and behind them the slugs; all of it stands for a part that it does not have.
fn write_plan(pieces: u16, list: &[u16], text: &mut [u8]) -> Result<usize, Answer> {
    let slugs = 1 + usize::from(*list.first().unwrap_or(&0));
    text_write::write_plan(
        pieces,
        list.get(1..slugs).unwrap_or(list),
        list.get(slugs..).unwrap_or(list),
        text,
    )
}

fn admission(rt: &impl Print, answer: Result<Graph, Answer>) -> io::Result<()> {
    match answer {
        Err(a) => refused(rt, a),
        Ok(g) => {
            row(rt, "plan", g.vertices, g.edges)?;
            row(rt, "kept", g.kept_vertices, g.kept_edges)
        }
    }
}

fn verdict_read(rt: &impl Print, answer: Result<VerdictRead, Answer>) -> io::Result<()> {
    match answer {
        Err(a) => refused(rt, a),
        Ok(VerdictRead { kind, count }) => row(rt, "verdict", kind, (count % 10) as u16),
    }
}

fn written(rt: &impl Print, answer: Result<usize, Answer>) -> io::Result<()> {
    match answer {
        Err(a) => refused(rt, a),
        Ok(n) => println!(rt; "bytes {:05}", n % 65536),
    }
}

fn refused(rt: &impl Print, answer: Answer) -> io::Result<()> {
    row(rt, "refused", answer.number, answer.place)
}

fn row(rt: &impl Print, name: &str, a: u16, b: u16) -> io::Result<()> {
    println!(rt; "{name} {a:05} {b:05}")
}

fn memory(rt: &impl Print, numbers: &[u16]) -> io::Result<()> {
    for x in numbers {
        print!(rt; " {x:05}")?;
    }
    println!(rt)
}

fn line(rt: &impl Print, text: &[u8]) -> io::Result<()> {
    io::writer(rt).write_all(text)?;
    println!(rt)
}
