// The cases of the table: a line each.
use crate::library;
use crate::plan::{Laying, Plan, Rule, Seed};
use crate::table::{Numbers, UNTOUCHED, fingerprint, groups};
use std::io;
use std::io::Write;

// What stands for a rule among the numbers of a line.
const RING: u16 = 60000;

const BLOBS: u16 = 60001;

const SINGLE: u16 = 60002;

// The most tabs that a rule gives: one too many for a plan.
const MOST_TABS: u16 = 4001;

// How long a table is lent at most. The library is not asked for a longer one.
const LONGEST: usize = 1002;

// The number that a byte stands for.
fn worth(byte: u8) -> u16 {
    match byte {
        b'a'..=b'h' => u16::from(byte - b'a') + 10,
        b'l' => 999,
        b'm' => 1000,
        b'n' => 1001,
        b's' => 1998,
        b't' => 2000,
        b'w' => 4000,
        b'x' => 4001,
        b'R' => RING,
        b'S' => SINGLE,
        b'B' => BLOBS,
        _ => u16::from(byte % 48), // a digit
    }
}

// A blank and a semicolon stand for no number.
fn is_number(byte: u8) -> bool {
    !matches!(byte, b' ' | b';')
}

// How many numbers a part of a line has.
fn count(text: &[u8]) -> usize {
    text.iter().filter(|byte| is_number(**byte)).count()
}

// The numbers of a line, behind a first one that tells where its slugs begin. What a line does not write over stays from the lines before it.
#[derive(Drop)]
pub(crate) struct Places([u16; 64]);

impl Places {
    pub(crate) const EMPTY: Places = Places([0; 64]);

    // No slugs have begun: before the ends are over, and behind them.
    const UNKNOWN: u16 = 65535;

    const NONE: u16 = 64;

    // Takes up what stands behind the name of a line, and tells up to where. Further numbers are left out.
    fn read(&mut self, text: &[u8]) -> usize {
        self.0[0] = Places::begin(text);
        let numbers = text.iter().copied().filter(|byte| is_number(*byte));
        for (place, number) in self.0[1..].iter_mut().zip(numbers.map(worth)) {
            *place = number;
        }
        1 + count(text).min(63)
    }

    // Where the slugs begin: behind the last semicolon, but not behind the one or two that are before the ends.
    fn begin(text: &[u8]) -> u16 {
        let mut parts = text.rsplitn(2, |byte| *byte == b';');
        let _slugs = parts.next();
        let Some(before) = parts.next() else {
            return Places::UNKNOWN;
        };
        if !before.contains(&b';') {
            return Places::NONE;
        }
        1 + count(before).min(63) as u16
    }

    // What a line has before its slugs, and the slugs, where it takes up the places up to `end`.
    fn parts(&self, end: usize) -> (&[u16], &[u16]) {
        let line = self.0.get(..end).unwrap_or(&self.0);
        line.split_at(usize::from(self.0[0]).min(line.len()))
    }

    // Runs the case, and prints it. All places are ends where no length is lent before the slugs.
    fn run<R: Print + AllocGlobal>(&self, rt: &R, end: usize) -> io::Result<()> {
        let alloc = rt.alloc();
        let (front, slugs) = self.parts(end);
        let pieces = self.0[1];
        let laid = laid(front);
        let ends = match laid {
            Some((rule, tabs)) => laying(rule, pieces).ends(alloc, tabs)?,
            None => front.get(3..).unwrap_or(&self.0).to_vec(alloc)?,
        };
        let plan = Plan {
            pieces,
            ends,
            slugs: slugs.to_vec(alloc)?,
            lent: usize::from(self.0[2]),
        };
        show(rt, &plan, laid.is_some())
    }
}

// The rule of a large plan, and how many tabs it gives.
fn laid(front: &[u16]) -> Option<(Rule, u16)> {
    let &[_, _, _, number, tabs] = front else {
        return None;
    };
    let rule = match number {
        RING => Rule::Ring,
        SINGLE => Rule::Single,
        BLOBS => Rule::Blobs,
        _ => return None,
    };
    Some((rule, tabs.min(MOST_TABS)))
}

// How a large plan is laid.
fn laying(rule: Rule, pieces: u16) -> Laying {
    Laying {
        rule,
        pieces,
        seed: Seed(7),
    }
}

// Shows the name of a case, and how it is answered. A line that is cut off where the input ends has only a name.
pub(crate) fn run<R: Print + AllocGlobal>(
    rt: &R,
    places: &mut Places,
    line: &[u8],
) -> io::Result<()> {
    let whole = line.strip_suffix(b"\n");
    let mut parts = whole.unwrap_or(line).splitn(2, |byte| *byte == b';');
    io::writer(rt).write_all(parts.next().unwrap_or(&[]))?;
    if whole.is_none() {
        return Ok(());
    }
    let end = parts.next().map_or(0, |text| places.read(text));
    places.run(rt, end)
}

// The answer and the lent table.
fn show<R: Print + AllocGlobal>(rt: &R, plan: &Plan, is_large: bool) -> io::Result<()> {
    let mut table = vec![in rt.alloc(); UNTOUCHED; plan.lent.min(LONGEST)]?;
    if LONGEST < plan.lent {
        print!(rt; ": 0 1")?;
    } else {
        match library::groups(plan, &mut table) {
            Ok(()) => print!(rt; ": 0 0")?,
            Err(refusal) => print!(rt; ": {refusal}")?,
        }
    }
    let table = table.as_slice();
    if is_large {
        let groups = groups(table);
        let fingerprint = fingerprint(0, table);
        println!(rt; "; groups {groups}, fingerprint {fingerprint}")
    } else {
        let numbers = Numbers(table);
        println!(rt; ";{numbers}")
    }
}
