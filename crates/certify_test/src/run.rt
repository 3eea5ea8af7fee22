// A run over the plans of all shapes, as far as it has come: what is counted, and the differences.
use crate::calls::Marks;
use crate::random::Random;
use crate::shape::Shape;
use crate::verdict::{Cut, Refusal, Verdict};
use removal::Fallen;
use std::alloc::{AllocError, Global};
use std::fmt;

#[derive(Clone, Copy, Default)]
pub struct Fingerprint {
    hash: u32,
}

impl Fingerprint {
    pub fn add(&mut self, number: u16) {
        let more = self.hash.wrapping_mul(16777619);
        self.hash = more.wrapping_add(u32::from(number)).wrapping_add(1);
    }

    pub fn add_all(&mut self, list: &[u16]) {
        for &number in list {
            self.add(number);
        }
    }
}

impl fmt::Display for Fingerprint {
    fn fmt<W: fmt::Write>(&self, f: &mut fmt::Formatter<W>) -> fmt::Result {
        write!(f, "{}", self.hash)
    }
}

fn count(counter: &mut u32) {
    *counter = counter.saturating_add(1);
}

// The plans of one shape: how many are firm, weak with 0, 1 and 2 edges, and refused; those with excluded vertices that are not refused; the
// fingerprints of the verdicts, and of the records and the answers of the check.
#[derive(Clone, Copy, Default)]
pub struct Tally {
    pub firm: u32,
    pub parted: u32,
    pub weak_by_one: u32,
    pub weak_by_two: u32,
    pub refused: u32,
    pub excluding: u32,
    pub verdicts: Fingerprint,
    pub records: Fingerprint,
}

impl Tally {
    pub fn add(&mut self, verdict: Result<Verdict, Refusal>, is_excluding: bool) {
        self.verdicts.add_all(&numbers(verdict));
        count(match verdict {
            Ok(Verdict::Firm) => &mut self.firm,
            Ok(Verdict::Weak(Cut::Nothing)) => &mut self.parted,
            Ok(Verdict::Weak(Cut::One(_))) => &mut self.weak_by_one,
            Ok(Verdict::Weak(Cut::Two(_, _))) => &mut self.weak_by_two,
            Err(_) => &mut self.refused,
        });
        if is_excluding && verdict.is_ok() {
            count(&mut self.excluding);
        }
    }
}

// A verdict as its fingerprint takes it: its kind, a refusal's number and place, a weak one's count and edges.
fn numbers(verdict: Result<Verdict, Refusal>) -> [u16; 6] {
    match verdict {
        Ok(Verdict::Firm) => [0, 0, 0, 0, 0, 0],
        Ok(Verdict::Weak(Cut::Nothing)) => [1, 0, 0, 0, 0, 0],
        Ok(Verdict::Weak(Cut::One(edge))) => [1, 0, 0, 1, edge, 0],
        Ok(Verdict::Weak(Cut::Two(first, second))) => [1, 0, 0, 2, first, second],
        Err(refusal) => [2, refusal.rule as u16, refusal.place, 0, 0, 0],
    }
}

impl fmt::Display for Tally {
    fn fmt<W: fmt::Write>(&self, f: &mut fmt::Formatter<W>) -> fmt::Result {
        write!(
            f,
            "firm {}, weak with 0, 1, 2 tabs {} {} {}, refused {}; with slugs {}; ",
            self.firm, self.parted, self.weak_by_one, self.weak_by_two, self.refused, self.excluding
        )?;
        write!(
            f,
            "fingerprints of the verdicts {}, of the records and answers {}",
            self.verdicts, self.records
        )
    }
}

// For all shapes: how often the check gave each of its answers, by their numbers, 0 for none; the writer's answers in which vertices fall, those
// vertices, and how many of these answers have marks in each word.
#[derive(Clone, Copy, Default)]
pub struct Totals {
    pub answers: [u32; 20],
    pub falling: u32,
    pub fallen: u32,
    pub words: [u32; Fallen::WORDS],
}

impl Totals {
    pub fn add_answer(&mut self, number: u16) {
        if let Some(answer) = self.answers.get_mut(usize::from(number)) {
            count(answer);
        }
    }

    pub fn add_marks(&mut self, marks: &Marks) {
        if marks.count != 0 {
            count(&mut self.falling);
        }
        self.fallen = self.fallen.wrapping_add(u32::from(marks.count));
        for (total, &word) in self.words.iter_mut().zip(&marks.words) {
            if word != 0 {
                count(total);
            }
        }
    }
}

// What differs from the second implementation.
#[derive(Clone, Copy)]
pub enum Fault {
    Verdict,
    Touched,
    Rejected,
    Answer,
    Marks,
    Moved,
}

impl fmt::Display for Fault {
    fn fmt<W: fmt::Write>(&self, f: &mut fmt::Formatter<W>) -> fmt::Result {
        f.write_str(match self {
            Fault::Verdict => "the verdict",
            Fault::Touched => "rows that are no record are touched",
            Fault::Rejected => "the verdict does not pass",
            Fault::Answer => "the answer of the check",
            Fault::Marks => "the pieces that fall",
            Fault::Moved => "the verdict behind more slugs",
        })
    }
}

#[derive(Clone, Copy)]
pub struct Difference {
    pub shape: Shape,
    pub plan: u16,
    pub fault: Fault,
}

impl fmt::Display for Difference {
    fn fmt<W: fmt::Write>(&self, f: &mut fmt::Formatter<W>) -> fmt::Result {
        let shape = self.shape as u8;
        write!(f, "shape {shape}, plan {}: {}", self.plan, self.fault)
    }
}

// `shape` and `plan` name the plan that is tested.
#[derive(Drop)]
pub struct Run {
    pub alloc: Global,
    pub random: Random,
    pub shape: Shape,
    pub plan: u16,
    pub tally: Tally,
    pub totals: Totals,
    pub differences: Vec<Difference>,
}

impl Run {
    pub fn new(alloc: Global, seed: u32) -> Self {
        Run {
            alloc,
            random: Random::new(seed),
            shape: Shape::Dense,
            plan: 0,
            tally: Tally::default(),
            totals: Totals::default(),
            differences: Vec::new(alloc),
        }
    }

    pub fn differs(&mut self, fault: Fault) -> Result<(), AllocError> {
        self.differences.push(Difference {
            shape: self.shape,
            plan: self.plan,
            fault,
        })?;
        Ok(())
    }
}
