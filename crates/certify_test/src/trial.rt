// What is tested of each plan.
use crate::calls::{self, Finding, Marks};
use crate::change::Change;
use crate::plan::{Plan, Row, list_of, rows_of};
use crate::run::{Fault, Run};
use crate::sample::{self, Sample};
use crate::set::Set;
use crate::shape::Shape;
use crate::verdict::{Claim, Cut, Kind, Refusal, Verdict};
use crate::{second, second_check};
use std::alloc::AllocError;

// How often each record is changed.
const CHANGES: u16 = 6;

// The most numbers that are lent for a record, and what stands in them before a call.
const ROWS: usize = 48;

const UNTOUCHED: u16 = 54321;

// Whether the check passes the record or the cut; a refusal has none.
fn passes(plan: Plan<'_>, verdict: Result<Verdict, Refusal>, record: &[u16]) -> bool {
    match verdict {
        Err(_) => true,
        Ok(Verdict::Firm) => accepts(plan, Kind::Firm, record),
        Ok(Verdict::Weak(Cut::Nothing)) => accepts(plan, Kind::Weak, &[]),
        Ok(Verdict::Weak(Cut::One(edge))) => accepts(plan, Kind::Weak, &[edge]),
        Ok(Verdict::Weak(Cut::Two(first, second))) => accepts(plan, Kind::Weak, &[first, second]),
    }
}

fn accepts(plan: Plan<'_>, kind: Kind, list: &[u16]) -> bool {
    calls::check(plan, Claim { kind, list }).is_ok()
}

// Whether a vertex is marked that is not due, or the reverse; those that are due lie as many numbers further as the offset.
fn is_misplaced(marks: &Marks, due: Set, offset: u16) -> bool {
    (0..1024).any(|v: u16| marks.has(v) != v.checked_sub(offset).is_some_and(|v| due.has(v)))
}

// How many excluded vertices are put before a plan: so many that it lies about a border of 64, or that it ends with vertex 999.
fn offset(vertices: u16, turn: u16, x: u16) -> u16 {
    let many = 64 * (turn % 16) + 52 + x % 12;
    many.min(1000u16.saturating_sub(vertices))
}

impl Run {
    // One plan: both verdicts on it, what the writer's claims, and changed verdicts for the check.
    pub fn test(&mut self) -> Result<(), AllocError> {
        let sample = sample::of_shape(self.alloc, &mut self.random, self.shape)?;
        self.judge(&sample)?;
        if self.shape == Shape::Grown {
            let (record, rest) = sample.record();
            let behind = list_of(self.alloc, rest)?;
            self.claim_record(&sample, record, &behind)?;
        }
        self.claim_weak(&sample)?;
        self.claim_weak(&sample)
    }

    fn judge(&mut self, sample: &Sample) -> Result<(), AllocError> {
        let plan = sample.plan();
        let mut rows = [UNTOUCHED; ROWS];
        let lent = sample.space.min(ROWS);
        let finding = calls::verdict(plan, &mut rows[..lent]);
        let verdict = finding.verdict;
        self.tally.add(verdict, !plan.excluded.is_empty());
        let length = if verdict == Ok(Verdict::Firm) {
            ROWS.min(3 * usize::from(sample.kept_edges))
        } else {
            0
        };
        let record = &rows[..length];
        if verdict != second::verdict(plan, sample.space) {
            self.differs(Fault::Verdict)?;
        } else if rows[length..].iter().any(|&number| number != UNTOUCHED) {
            self.differs(Fault::Touched)?;
        } else if !passes(plan, verdict, record) {
            self.differs(Fault::Rejected)?;
        }
        self.judge_marks(sample, &finding)?;
        if verdict == Ok(Verdict::Firm) {
            self.tally.records.add_all(record);
            let found = rows_of(self.alloc, record)?;
            self.claim_record(sample, &found, &rows[length..])?;
        }
        Ok(())
    }

    // The vertices that fall, as the plan was drawn and, if it is not refused, behind more excluded ones.
    fn judge_marks(&mut self, sample: &Sample, finding: &Finding) -> Result<(), AllocError> {
        let due = second::fallen(sample.plan(), finding.verdict);
        self.weigh(&finding.marks, due, 0)?;
        if finding.verdict.is_ok() {
            let drawn = self.random.later(4).below(12);
            let many = offset(sample.vertices, self.plan, drawn);
            self.move_behind(sample, finding.verdict, due, many)?;
        }
        Ok(())
    }

    // The same plan behind some excluded vertices: the same verdict, and the marks as many places further.
    fn move_behind(
        &mut self,
        sample: &Sample,
        verdict: Result<Verdict, Refusal>,
        due: Set,
        offset: u16,
    ) -> Result<(), AllocError> {
        let mut excluded: Vec<u16> = (0..offset).collect(self.alloc)?;
        for v in &sample.excluded {
            excluded.push(v.wrapping_add(offset))?;
        }
        let ends: Vec<u16> = sample
            .ends
            .iter()
            .map(|v| v.wrapping_add(offset))
            .collect(self.alloc)?;
        let moved = Plan {
            vertices: sample.vertices.wrapping_add(offset),
            ends: &ends,
            excluded: &excluded,
        };
        let mut rows = [0; ROWS];
        let lent = sample.space.min(ROWS);
        let finding = calls::verdict(moved, &mut rows[..lent]);
        if finding.verdict != verdict {
            self.differs(Fault::Moved)?;
        }
        self.weigh(&finding.marks, due, offset)
    }

    // The marks of an answer and their number, beside the set that is due.
    fn weigh(&mut self, marks: &Marks, due: Set, offset: u16) -> Result<(), AllocError> {
        if usize::from(marks.count) != due.count() || is_misplaced(marks, due, offset) {
            self.differs(Fault::Marks)?;
        }
        self.totals.add_marks(marks);
        Ok(())
    }

    // A record as it is, and some times with one change. Some numbers stand behind it.
    fn claim_record(
        &mut self,
        sample: &Sample,
        record: &[Row],
        behind: &[u16],
    ) -> Result<(), AllocError> {
        self.claim_changed(sample, record, behind, Change::Nothing)?;
        for _ in 0..CHANGES {
            let change = Change::drawn(&mut self.random, sample.kept_edges);
            self.claim_changed(sample, record, behind, change)?;
        }
        Ok(())
    }

    fn claim_changed(
        &mut self,
        sample: &Sample,
        record: &[Row],
        behind: &[u16],
        change: Change,
    ) -> Result<(), AllocError> {
        let changed = change.applied(self.alloc, sample, record, behind)?;
        let plan = Plan {
            vertices: changed.vertices,
            ..sample.plan()
        };
        let claim = Claim {
            kind: changed.kind,
            list: &changed.list,
        };
        self.compare(plan, claim)
    }

    // A weak list of up to three random numbers, of which the largest is no edge.
    fn claim_weak(&mut self, sample: &Sample) -> Result<(), AllocError> {
        let bound = sample.edges.saturating_add(1);
        let drawn = [
            self.random.below(bound),
            self.random.below(bound),
            self.random.below(bound),
        ];
        let length = usize::from(self.random.below(4));
        let claim = Claim {
            kind: Kind::Weak,
            list: &drawn[..length.min(3)],
        };
        self.compare(sample.plan(), claim)
    }

    // The answers of both checks to a verdict.
    fn compare(&mut self, plan: Plan<'_>, claim: Claim<'_>) -> Result<(), AllocError> {
        let answer = calls::check(plan, claim);
        let (number, place) = match answer {
            Ok(()) => (0, 0),
            Err(refusal) => (refusal.rule as u16, refusal.place),
        };
        self.tally.records.add_all(&[number, place]);
        self.totals.add_answer(number);
        if answer != second_check::check(self.alloc, plan, claim)? {
            self.differs(Fault::Answer)?;
        }
        Ok(())
    }
}
