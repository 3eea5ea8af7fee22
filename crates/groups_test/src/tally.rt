// Both implementations on one plan, and what a run of them has counted.
use crate::plan::Plan;
use crate::second::{Reason, Refusal};
use crate::table::{Numbers, UNTOUCHED, fingerprint, groups};
use crate::{library, second};
use std::{fmt, io};

// How long the table of a plan is, which is not lent whole.
const TABLE: usize = 12;

#[derive(Default, Drop)]
pub(crate) struct Tally {
    // Of all answers and tables.
    fingerprint: u32,
    // Plans that are not refused, by the number of groups of kept pieces.
    by_groups: [u32; 9],
    // Refused plans, in the order of `Reason::ALL`.
    refused: [u32; 8],
    // Plans with slugs that are not refused.
    with_slugs: u32,
    differences: u32,
}

impl Tally {
    // Runs both, counts what the library answered, and shows a difference.
    pub(crate) fn try_plan(&mut self, rt: &impl Print, plan: &Plan) -> io::Result<()> {
        let lent = plan.lent.min(TABLE);
        let mut table = [UNTOUCHED; TABLE];
        let answer = library::groups(plan, &mut table[..lent]);
        self.note(plan, answer, &table);
        let mut due = [UNTOUCHED; TABLE];
        let expected = second::groups(plan, &mut due[..lent]);
        if answer != expected || table != due {
            self.differences = self.differences.wrapping_add(1);
            show(rt, plan, &table)?;
        }
        Ok(())
    }

    fn note(&mut self, plan: &Plan, answer: Result<(), Refusal>, table: &[u16]) {
        let code = answer.map_or_else(Refusal::code, |_| 0);
        self.fingerprint = fingerprint(self.fingerprint.wrapping_add(code), table);
        match answer {
            Ok(()) => self.note_groups(groups(table), plan.slugs.len()),
            Err(refusal) => self.note_refusal(refusal.reason),
        }
    }

    // Each slug is a group of its own, which is not counted.
    fn note_groups(&mut self, groups: usize, slugs: usize) {
        if let Some(count) = self.by_groups.get_mut(groups.wrapping_sub(slugs)) {
            *count = count.wrapping_add(1);
        }
        if slugs != 0 {
            self.with_slugs = self.with_slugs.wrapping_add(1);
        }
    }

    fn note_refusal(&mut self, reason: Reason) {
        for (count, listed) in self.refused.iter_mut().zip(Reason::ALL) {
            if reason == listed {
                *count = count.wrapping_add(1);
            }
        }
    }
}

impl fmt::Display for Tally {
    fn fmt<W: fmt::Write>(&self, f: &mut fmt::Formatter<W>) -> fmt::Result {
        write!(
            f,
            "random plans: fingerprint, of 1 to 8 groups, refused by 1 to 6, 18 and 19, with slugs, differences; {}{}{} {} {}",
            self.fingerprint,
            Numbers(&self.by_groups[1..]),
            Numbers(&self.refused),
            self.with_slugs,
            self.differences
        )
    }
}

// A difference: the plan, and the table.
fn show(rt: &impl Print, plan: &Plan, table: &[u16]) -> io::Result<()> {
    let pieces = plan.pieces;
    let ends = Numbers(plan.ends.as_slice());
    let slugs = Numbers(plan.slugs.as_slice());
    let table = Numbers(table);
    println!(rt; "difference: {pieces};{ends};{slugs};{table}")
}
