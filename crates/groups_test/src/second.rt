// A second, simple implementation, read from documents 01 and 02 alone, for plans of at most 8 pieces and 12 tabs: it tries every set of at
// most two tabs.
use crate::plan::Plan;
use std::fmt;

// Why a plan is refused, by its number.
#[derive(Clone, Copy, PartialEq, Eq)]
pub(crate) enum Reason {
    OddEnds = 1,
    Pieces = 2,
    Tabs = 3,
    NoPiece = 4,
    Loop = 5,
    ShortTable = 6,
    Slug = 18,
    FewKept = 19,
    // A number that no document has: such an answer is a difference.
    Unknown = 99,
}

impl Reason {
    pub(crate) const ALL: [Reason; 8] = [
        Reason::OddEnds,
        Reason::Pieces,
        Reason::Tabs,
        Reason::NoPiece,
        Reason::Loop,
        Reason::ShortTable,
        Reason::Slug,
        Reason::FewKept,
    ];
}

// A reason, and the tab or the slug that has it; 0 where the whole plan has it.
#[derive(Clone, Copy, PartialEq, Eq)]
pub(crate) struct Refusal {
    pub reason: Reason,
    pub place: usize,
}

impl Refusal {
    // As one number, for a fingerprint.
    pub(crate) fn code(self) -> u32 {
        (self.reason as u32) * 65536 + (self.place % 65536) as u32
    }
}

impl From<Reason> for Refusal {
    fn from(reason: Reason) -> Refusal {
        Refusal { reason, place: 0 }
    }
}

impl fmt::Display for Refusal {
    fn fmt<W: fmt::Write>(&self, f: &mut fmt::Formatter<W>) -> fmt::Result {
        let number = self.reason as u16;
        let place = self.place;
        write!(f, "{number} {place}")
    }
}

// The groups, into a table that is lent: for each piece the lowest one that is together with it. A slug is together with itself alone.
pub(crate) fn groups(plan: &Plan, table: &mut [u16]) -> Result<(), Refusal> {
    let pieces = usize::from(plan.pieces);
    admit(plan, table.len())?;
    // `held` tells of 8 pieces, which is as many as there are.
    let lowest = held(plan).lowest;
    for (number, &lowest) in table.iter_mut().zip(&lowest[..pieces.min(8)]) {
        *number = lowest;
    }
    Ok(())
}

// The refusals. So few tabs are not refused by 3.
fn admit(plan: &Plan, lent: usize) -> Result<(), Refusal> {
    let pieces = usize::from(plan.pieces);
    if plan.ends.len() % 2 == 1 {
        return Err(Refusal::from(Reason::OddEnds));
    }
    if !(2..=1000).contains(&pieces) {
        return Err(Refusal::from(Reason::Pieces));
    }
    admit_tabs(plan)?;
    admit_slugs(plan)?;
    if pieces.saturating_sub(plan.slugs.len()) < 2 {
        return Err(Refusal::from(Reason::FewKept));
    }
    if lent < pieces {
        return Err(Refusal::from(Reason::ShortTable));
    }
    Ok(())
}

// Both ends of a tab are pieces, and two.
fn admit_tabs(plan: &Plan) -> Result<(), Refusal> {
    let (tabs, _) = plan.ends.as_chunks::<2>();
    for (place, &[a, b]) in tabs.iter().enumerate() {
        if plan.pieces <= a || plan.pieces <= b {
            return Err(Refusal {
                reason: Reason::NoPiece,
                place,
            });
        }
        if a == b {
            return Err(Refusal {
                reason: Reason::Loop,
                place,
            });
        }
    }
    Ok(())
}

// A slug is a piece, and above the one before.
fn admit_slugs(plan: &Plan) -> Result<(), Refusal> {
    let mut before = None;
    for (place, &slug) in plan.slugs.iter().enumerate() {
        if plan.pieces <= slug || before.is_some_and(|lower: u16| slug <= lower) {
            return Err(Refusal {
                reason: Reason::Slug,
                place,
            });
        }
        before = Some(slug);
    }
    Ok(())
}

// 8 pieces in parts: for each the lowest one of its part.
#[derive(Clone, Copy)]
struct Parts {
    lowest: [u16; 8],
}

impl Parts {
    const WHOLE: Parts = Parts { lowest: [0; 8] };

    const SINGLE: Parts = Parts {
        lowest: [0, 1, 2, 3, 4, 5, 6, 7],
    };

    // Makes one part of the parts of two pieces. What is no piece stays out.
    fn join(&mut self, a: u16, b: u16) {
        let (Some(&p), Some(&q)) = (
            self.lowest.get(usize::from(a)),
            self.lowest.get(usize::from(b)),
        ) else {
            return;
        };
        let low = p.min(q);
        let high = p.max(q);
        for lowest in &mut self.lowest {
            if *lowest == high {
                *lowest = low;
            }
        }
    }

    // The pieces that are in one part both here and there.
    fn common(&self, other: &Parts) -> Parts {
        let mut common = Parts::SINGLE;
        for piece in 0..8 {
            for lower in 0..piece {
                if self.lowest[lower] == self.lowest[piece]
                    && other.lowest[lower] == other.lowest[piece]
                {
                    common.lowest[piece] = lower as u16;
                    break;
                }
            }
        }
        common
    }
}

// The pieces that are together whichever tabs are lost. The number behind the last tab stands for none.
fn held(plan: &Plan) -> Parts {
    let tabs = plan.ends.len() / 2;
    let mut held = Parts::WHOLE;
    for first in 0..=tabs {
        for second in first..=tabs {
            held = held.common(&bodies(plan, [first, second]));
        }
    }
    held
}

// The pieces that are in one body over the tabs that are not lost. No slug's tab holds.
fn bodies(plan: &Plan, lost: [usize; 2]) -> Parts {
    let (tabs, _) = plan.ends.as_chunks::<2>();
    let mut bodies = Parts::SINGLE;
    for (tab, &[a, b]) in tabs.iter().enumerate() {
        if !lost.contains(&tab) && !plan.slugs.contains(&a) && !plan.slugs.contains(&b) {
            bodies.join(a, b);
        }
    }
    bodies
}
