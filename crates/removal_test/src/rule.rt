// The rules that give the tabs of a large plan, each with a number that stands for it in a table.
ghost use Rattle.std.specs.Prelude.{◌<◌, ◌≤◌};

use std::alloc::{AllocError, Global};

pub(crate) const ROW: u16 = 65535;

pub(crate) const KNOT: u16 = 10999;

pub(crate) const PATH: u16 = 20000;

pub(crate) const STAR: u16 = 20001;

pub(crate) const SHIFTED: u16 = 20002;

// The most tabs that a rule gives: one too many for a plan.
const MOST: u16 = 4001;

#[derive(Clone, Copy)]
pub(crate) enum Rule {
    // 4,001 tabs in a row, from each piece to the next, but tab 3 back to piece 0
    Row,
    // the rule `Jumping(999)`, but for tab 7, which joins a piece to itself
    Knot,
    // one tab fewer than pieces: tab i joins pieces i and i + 1
    Path,
    // one tab fewer than pieces: tab i joins pieces 0 and i + 1
    Star,
    // one tab fewer than pieces, around piece 1: tab 0 joins pieces 0 and 1, and any other tab i pieces 1 and i + 1
    Shifted,
    // 4,000 tabs that jump about among so many pieces
    Jumping(u16),
}

impl From<u16> for Rule {
    fn from(number: u16) -> Rule {
        match number {
            ROW => Rule::Row,
            KNOT => Rule::Knot,
            PATH => Rule::Path,
            STAR => Rule::Star,
            SHIFTED => Rule::Shifted,
            pieces => Rule::Jumping(pieces),
        }
    }
}

impl Rule {
    // The ends of all tabs of a plan of so many pieces.
    pub(crate) fn ends(self, alloc: Global, pieces: u16) -> Result<Vec<u16>, AllocError> {
        let mut ends = Vec::new(alloc);
        for tab in 0..self.tabs(pieces) {
            ends.extend_from_slice(&self.joined(tab))?;
        }
        Ok(ends)
    }

    fn tabs(self, pieces: u16) -> u16
        ensures { result ≤ 4001 }
    {
        match self {
            Rule::Path | Rule::Star | Rule::Shifted => pieces.saturating_sub(1).min(MOST),
            Rule::Row => MOST,
            Rule::Knot | Rule::Jumping(_) => 4000,
        }
    }

    // The two pieces that a tab joins.
    fn joined(self, tab: u16) -> [u16; 2]
        requires { tab < 4001 }
    {
        match self {
            Rule::Row if tab == 3 => [tab, 0],
            Rule::Knot if tab == 7 => [2, 2],
            Rule::Shifted if tab != 0 => [1, tab + 1],
            Rule::Row | Rule::Path | Rule::Shifted => [tab, tab + 1],
            Rule::Star => [0, tab + 1],
            Rule::Knot => jump(tab, 999),
            Rule::Jumping(pieces) => jump(tab, pieces),
        }
    }
}

// From piece i to 7 i + 3, and one further each time round; where that is the same piece, from 0 to 1.
fn jump(tab: u16, pieces: u16) -> [u16; 2]
    requires { tab < 4001 }
{
    if pieces == 0 {
        return [0, 0];
    }
    let from = tab % pieces;
    let to = (tab * 7 + 3 + tab / pieces % 100) % pieces;
    if from == to { [0, 1] } else { [from, to] }
}
