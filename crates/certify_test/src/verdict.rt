// Verdicts, and what the check answers to one.

// Why a plan or a verdict is refused, with the numbers of document 01.
#[derive(Clone, Copy, PartialEq, Eq)]
pub enum Rule {
    OddEnds = 1,
    Vertices = 2,
    Edges = 3,
    NoVertex = 4,
    SameEnds = 5,
    Space = 6,
    Form = 9,
    Step = 10,
    Edge = 11,
    Walk = 12,
    Path = 13,
    Ear = 14,
    SameLink = 15,
    Closing = 16,
    NotParted = 17,
    Excluded = 18,
    FewKept = 19,
    // No number of 01.
    Unknown = 65535,
}

impl Rule {
    pub fn at(self, place: u16) -> Refusal {
        Refusal { rule: self, place }
    }
}

#[derive(Clone, Copy, PartialEq, Eq)]
pub struct Refusal {
    pub rule: Rule,
    pub place: u16,
}

// The edges that part a plan.
#[derive(Clone, Copy, PartialEq, Eq)]
pub enum Cut {
    Nothing,
    One(u16),
    Two(u16, u16),
}

#[derive(Clone, Copy, PartialEq, Eq)]
pub enum Verdict {
    Firm,
    Weak(Cut),
}

// A verdict that is handed to the check: a record, if it is firm, or the edges of a cut.
#[derive(Clone, Copy)]
pub struct Claim<'a> {
    pub kind: Kind,
    pub list: &'a [u16],
}

#[derive(Clone, Copy)]
pub enum Kind {
    Firm = 0,
    Weak = 1,
    // There is no such kind.
    Unknown = 2,
}
