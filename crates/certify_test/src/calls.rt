// The calls of the library, whose answers are told in the program's own terms.
use crate::plan::Plan;
use crate::verdict::{Claim, Cut, Refusal, Rule, Verdict};
use cuts::lowest::Lowest;
use graph::Answer;
use removal::Fallen;

// The vertices that fall: their number, and a mark for each, 64 in a word.
#[derive(Clone, Copy)]
pub struct Marks {
    pub count: u16,
    pub words: [u64; Fallen::WORDS],
}

impl Marks {
    fn none() -> Marks {
        Marks {
            count: 0,
            words: [0; Fallen::WORDS],
        }
    }

    pub fn has(&self, vertex: u16) -> bool {
        match self.words.get(usize::from(vertex / 64)) {
            Some(word) => (word >> (vertex % 64)) % 2 == 1,
            None => false,
        }
    }
}

#[derive(Clone, Copy)]
pub struct Finding {
    pub verdict: Result<Verdict, Refusal>,
    pub marks: Marks,
}

// What the writer says of a plan.
pub fn verdict(plan: Plan<'_>, rows: &mut [u16]) -> Finding {
    match certify::verdict(plan.vertices, plan.ends, plan.excluded, rows) {
        Err(answer) => Finding {
            verdict: Err(refusal(answer)),
            marks: Marks::none(),
        },
        Ok(certify::Finding::Firm) => Finding {
            verdict: Ok(Verdict::Firm),
            marks: Marks::none(),
        },
        Ok(certify::Finding::Weak { cut, fallen }) => {
            let words = fallen.words;
            Finding {
                verdict: told(cut),
                marks: Marks {
                    count: fallen.count,
                    words,
                },
            }
        }
    }
}

fn told(cut: Lowest) -> Result<Verdict, Refusal> {
    match (cut.count, cut.first, cut.second) {
        (0, 0, 0) => Ok(Verdict::Weak(Cut::Nothing)),
        (1, edge, 0) => Ok(Verdict::Weak(Cut::One(edge))),
        (2, first, second) => Ok(Verdict::Weak(Cut::Two(first, second))),
        _ => Err(Rule::Unknown.at(0)),
    }
}

// What the check answers to a verdict.
pub fn check(plan: Plan<'_>, claim: Claim<'_>) -> Result<(), Refusal> {
    let kind = claim.kind as u16;
    let answer = verify::check(plan.vertices, plan.ends, plan.excluded, kind, claim.list);
    if answer.number == 0 && answer.place == 0 {
        Ok(())
    } else {
        Err(refusal(answer))
    }
}

const RULES: [Rule; 17] = [
    Rule::OddEnds,
    Rule::Vertices,
    Rule::Edges,
    Rule::NoVertex,
    Rule::SameEnds,
    Rule::Space,
    Rule::Form,
    Rule::Step,
    Rule::Edge,
    Rule::Walk,
    Rule::Path,
    Rule::Ear,
    Rule::SameLink,
    Rule::Closing,
    Rule::NotParted,
    Rule::Excluded,
    Rule::FewKept,
];

fn refusal(answer: Answer) -> Refusal {
    for rule in RULES {
        if rule as u16 == answer.number {
            return rule.at(answer.place);
        }
    }
    Rule::Unknown.at(answer.place)
}
