// The check as C takes it: `verify_texts_c` hands these functions to C.
ghost use Rattle.std.specs.Prelude.{◌≡◌};
ghost use Rattle.connectivity.specs.Plan.{plan, limits};
ghost use Rattle.connectivity.specs.Judge.{judge};
ghost use Rattle.graph.specs.Admission.{answer_of};
ghost use Rattle.text.specs.Column.{five, largest};
ghost use Rattle.verify_texts.specs.Texts.{judge_texts};
ghost use Rattle.verify_texts.specs.Board.{packed};

use graph::Answer;

// The check of a verdict about a plan, both as numbers.
pub fn hearthtansy_check(
    vertices: u16,
    ends: &[u16],
    excluded: &[u16],
    kind: u16,
    list: &[u16],
) -> u32
    ensures { result ≡ packed (judge limits (plan vertices ends.now excluded.now) kind list.now) }
{
    pack(verify::check(vertices, ends, excluded, kind, list))
}

// The check of a verdict text about a plan text.
pub fn hearthtansy_check_texts(plan: &[u8], verdict: &[u8]) -> u32
    ensures { result ≡ packed (judge_texts five largest limits plan.now verdict.now) }
{
    pack(crate::check_texts(plan, verdict))
}

// Number and place in one number, as each function for C hands an answer over.
pub fn pack(answer: Answer) -> u32
    ensures { result ≡ packed (answer_of answer) }
{
    answer.number as u32 * 65536 + answer.place as u32
}
