// The check for C: include/hearthtansy.h declares these functions. A slice is a pointer and a length.
// They are those of the same names in `verify_texts::board`, and promise the same.
#![tactic(auto)]

ghost use Rattle.std.specs.Prelude.{◌≡◌};
ghost use Rattle.connectivity.specs.Plan.{plan, limits};
ghost use Rattle.connectivity.specs.Judge.{judge};
ghost use Rattle.text.specs.Column.{five, largest};
ghost use Rattle.verify_texts.specs.Texts.{judge_texts};
ghost use Rattle.verify_texts.specs.Board.{packed};

// The check of a verdict about a plan, both as numbers.
#[unsafe(no_mangle)]
pub extern "C" fn hearthtansy_check(
    vertices: u16,
    ends: &[u16],
    excluded: &[u16],
    kind: u16,
    list: &[u16],
) -> u32
    ensures { result ≡ packed (judge limits (plan vertices ends.now excluded.now) kind list.now) }
{
    verify_texts::board::hearthtansy_check(vertices, ends, excluded, kind, list)
}

// The check of a verdict text about a plan text.
#[unsafe(no_mangle)]
pub extern "C" fn hearthtansy_check_texts(plan: &[u8], verdict: &[u8]) -> u32
    ensures { result ≡ packed (judge_texts five largest limits plan.now verdict.now) }
{
    verify_texts::board::hearthtansy_check_texts(plan, verdict)
}
