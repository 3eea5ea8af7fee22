// The check: what 01 answers to a verdict about a plan.
#![tactic(auto)]

ghost use Rattle.std.specs.Prelude.{◌≡◌};
ghost use Rattle.connectivity.specs.Plan.{plan, limits};
ghost use Rattle.connectivity.specs.Admission.{admission, and_then, answer};
ghost use Rattle.connectivity.specs.Judge.{judge};
ghost use Rattle.graph.specs.Admission.{told_by};

use graph::{Answer, Graph};

// A verdict of the kind `kind` with the numbers `list` about a plan: 0 and 0 if it passes, else the plan's own refusal or the first of 9
// to 17 in 01's order. Kind 0 is firm, 1 is weak, any other is 9. It only reads.
pub fn check(vertices: u16, ends: &[u16], excluded: &[u16], kind: u16, list: &[u16]) -> Answer
    ensures { result ≡ told_by (judge limits (plan vertices ends.now excluded.now) kind list.now) }
{
    if kind == 0 {
        return verify_firm::check_firm(vertices, ends, excluded, list);
    }
    if kind == 1 {
        return verify_weak::check_weak(vertices, ends, excluded, list);
    }
    unknown(vertices, ends, excluded)
}

// Of a verdict of no known kind: the plan's own refusal, else 9.
fn unknown(vertices: u16, ends: &[u16], excluded: &[u16]) -> Answer
    ensures { result ≡ told_by (and_then (admission limits (plan vertices ends.now excluded.now)) (answer 9 0)) }
{
    let made = Graph::new(vertices, ends, excluded);
    match made {
        Err(answer) => answer,
        Ok(_) => Answer {
            number: 9,
            place: 0,
        },
    }
}
