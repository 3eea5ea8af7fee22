// The check of a weak verdict: at most two edges, ascending, that disconnect.
#![tactic(auto)]

ghost use Rattle.std.specs.Prelude.{◌≡◌, ◌/◌, ◌≤◌, length};
ghost use Rattle.connectivity.specs.Plan.{plan, graph, limits};
ghost use Rattle.connectivity.specs.Admission.{Admitted};
ghost use Rattle.connectivity.specs.Judge.{judge_weak, judge};
ghost use Rattle.graph.specs.Admission.{told_by};
ghost use Rattle.verify_weak.specs.Weak.{is_missing, InTurn};

use graph::{Answer, Graph};

// A verdict of kind 1 with the numbers `list` about a plan: 0 and 0 if it passes, else the plan's own refusal, or 9, 11 or 17. It only
// reads.
pub fn check_weak(vertices: u16, ends: &[u16], excluded: &[u16], list: &[u16]) -> Answer
    ensures { result ≡ told_by (judge limits (plan vertices ends.now excluded.now) 1 list.now) }
{
    let made = Graph::new(vertices, ends, excluded);
    match made {
        Err(answer) => answer,
        Ok(_) => weak_admitted(vertices, ends, excluded, list),
    }
}

// The same of an admitted plan: 9 for more than two edges, 11 in turn, 17 if no vertex falls with them.
fn weak_admitted(vertices: u16, ends: &[u16], excluded: &[u16], list: &[u16]) -> Answer
    requires { Admitted limits (plan vertices ends.now excluded.now) }
    ensures { result ≡ told_by (judge_weak (graph (plan vertices ends.now excluded.now)) list.now) }
{
    if 2 < list.len() {
        return answer(9, 0);
    }
    let turn = rises(ends, excluded, list);
    let number = turn.number;
    if number != 0 {
        return turn;
    }
    let fallen = match removal::remove(vertices, ends, excluded, list) {
        Ok(fallen) => fallen,
        Err(refusal) => return refusal,
    };
    if fallen.count == 0 {
        return answer(17, 0);
    }
    answer(0, 0)
}

fn answer(number: u16, place: u16) -> Answer
    ensures { result ≡ record { number = number; place = place } }
{
    Answer { number, place }
}

// 11 at the first number that is no edge or not above the one before.
fn rises(ends: &[u16], excluded: &[u16], list: &[u16]) -> Answer
    requires { (length list.now ≤ 2) × (length ends.now / 2 ≤ limits.edges) }
    ensures { InTurn ends.now excluded.now list.now result }
{
    let mut low: u16 = 0;
    for (i, &e) in list.iter().enumerate() {
        if is_missing(ends, excluded, e) {
            return answer(11, i as u16);
        }
        if e < low {
            return answer(11, i as u16);
        }
        low = e + 1;
    }
    answer(0, 0)
}

// Whether e is no edge: it is behind the table of ends, or one of its ends is excluded (02: a slug's tab).
fn is_missing(ends: &[u16], excluded: &[u16], e: u16) -> bool
    ensures { result ≡ is_missing ends.now excluded.now e }
{
    let at = e as usize;
    if ends.len() / 2 <= at {
        return true;
    }
    if graph::excluded::is_excluded(excluded, ends[2 * at]) {
        return true;
    }
    graph::excluded::is_excluded(excluded, ends[2 * at + 1])
}
