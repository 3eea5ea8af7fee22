// The check of a firm verdict: rows that build the plan step by step.
#![tactic(auto)]

ghost use Rattle.std.specs.Prelude.{◌≡◌};
ghost use Rattle.connectivity.specs.Plan.{plan, graph, limits};
ghost use Rattle.connectivity.specs.Judge.{judge};
ghost use Rattle.graph.specs.Admission.{told_by};

use graph::{Answer, Graph};

mod state; // state.rt: the build state
mod firm; // firm.rt: the rows in turn

// A verdict of kind 0 with the numbers `list` about a plan: 0 and 0 if it passes, else the plan's own refusal or the first of 9 to 16 in
// 01's order. It only reads.
pub fn check_firm(vertices: u16, ends: &[u16], excluded: &[u16], list: &[u16]) -> Answer
    ensures { result ≡ told_by (judge limits (plan vertices ends.now excluded.now) 0 list.now) }
{
    let made = Graph::new(vertices, ends, excluded);
    match made {
        Err(answer) => answer,
        Ok(graph) => firm::firm_admitted(graph, ends, excluded, list),
    }
}

fn answer(number: u16, place: u16) -> Answer
    ensures { result ≡ record { number = number; place = place } }
{
    Answer { number, place }
}
