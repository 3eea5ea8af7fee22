// Runs the tables by vertex, the search over them, the labels, the chains, the lowest cut and the numbers along a tree on the cases of a table, and
// prints all that was lent; and tables, searches and labels on random plans beside a second, simple implementation, and counts the differences.
//
// The table is the standard input, a line for each case: a name, a letter, some numbers, and lists, with a semicolon between them.
//     name; f; pieces I B; ends                                       tables by vertex
//     name; s; pieces root seen; ends; incident; begins; dead; first; order; cursor    a search
//     name; u; from to; order; first                                  a search undone
//     name; b; pieces L S; ends; first; order; slugs                  labels along a forest
//     name; l; pieces I B D F O C L S; ends; slugs                    the labels of a plan
//     name; c; edges N H; labels                                      chains
//     name; k; pieces I B F O; ends; slugs                            the lowest cut of a plan
//     name; n; pieces N L V; ends; first; order                       numbers along a tree, and what lies below each piece
//     name; g; pieces rule; slugs                                     a large plan, on which is tried what is tried on random ones
// A plan without slugs may end before them.
// A capital letter is the length of a table that is lent full of nines. A digit stands for itself, a letter for a larger number (`worth`); a
// blank for nothing. Behind what is answered comes each table that the call may write, as it is then.
#![tactic(auto)]

use plan::Listed;
use std::io;
use std::io::Read;
use trial::Run;

mod show; // show.rt: what is printed
mod case; // case.rt: the cases, read
mod told; // told.rt: what the library answers
mod lent; // lent.rt: one call for each
mod plan; // plan.rt: large plans and random ones
mod second; // second.rt: the second implementation: tables
mod second_search; // second_search.rt: searches
mod second_labels; // second_labels.rt: labels
mod trial; // trial.rt: both on one plan

// How much of the input is read.
const MOST: u64 = 65536;

// How many random plans there are.
const PLANS: u32 = 4000;

fn main(rt: HostRuntime) -> io::Result<()> {
    let mut text = Vec::new(rt.alloc());
    rt.stdin().take(MOST).read_to_end(&mut text)?;
    for line in text.split_inclusive(|byte| *byte == b'\n') {
        case::run(&rt, line.strip_suffix(b"\n").unwrap_or(line))?;
    }
    compare(&rt)
}

// Both implementations on random plans.
fn compare(rt: &(impl Print + AllocGlobal)) -> io::Result<()> {
    let mut run = Run::default();
    for seed in 0..PLANS {
        let listed = Listed::random(rt.alloc(), seed)?;
        run.try_plan(rt.alloc(), listed.plan(), seed)?;
    }
    println!(rt; "random plans{run}")
}
