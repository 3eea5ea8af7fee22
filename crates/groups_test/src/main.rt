// Runs the groups on the plans of a table, and on random ones beside a second, simple implementation, and prints what was answered and each
// difference.
//
// The table is the standard input, a line for each case:
//     name; pieces lent; ends of the tabs; slugs
//     name; pieces lent; rule tabs; slugs
// `lent` is the length of the table that is lent; a plan without slugs may end before them. A digit stands for itself, a letter for a larger
// number (`worth`), a blank for nothing. A capital letter is the rule by which so many tabs of a large plan are laid. Behind the number and the
// place that are answered comes the whole lent table, 54321 where nothing was written; of a large plan how many groups there are, a slug counted
// as one, and a fingerprint of that table.
#![tactic(auto)]

use case::Places;
use std::io;
use std::io::Read;
use tally::Tally;

mod case; // case.rt: the cases
mod library; // library.rt: what the library answers
mod plan; // plan.rt: plans, and the rules by which tabs are laid
mod random; // random.rt: random plans
mod second; // second.rt: the second implementation
mod table; // table.rt: what is told of a lent table
mod tally; // tally.rt: both on one plan, and what a run has counted

// How much of the input is read.
const MOST: u64 = 65536;

// How many random plans there are.
const PLANS: u32 = 10000;

fn main(rt: HostRuntime) -> io::Result<()> {
    let mut text = Vec::new(rt.alloc());
    rt.stdin().take(MOST).read_to_end(&mut text)?;
    let mut places = Places::EMPTY;
    for line in text.split_inclusive(|byte| *byte == b'\n') {
        case::run(&rt, &mut places, line)?;
    }
    let mut tally = Tally::default();
    for seed in 0..PLANS {
        tally.try_plan(&rt, &random::plan(rt.alloc(), seed)?)?;
    }
    println!(rt; "{tally}")
}
