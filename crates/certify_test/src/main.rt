// Runs the writer and the check on random plans beside a second, simple implementation of both, and the writer also on each plan behind more
// excluded vertices; prints what was answered, which words have marks of vertices that fall, fingerprints of all answers, and each difference.
#![tactic(auto)]

use run::{Difference, Run, Tally};
use shape::Shape;
use std::io;

mod random; // random.rt: random numbers
mod shape; // shape.rt: the shapes of the random plans
mod walks; // walks.rt: random graphs of these shapes
mod plan; // plan.rt: a plan as it is handed over
mod sample; // sample.rt: random plans
mod verdict; // verdict.rt: verdicts and refusals
mod calls; // calls.rt: the calls of the library
mod change; // change.rt: random changes to records
mod set; // set.rt: small sets
mod second; // second.rt: the second implementation of the verdict
mod second_check; // second_check.rt: that of the check
mod run; // run.rt: what is counted
mod trial; // trial.rt: what is tested of each plan

// How many plans there are of each shape.
const PLANS: u16 = 1250;

// How many differences are told.
const TOLD: usize = 10;

// Those from some place on, of the first that are told.
fn tell(rt: &impl Print, differences: &[Difference], from: usize) -> io::Result<()> {
    for difference in differences.iter().take(TOLD).skip(from) {
        println!(rt; "{difference}")?;
    }
    Ok(())
}

// All plans of one shape, and their line.
fn test_shape(rt: &impl Print, run: &mut Run, shape: Shape) -> io::Result<()> {
    run.tally = Tally::default();
    run.shape = shape;
    for plan in 0..PLANS {
        run.plan = plan;
        let told = run.differences.len();
        run.test()?;
        tell(rt, &run.differences, told)?;
    }
    let tally = run.tally;
    println!(rt; "{shape}: {tally}")
}

// The last lines.
fn sum_up(rt: &impl Print, run: &Run) -> io::Result<()> {
    let totals = run.totals;
    println!(rt; "answers of the check to records, changed records and random weak lists")?;
    for (number, count) in totals.answers.iter().enumerate() {
        println!(rt; " {number}: {count}")?;
    }
    println!(rt;
        "verdicts with pieces that fall, as drawn and behind more slugs: {}",
        totals.falling
    )?;
    println!(rt; "such pieces: {}", totals.fallen)?;
    print!(rt; "verdicts with such pieces in each word:")?;
    for count in &totals.words {
        print!(rt; " {count}")?;
    }
    println!(rt; "\ndifferences {}", run.differences.len())
}

fn main(rt: HostRuntime) -> io::Result<()> {
    let mut run = Run::new(rt.alloc(), 20011);
    for shape in Shape::ALL {
        test_shape(&rt, &mut run, shape)?;
    }
    sum_up(&rt, &run)
}
