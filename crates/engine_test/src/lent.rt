// One call for each case. What was lent is shown behind it: a table that the call may write, from left to right.
use crate::case::Case;
use crate::plan::{Listed, Plan, Rule};
use crate::trial::Run;
use crate::{show, told};
use std::io;

pub(crate) fn fill(rt: &impl Print, case: &Case) -> io::Result<()> {
    let mut incident = case.lent(1)?;
    let mut begins = case.lent(2)?;
    let answer = incidence::fill(case.number(0), &case.list(3)?, &mut incident, &mut begins);
    show::passed(rt, told::passed(answer))?;
    show::table(rt, &incident)?;
    show::table(rt, &begins)
}

pub(crate) fn search(rt: &impl Print, case: &Case) -> io::Result<()> {
    let mut first = case.list(7)?;
    let mut order = case.list(8)?;
    let mut cursor = case.list(9)?;
    let told = depth::explore(
        case.number(0),
        &case.list(3)?,
        &case.list(4)?,
        &case.list(5)?,
        &case.bytes(6)?,
        case.number(1),
        case.number(2),
        &mut first,
        &mut order,
        &mut cursor,
    );
    match told {
        Ok(count) => print!(rt; ": seen {count}")?,
        Err(answer) => show::refused(rt, answer)?,
    }
    show::table(rt, &first)?;
    show::table(rt, &order)?;
    show::table(rt, &cursor)
}

pub(crate) fn undo(rt: &impl Print, case: &Case) -> io::Result<()> {
    let mut first = case.list(4)?;
    depth::undo(&case.list(3)?, case.number(0), case.number(1), &mut first);
    show::table(rt, &first)
}

pub(crate) fn balance(rt: &impl Print, case: &Case) -> io::Result<()> {
    let listed = case.plan(6)?;
    let plan = listed.plan();
    let mut labels = case.lent(1)?;
    let mut sums = case.lent(2)?;
    let answer = labels::balance(
        plan.vertices,
        plan.ends,
        plan.excluded,
        &case.list(4)?,
        &case.list(5)?,
        &mut labels,
        &mut sums,
    );
    let told = told::passed(answer);
    let served = told.is_ok();
    show::passed(rt, told)?;
    labelled(rt, &plan, served, &labels, &sums)
}

pub(crate) fn label(rt: &impl Print, case: &Case) -> io::Result<()> {
    let listed = case.plan(4)?;
    let plan = listed.plan();
    let mut incident = case.lent(1)?;
    let mut begins = case.lent(2)?;
    let mut dead = case.lent(3)?;
    let mut first = case.lent(4)?;
    let mut order = case.lent(5)?;
    let mut cursor = case.lent(6)?;
    let mut labels = case.lent(7)?;
    let mut sums = case.lent(8)?;
    let answer = labels::label(
        plan.vertices,
        plan.ends,
        plan.excluded,
        &mut incident,
        &mut begins,
        &mut dead,
        &mut first,
        &mut order,
        &mut cursor,
        &mut labels,
        &mut sums,
    );
    let told = told::passed(answer);
    let served = told.is_ok();
    show::passed(rt, told)?;
    show::table(rt, &incident)?;
    show::table(rt, &begins)?;
    show::table(rt, &dead)?;
    show::table(rt, &first)?;
    show::table(rt, &order)?;
    show::table(rt, &cursor)?;
    labelled(rt, &plan, served, &labels, &sums)
}

// The numbers of a table from a place on.
fn behind(table: &[u64], from: usize) -> &[u64] {
    table.get(from..).unwrap_or(&[])
}

// Of labels only what is promised is shown: whether they cancel around every piece, and what lies behind them; all of it, if they were refused.
fn labelled(
    rt: &impl Print,
    plan: &Plan,
    served: bool,
    labels: &[u64],
    sums: &[u64],
) -> io::Result<()> {
    if !served {
        show::table(rt, labels)?;
        return show::table(rt, sums);
    }
    show::table(rt, behind(labels, plan.ends.len() / 2))?;
    show::table(rt, behind(sums, usize::from(plan.vertices)))?;
    if plan.is_balanced(labels) {
        print!(rt; "; the labels cancel")?;
    }
    if plan.is_summed(labels, sums) {
        print!(rt; "; the sums are theirs")?;
    }
    Ok(())
}

pub(crate) fn cut(rt: &impl Print, case: &Case) -> io::Result<()> {
    let mut incident = case.lent(1)?;
    let mut begins = case.lent(2)?;
    let mut first = case.lent(3)?;
    let mut order = case.lent(4)?;
    let told = cuts::lowest_cut(
        case.number(0),
        &case.list(3)?,
        &case.list(4)?,
        &mut incident,
        &mut begins,
        &mut first,
        &mut order,
    );
    match told::lightest(told) {
        Ok(Some(cut)) => {
            print!(rt; ": cut")?;
            show::numbers(rt, &cut)?;
        }
        Ok(None) => print!(rt; ": no cut")?,
        Err(answer) => show::refused(rt, answer)?,
    }
    show::table(rt, &incident)?;
    show::table(rt, &begins)?;
    show::table(rt, &first)?;
    show::table(rt, &order)
}

pub(crate) fn chain(rt: &impl Print, case: &Case) -> io::Result<()> {
    let mut next = case.lent(1)?;
    let mut heads = case.lent(2)?;
    let answer = chains::chain(case.number(0), &case.labels(3)?, &mut next, &mut heads);
    show::passed(rt, told::passed(answer))?;
    show::table(rt, &next)?;
    show::table(rt, &heads)
}

pub(crate) fn below(rt: &impl Print, case: &Case) -> io::Result<()> {
    let mut number = case.lent(1)?;
    let mut last = case.lent(2)?;
    let mut over = case.lent(3)?;
    let answer = numbers::look_below(
        case.number(0),
        &case.list(3)?,
        &case.list(4)?,
        &case.list(5)?,
        &mut number,
        &mut last,
        &mut over,
    );
    show::passed(rt, told::passed(answer))?;
    show::table(rt, &number)?;
    show::table(rt, &last)?;
    show::table(rt, &over)
}

// What is tried on random plans, on a large one.
pub(crate) fn large(rt: &(impl Print + AllocGlobal), case: &Case) -> io::Result<()> {
    let alloc = rt.alloc();
    let seed = 7;
    let rule = Rule::from(case.number(1));
    let listed = Listed::large(alloc, case.number(0), rule, case.list(3)?, seed)?;
    let mut run = Run::default();
    run.try_plan(alloc, listed.plan(), seed)?;
    print!(rt; "{run}")
}
