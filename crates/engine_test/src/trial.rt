// Tables, searches and labels of one plan, beside the second implementation.
use crate::plan::{Plan, draw};
use crate::second::{EDGES, Tables, UNTOUCHED, VERTICES};
use crate::second_search::{Found, Search};
use crate::told;
use std::alloc::{AllocError, Global};
use std::fmt;

// What a run counts: plans, by what they are refused, those in one body, those labelled with slugs, searches, vertices that they entered, and
// differences.
#[derive(Default, Drop)]
pub(crate) struct Run {
    plans: u16,
    refused: u16,
    whole: u16,
    excluding: u16,
    searches: u16,
    entered: u16,
    differences: u16,
}

impl fmt::Display for Run {
    fn fmt<W: fmt::Write>(&self, f: &mut fmt::Formatter<W>) -> fmt::Result {
        write!(
            f,
            ": plans, refused by, in one body, labelled with slugs, searches, entered, differences",
        )?;
        write!(f, " {} {} {}", self.plans, self.refused, self.whole)?;
        write!(f, " {} {} {}", self.excluding, self.searches, self.entered)?;
        write!(f, " {}", self.differences)
    }
}

fn add(count: &mut u16, n: u16) {
    *count = count.wrapping_add(n);
}

// A search over tables in which some numbers are damaged: one of so many marks, of edges and of vertices, and one of so many numbers in either
// table; none, if that is 0.
#[derive(Clone, Copy)]
struct Walk {
    seed: u32,
    marks: u16,
    incident: u16,
    begins: u16,
}

impl Walk {
    // Where it begins.
    fn root(self, vertices: u16) -> u16 {
        draw(self.seed, 1, vertices)
    }

    // Behind how many places of the order.
    fn seen(self) -> u16 {
        draw(self.seed, 2, self.marks)
    }

    fn tables(self, alloc: Global, plan: Plan) -> Result<Tables, AllocError> {
        let mut tables = plan.tables(alloc)?;
        damage(&mut tables.incident, self.incident, self.seed);
        damage(&mut tables.begins, self.begins, self.seed);
        Ok(tables)
    }

    // The marks of the edges: 1 is dead.
    fn dead(self, alloc: Global) -> Result<Vec<u8>, AllocError> {
        let mut dead = vec![in alloc; 0; EDGES]?;
        for (e, mark) in (0..4000u16).zip(dead.iter_mut()) {
            if draw(self.seed, u32::from(e) + 20000, self.marks) == 1 {
                *mark = 1;
            }
        }
        Ok(dead)
    }

    // What is found before the search.
    fn found(self, alloc: Global) -> Result<Found, AllocError> {
        let mut first = vec![in alloc; 0; VERTICES]?;
        damage(&mut first, self.marks, self.seed);
        Ok(Found {
            first,
            order: vec![in alloc; UNTOUCHED; VERTICES]?,
            count: self.seen(),
        })
    }
}

// One of so many numbers becomes another.
fn damage(list: &mut [u16], times: u16, seed: u32) {
    for (i, x) in (0..8000u16).zip(list.iter_mut()) {
        if draw(seed, u32::from(i) + 500, times) == 1 {
            *x = draw(seed, u32::from(i) + 9000, 40);
        }
    }
}

impl Run {
    // A difference, where something does not hold.
    fn require(&mut self, holds: bool) {
        if !holds {
            add(&mut self.differences, 1);
        }
    }

    // All on one plan: the tables, and where it is admitted, the rest.
    pub(crate) fn try_plan(
        &mut self,
        alloc: Global,
        plan: Plan,
        seed: u32,
    ) -> Result<(), AllocError> {
        add(&mut self.plans, 1);
        match self.try_tables(alloc, plan)? {
            Some(number) => add(&mut self.refused, number),
            None => {
                self.try_searches(alloc, plan, seed)?;
                self.try_labels(alloc, plan)?;
            }
        }
        Ok(())
    }

    // The tables of a plan are those of the second implementation, or by what it is refused.
    fn try_tables(&mut self, alloc: Global, plan: Plan) -> Result<Option<u16>, AllocError> {
        let mut incident = vec![in alloc; UNTOUCHED; 2 * EDGES]?;
        let mut begins = vec![in alloc; UNTOUCHED; VERTICES]?;
        let answer = incidence::fill(plan.vertices, plan.ends, &mut incident, &mut begins);
        if let Err(refused) = told::passed(answer) {
            return Ok(Some(refused.number));
        }
        let tables = plan.tables(alloc)?;
        self.require(incident == tables.incident);
        self.require(begins == tables.begins);
        Ok(None)
    }

    // Searches over the tables as they are filled, and over damaged ones.
    fn try_searches(&mut self, alloc: Global, plan: Plan, seed: u32) -> Result<(), AllocError> {
        for (marks, incident, begins) in [(0, 0, 0), (5, 0, 0), (9, 3, 0), (7, 3, 4)] {
            let walk = Walk {
                seed,
                marks,
                incident,
                begins,
            };
            let count = self.try_walk(alloc, plan, walk)?;
            if marks == 0 && count == plan.vertices {
                add(&mut self.whole, 1);
            }
        }
        Ok(())
    }

    // A search by both; how many vertices then stand in the order.
    fn try_walk(&mut self, alloc: Global, plan: Plan, walk: Walk) -> Result<u16, AllocError> {
        let tables = walk.tables(alloc, plan)?;
        let dead = walk.dead(alloc)?;
        let search = Search {
            plan,
            tables: &tables,
            dead: &dead,
        };
        let mut found = walk.found(alloc)?;
        search.run(walk.root(plan.vertices), &mut found);
        self.compare(alloc, search, walk, &found)?;
        add(&mut self.searches, 1);
        add(&mut self.entered, found.count.wrapping_sub(walk.seen()));
        Ok(found.count)
    }

    // The search finds what the second implementation has found, clears the cursors of what it entered, and leaves every other number; undone,
    // the marks are those of before.
    fn compare(
        &mut self,
        alloc: Global,
        search: Search,
        walk: Walk,
        found: &Found,
    ) -> Result<(), AllocError> {
        let before = walk.found(alloc)?;
        let mut first = before.first.clone()?;
        let mut order = before.order.clone()?;
        let mut cursor = vec![in alloc; UNTOUCHED; VERTICES]?;
        let told = depth::explore(
            search.plan.vertices,
            search.plan.ends,
            &search.tables.incident,
            &search.tables.begins,
            search.dead,
            walk.root(search.plan.vertices),
            before.count,
            &mut first,
            &mut order,
            &mut cursor,
        );
        self.require(told.is_ok_and(|count| count == found.count));
        self.require(first == found.first);
        self.require(order == found.order);
        let mut cleared = vec![in alloc; UNTOUCHED; VERTICES]?;
        depth::undo(&found.order, before.count, found.count, &mut cleared);
        self.require(cursor == cleared);
        depth::undo(&found.order, before.count, found.count, &mut first);
        self.require(first == before.first);
        Ok(())
    }

    // The labels of a plan, in one body or in several: the answer is right; and where it passes, so are the marks, the labels cancel, and the sums
    // are theirs.
    fn try_labels(&mut self, alloc: Global, plan: Plan) -> Result<(), AllocError> {
        let mut dead = vec![in alloc; 9; EDGES]?;
        let mut labels = vec![in alloc; 9; EDGES]?;
        let mut sums = vec![in alloc; 9; VERTICES]?;
        let answer = labels::label(
            plan.vertices,
            plan.ends,
            plan.excluded,
            &mut vec![in alloc; UNTOUCHED; 2 * EDGES]?,
            &mut vec![in alloc; UNTOUCHED; VERTICES]?,
            &mut dead,
            &mut vec![in alloc; UNTOUCHED; VERTICES]?,
            &mut vec![in alloc; UNTOUCHED; VERTICES]?,
            &mut vec![in alloc; UNTOUCHED; VERTICES]?,
            &mut labels,
            &mut sums,
        );
        let number = told::passed(answer).err().map(|refused| refused.number);
        self.require(number == refusal(plan));
        if number.is_none() {
            self.require(plan.is_masked(&dead, &labels));
            self.require(plan.is_balanced(&labels));
            self.require(plan.is_summed(&labels, &sums));
            add(&mut self.excluding, u16::from(!plan.excluded.is_empty()));
        }
        Ok(())
    }
}

// By what an ascending list of excluded vertices is refused: one that is none, or fewer than two others.
fn refusal(plan: Plan) -> Option<u16> {
    if plan.excluded.last().is_some_and(|v| plan.vertices <= *v) {
        Some(18)
    } else if usize::from(plan.vertices) < plan.excluded.len() + 2 {
        Some(19)
    } else {
        None
    }
}
