// A second, simple implementation of the verdict, of what falls and of the check (second_check.rt), read from documents 01 and 02 alone: it tries
// every set of edges, and counts everything anew for each. It is meant for plans of at most 16 vertices and 16 edges.
use crate::plan::Plan;
use crate::set::Set;
use crate::verdict::{Cut, Refusal, Rule, Verdict};

// A plan that is not refused, with the vertices that are not excluded and the edges between these.
#[derive(Clone, Copy)]
pub struct Graph<'a> {
    plan: Plan<'a>,
    pub kept: Set,
    pub edges: Set,
}

impl<'a> Graph<'a> {
    // The plan's own refusals.
    pub fn admitted(plan: Plan<'a>) -> Result<Self, Refusal> {
        let ends = plan.ends;
        if ends.len() % 2 == 1 {
            return Err(Rule::OddEnds.at(0));
        }
        if plan.vertices < 2 || plan.vertices > 1000 {
            return Err(Rule::Vertices.at(0));
        }
        if ends.len() > 8000 {
            return Err(Rule::Edges.at(0));
        }
        plan.fits()?;
        plan.ascends()?;
        let kept = Set::of_all(|v| v < plan.vertices && !plan.excluded.contains(&v));
        if kept.count() < 2 {
            return Err(Rule::FewKept.at(0));
        }
        let edges = Set::of_all(|edge| {
            let ends = plan.ends_of(edge);
            ends.count() == 2 && ends.without(kept) == Set::EMPTY
        });
        Ok(Graph { plan, kept, edges })
    }

    // The two ends of an edge; none, if there is no such edge.
    pub fn ends_of(self, edge: u16) -> Set {
        self.plan.ends_of(edge)
    }

    // The edges that end at one of these vertices.
    pub fn edges_at(self, vertices: Set) -> Set {
        Set::of_all(|edge| self.ends_of(edge).meets(vertices))
    }

    // The vertices at which so many of these edges end, or more.
    pub fn of_degree(self, edges: Set, least: usize) -> Set {
        Set::of_all(|v| edges.and(self.edges_at(Set::of(v))).count() >= least)
    }

    // The vertices that are reached from some over these edges, past no barred vertex: passes until nothing changes, which 16 vertices have
    // after 16.
    pub fn reached(self, edges: Set, barred: Set, start: Set) -> Set {
        let mut set = start;
        for _ in 0..16 {
            let more = self.pass(edges, barred, set);
            if more == set {
                break;
            }
            set = more;
        }
        set
    }

    // One pass over the edges: both ends of one are reached if one is.
    fn pass(self, edges: Set, barred: Set, start: Set) -> Set {
        let mut set = start;
        for edge in 0..self.plan.edges() {
            let ends = self.ends_of(edge);
            if edges.has(edge) && ends.meets(set) && !ends.meets(barred) {
                set = set.or(ends);
            }
        }
        set
    }

    // What the lowest vertex reaches in the graph without some edges.
    fn stays(self, gone: Set) -> Set {
        self.reached(self.edges.without(gone), Set::EMPTY, self.kept.lowest())
    }

    // Whether the graph without some edges is not connected: its lowest vertex does not reach all.
    pub fn is_parted(self, gone: Set) -> bool {
        self.stays(gone) != self.kept
    }

    // The lowest edge, from one on, that parts the graph together with those that are gone, which alone don't.
    fn lowest(self, gone: Set, from: u16) -> Option<u16> {
        (from..self.plan.edges()).find(|&edge| self.is_parted(gone.with(edge)))
    }

    // The lowest pair of edges that parts the graph, of which no edge does so alone.
    fn lowest_pair(self) -> Option<Cut> {
        for first in 0..self.plan.edges() {
            if let Some(second) = self.lowest(Set::of(first), first + 1) {
                return Some(Cut::Two(first, second));
            }
        }
        None
    }

    // The fewest edges that part the graph, the lowest of those, if there are at most two.
    fn lightest_cut(self) -> Option<Cut> {
        if self.is_parted(Set::EMPTY) {
            return Some(Cut::Nothing);
        }
        match self.lowest(Set::EMPTY, 0) {
            Some(edge) => Some(Cut::One(edge)),
            None => self.lowest_pair(),
        }
    }
}

impl Plan<'_> {
    fn edges(self) -> u16 {
        u16::try_from(self.ends.len() / 2).unwrap_or(u16::MAX)
    }

    // The two ends of an edge.
    fn pair(self, edge: u16) -> Option<(u16, u16)> {
        let first = 2 * usize::from(edge);
        match self.ends.get(first..first + 2)? {
            &[a, b] => Some((a, b)),
            _ => None,
        }
    }

    // These as a set; none, if there is no such edge.
    fn ends_of(self, edge: u16) -> Set {
        match self.pair(edge) {
            Some((a, b)) => Set::of(a).with(b),
            None => Set::EMPTY,
        }
    }

    // Both ends of each edge are vertices, and not the same.
    fn fits(self) -> Result<(), Refusal> {
        for edge in 0..self.edges() {
            if let Some((a, b)) = self.pair(edge) {
                if a >= self.vertices || b >= self.vertices {
                    return Err(Rule::NoVertex.at(edge));
                }
                if a == b {
                    return Err(Rule::SameEnds.at(edge));
                }
            }
        }
        Ok(())
    }

    // The excluded vertices are vertices, each above the one before.
    fn ascends(self) -> Result<(), Refusal> {
        let mut before = None;
        for (place, &v) in self.excluded.iter().enumerate() {
            if v >= self.vertices || before.is_some_and(|lower| v <= lower) {
                return Err(Rule::Excluded.at((place % 65536) as u16));
            }
            before = Some(v);
        }
        Ok(())
    }
}

// The verdict on a plan, where `space` numbers are lent for the record.
pub fn verdict(plan: Plan<'_>, space: usize) -> Result<Verdict, Refusal> {
    let graph = Graph::admitted(plan)?;
    if space < 3 * graph.edges.count() {
        return Err(Rule::Space.at(0));
    }
    match graph.lightest_cut() {
        Some(cut) => Ok(Verdict::Weak(cut)),
        None => Ok(Verdict::Firm),
    }
}

// The vertices that fall with the edges of a weak verdict; with any other none.
pub fn fallen(plan: Plan<'_>, verdict: Result<Verdict, Refusal>) -> Set {
    match (Graph::admitted(plan), verdict) {
        (Ok(graph), Ok(Verdict::Weak(cut))) => graph.kept.without(graph.stays(edges_in(cut))),
        _ => Set::EMPTY,
    }
}

fn edges_in(cut: Cut) -> Set {
    match cut {
        Cut::Nothing => Set::EMPTY,
        Cut::One(edge) => Set::of(edge),
        Cut::Two(first, second) => Set::of(first).with(second),
    }
}
