// The second implementation: searches.
use crate::plan::Plan;
use crate::second::Tables;

// The mark of a root.
const ROOT: u16 = 65535;

// A depth-first search of a plan over the edges that the tables list and that are not dead.
#[derive(Clone, Copy)]
pub(crate) struct Search<'a> {
    pub(crate) plan: Plan<'a>,
    pub(crate) tables: &'a Tables,
    pub(crate) dead: &'a [u8],
}

// What a search has found: the marks of the vertices, 0 where it has not been; the vertices in order, and how many.
#[derive(Drop)]
pub(crate) struct Found {
    pub(crate) first: Vec<u16>,
    pub(crate) order: Vec<u16>,
    pub(crate) count: u16,
}

impl Found {
    fn is_marked(&self, v: u16) -> bool {
        self.first.get(usize::from(v)) != Some(&0)
    }

    fn enter(&mut self, v: u16, mark: u16) {
        if let Some(first) = self.first.get_mut(usize::from(v)) {
            *first = mark;
        }
        if let Some(next) = self.order.get_mut(usize::from(self.count)) {
            *next = v;
        }
        self.count = self.count.wrapping_add(1);
    }
}

impl<'a> Search<'a> {
    // Searches from `root`, which is a vertex, behind what is found already.
    pub(crate) fn run(&self, root: u16, found: &mut Found) {
        if self.plan.vertices <= found.count || found.is_marked(root) {
            return;
        }
        found.enter(root, ROOT);
        let mut at = root;
        // at most once on to each vertex, and once back
        for _ in 0..2 * usize::from(self.plan.vertices) {
            match self.step(at, found) {
                Some(next) => at = next,
                None => return,
            }
        }
    }

    // On to the next vertex without a mark, or back; None from the root.
    fn step(&self, v: u16, found: &mut Found) -> Option<u16> {
        if found.count < self.plan.vertices
            && let Some((e, w)) = self.onward(v, found)
        {
            found.enter(w, e.wrapping_add(1));
            return Some(w);
        }
        self.back(v, found)
    }

    // The vertex from which v was entered.
    fn back(&self, v: u16, found: &Found) -> Option<u16> {
        let mark = *found.first.get(usize::from(v))?;
        self.plan.far(mark.checked_sub(1)?, v)
    }

    // The first edge in the group of v that leads to a vertex without a mark, and that vertex.
    fn onward(&self, v: u16, found: &Found) -> Option<(u16, u16)> {
        for &e in self.group(v) {
            if self.dead.get(usize::from(e)) == Some(&0)
                && let Some(w) = self.plan.far(e, v)
                && w < self.plan.vertices
                && !found.is_marked(w)
            {
                return Some((e, w));
            }
        }
        None
    }

    // The edges that the tables list at v: up to where the next group begins, but not behind the ends.
    fn group(&self, v: u16) -> &'a [u16] {
        let tables = self.tables;
        let size = self.plan.ends.len();
        let v = usize::from(v);
        let begin = tables.begins.get(v).copied().map_or(size, usize::from);
        let end = if v + 1 < usize::from(self.plan.vertices) {
            tables.begins.get(v + 1).copied().map_or(size, usize::from)
        } else {
            size
        };
        part(&tables.incident, begin, end.min(size))
    }
}

// What stands between two places; nothing where there are no such places.
fn part(list: &[u16], from: usize, to: usize) -> &[u16] {
    list.get(from..to).unwrap_or(&[])
}
