// Groups in a table: each vertex has the lowest vertex of its group.
ghost use Rattle.std.specs.Prelude.{◌≡◌, cond, List, ℕ, ◌+◌, ◌<◌, ◌≤◌, eqb, length, get_or};
ghost use Rattle.connectivity.specs.Plan.{plan};
ghost use Rattle.depth.specs.Depth.{root_mark};
ghost use Rattle.depth.specs.Forest.{RootsLow};
ghost use Rattle.graph.specs.Marks.{read};
ghost use Rattle.graph.specs.Tells.{Tells};
ghost use Rattle.labels.specs.Answered.{ForestOf};
ghost use Rattle.components.specs.Bodies.{Ordered, Bodied};
ghost use Rattle.components.specs.Splitting.{unseen, Parted, Placing};

// The bodies, from a spanning forest: the root of each tree is the lowest vertex of its body. An excluded vertex is in a group alone.
pub(crate) fn bodies(vertices: u16, first: &[u16], order: &[u16], table: &mut [u16])
    requires { Ordered vertices first.now order.now table.old }
    ensures { (ends excluded : List ℕ) → ForestOf (plan vertices ends excluded) first.now order.now → RootsLow vertices (read first.now) (read order.now) → Bodied (plan vertices ends excluded) table.old table.new }
{
    let mut root = 0;
    for &v in &order[..vertices as usize] {
        root = root_of(v, first, root);
        table[v as usize] = root;
    }
}

// v, if it is a root; else the last one.
fn root_of(v: u16, first: &[u16], root: u16) -> u16
    requires { v < length first.now }
    ensures { result ≡ cond (eqb (get_or first.now v 0) root_mark) v root }
{
    if first[v as usize] == 65535 {
        return v;
    }
    root
}

// Takes each group apart into the vertices that have a mark and those that have none. `other` is room for a number for each vertex.
pub(crate) fn split(vertices: u16, marks: &[u16], other: &mut [u16], table: &mut [u16])
    requires { Placing vertices 0 marks.now other.old table.old table.old }
    ensures { Parted vertices (unseen marks.now) (read table.old) (read table.new) }
{
    for v in 0..vertices {
        place(v, marks, other, table);
    }
}

// v stays with the lowest vertex of its group if both are on one side, else it joins the first of that group on the other side: `other` of the
// lowest has it, or 0 where there is none so far.
fn place(v: u16, marks: &[u16], other: &mut [u16], table: &mut [u16])
    requires { (v < length marks.now) × (v < length other.old) × (v < length table.old) × (get_or table.old v 0 ≤ v) }
    ensures { (n : ℕ) (before : List ℕ) → v < n → Placing n v marks.now other.old before table.old → Placing n (v + 1) marks.now other.new before table.new }
{
    let at = v as usize;
    let lowest = table[at] as usize;
    if lowest == at {
        other[at] = 0;
        return;
    }
    if is_alike(marks[at], marks[lowest]) {
        return;
    }
    let first = other[lowest];
    if first == 0 {
        other[lowest] = v;
        table[at] = v;
        return;
    }
    table[at] = first;
}

// Whether both or neither is 0.
fn is_alike(a: u16, b: u16) -> bool
    ensures { Tells result (eqb a 0 ≡ eqb b 0) }
{
    (a == 0) == (b == 0)
}
