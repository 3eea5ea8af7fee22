// Which edges have like labels: an edge that disconnects alone has the label 0, and two that do so only together have the same. An entry with
// a mark in `dead` is no edge of the graph, and is passed over.
ghost use Rattle.std.specs.Prelude.{◌+◌, ◌<◌, ◌≤◌, length, get_or};
ghost use Rattle.graph.specs.Tells.{Tells};
ghost use Rattle.cuts.specs.Alike.{Chaining, Like, LowestLike};

// Whether `d` is an edge with this label.
pub(crate) fn is_like(labels: &[u64], dead: &[u8], label: u64, d: u16) -> bool
    requires { (d < length labels.now) × (d < length dead.now) }
    ensures { Tells result (Like labels.now dead.now label d) }
{
    let at = d as usize;
    dead[at] == 0 && labels[at] == label
}

// The lowest edge above `e` that has its label, if there is one: it is on the chain of `e`.
pub(crate) fn next_like(
    labels: &[u64],
    dead: &[u8],
    next: &[u16],
    edges: u16,
    e: u16,
) -> Option<u16>
    requires { (edges ≤ length labels.now) × (edges ≤ length dead.now) × Chaining edges labels.now next.now × (e < edges) }
    ensures { LowestLike labels.now dead.now (get_or labels.now e 0) (e + 1) edges result }
{
    let label = labels[e as usize];
    let mut x = next[e as usize];
    while x != 0 {
        let d = x - 1;
        if is_like(labels, dead, label, d) {
            return Some(d);
        }
        x = next[d as usize];
    }
    None
}
