// Chains of edges: all edges whose labels have the same key stand on one chain, ascending, so that edges with like labels are found
// without a look at the others.
#![tactic(auto)]

ghost use Rattle.std.specs.Prelude.{◌≡◌, not, ◌<◌, ◌≤◌, length};
ghost use Rattle.graph.specs.Tells.{Tells};
ghost use Rattle.chains.specs.Chains.{key_of, Chained};
ghost use Rattle.chains.specs.Parts.{Linked, Linking};

use graph::Answer;

// Refuses by 6 unless `labels` and `next` have a place for each edge and `heads` has one at least. Else `heads` gets the first edge of
// each chain, and `next` what follows each edge on its chain: one more than an edge's number, 0 for none.
pub fn chain(edges: u16, labels: &[u64], next: &mut [u16], heads: &mut [u16]) -> Answer
    ensures { Chained edges labels.now next.old heads.old next.new heads.new result }
{
    if is_short(edges, labels.len(), next.len(), heads.len()) {
        return Answer {
            number: 6,
            place: 0,
        };
    }
    heads.fill(0); // every chain is empty
    link(edges, labels, next, heads);
    Answer {
        number: 0,
        place: 0,
    }
}

// Whether one of the lent tables, of which these are the lengths, is too short.
fn is_short(edges: u16, labels: usize, next: usize, heads: usize) -> bool
    ensures { Tells (not result) ((edges ≤ labels) × ((edges ≤ next) × (0 < heads))) }
{
    let m = edges as usize;
    if labels < m {
        return true;
    }
    if next < m {
        return true;
    }
    if heads == 0 {
        return true;
    }
    false
}

// Puts each edge before those of its chain, from the last edge to the first.
fn link(edges: u16, labels: &[u64], next: &mut [u16], heads: &mut [u16])
    requires { Linking edges labels.now next.old heads.old }
    ensures { Linked edges 0 (length heads.old) labels.now next.old next.new heads.new }
{
    for e in (0..edges).rev() {
        let at = e as usize;
        let i = key(labels[at], heads.len());
        next[at] = heads[i];
        heads[i] = e + 1;
    }
}

// The chain for a label, of `size` chains. The remainder of 32 bits is cheaper than that of 64.
fn key(label: u64, size: usize) -> usize
    requires { 0 < size }
    ensures { (result ≡ key_of size label) × (result < size) }
{
    ((label % 4294967296) % (size as u64)) as usize
}
