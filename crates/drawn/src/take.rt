// The drawn tabs that are wide enough: their ends and their drawn numbers, stored one behind the other.
ghost use Rattle.std.specs.Prelude.{◌≡◌, true, [], ◌∷◌, ◌+◌, ◌*◌, ◌≤◌, ◌<◌, length, drop};
ghost use Rattle.std.proofs.lemmas.List.Edits.{sets};
ghost use Rattle.connectivity.specs.Plan.{limits};
ghost use Rattle.drawn.specs.Drawing.{Drawn, all_ends, wide_ones, wide_numbers};
ghost use Rattle.drawn.specs.Text.{form, header_size, edges_fit, edges_in};
ghost use Rattle.drawn.specs.Line.{drawn, Stored};

use crate::line;
use crate::line::{HEADER, LINE};

// Stores the ends and the drawn number of each drawn tab with a gap of `least` or more, from the front of the tables on; how many there are.
pub(crate) fn store(
    text: &[u8],
    edges: usize,
    least: u32,
    ends: &mut [u16],
    numbers: &mut [u16],
) -> usize
    requires { (edges ≤ limits.edges) × (2 * edges ≤ length ends.old) × (edges ≤ length numbers.old) × (edges_fit form edges (drop (header_size form) text.now) ≡ true) }
    ensures { Stored least 0 0 (edges_in form edges (drop (header_size form) text.now)) ends.old numbers.old ends.new numbers.new result }
{
    let mut count = 0;
    for e in 0..edges {
        // The lines were judged: each is in the form.
        let edge = line::read_edge(text, HEADER + e * LINE).unwrap();
        count = put(
            edge.left, edge.right, edge.gap, least, e, ends, numbers, count,
        );
    }
    count
}

// Stores one of them behind `count` others, if its gap is wide enough; how many there are then.
fn put(
    left: u16,
    right: u16,
    gap: u32,
    least: u32,
    e: usize,
    ends: &mut [u16],
    numbers: &mut [u16],
    count: usize,
) -> usize
    requires { (e < limits.edges) × (2 * count + 2 ≤ length ends.old) × (count < length numbers.old) }
    ensures { Stored least e count (drawn left right gap ∷ []) ends.old numbers.old ends.new numbers.new result }
{
    if gap < least {
        return count;
    }
    ends[2 * count] = left;
    ends[2 * count + 1] = right;
    numbers[count] = e as u16;
    count + 1
}
