// What a try needs of its edges: the end that was found over one, and a mark for two. A place behind a table's end counts as 0, and is given no mark.
ghost use Rattle.std.specs.Prelude.{◌≡◌, set};
ghost use Rattle.cuts.specs.Tries.{lower_end};

use graph::ends::number_at;

// The end of `e` of which it is the first edge, if there is one; else the second.
pub fn lower_end(ends: &[u16], first: &[u16], e: u16) -> u16
    ensures { result ≡ lower_end ends.now first.now e }
{
    let at = 2 * usize::from(e);
    let v = number_at(ends, at);
    let found = number_at(first, usize::from(v));
    if usize::from(found) == usize::from(e) + 1 {
        return v;
    }
    number_at(ends, at + 1)
}

// Gives both edges a mark.
pub fn mark(e: u16, d: u16, value: u8, dead: &mut [u8])
    ensures { dead.new ≡ set (set dead.old e value) d value }
{
    put(e, value, dead);
    put(d, value, dead);
}

fn put(e: u16, value: u8, dead: &mut [u8])
    ensures { dead.new ≡ set dead.old e value }
{
    let place = usize::from(e);
    if place < dead.len() {
        dead[place] = value;
    }
}
