// The places of built vertices: 0 is not built, 1 a branch, any other the link that a vertex lies inside of. Of each link its tips are known, the top
// and then the bottom, one more than their numbers; a top of 0 where nothing lies inside.
ghost use Rattle.std.specs.Prelude.{◌≡◌, ◌+◌, ◌*◌, ◌<◌, ◌≤◌, length};
ghost use Rattle.connectivity.specs.Plan.{limits};
ghost use Rattle.graph.specs.Marks.{read};
ghost use Rattle.record.specs.Ways.{next_up};
ghost use Rattle.record.specs.Linking.{with_tips, Splitting, PartedBy, Ending, BothBy, Building, WalkedBy};
ghost use Rattle.record.specs.Parting.{Between, Cutting, CutAt, TopCut, InsideCut};

use crate::walk;

// A link's tips after a cut, and those of the part that becomes a link of its own: one more than their numbers, 0 where nothing is left.
#[derive(Drop)]
struct Tips {
    top: u16,
    bottom: u16,
    high: u16,
    low: u16,
}

// A vertex becomes a branch. If it lies inside a link, the shorter part of that becomes a link of its own; the next free place then.
pub(crate) fn split(
    ends: &[u16],
    first: &[u16],
    below: &[u16],
    v: u16,
    next: u16,
    places: &mut [u16],
    tips: &mut [u16],
) -> u16
    requires { Splitting limits ends.now first.now below.now v next places.old tips.old }
    ensures { PartedBy limits ends.now first.now below.now v next places.old tips.old places.new tips.new result }
{
    let own = places[v as usize];
    if own == 1 {
        return next;
    }
    places[v as usize] = 1;
    let k = 2 * (own as usize);
    let c = cut(ends, first, below, v, tips[k], tips[k + 1]);
    set_tips(tips, own, c.top, c.bottom);
    if c.high == 0 {
        return next;
    }
    walk::mark_up(ends, first, c.low - 1, c.high - 1, next, places);
    set_tips(tips, next, c.high, c.low);
    next + 1
}

fn set_tips(tips: &mut [u16], m: u16, top: u16, bottom: u16)
    requires { 2 * m + 2 ≤ length tips.old }
    ensures { tips.new ≡ with_tips tips.old m top bottom }
{
    let k = 2 * (m as usize);
    tips[k] = top;
    tips[k + 1] = bottom;
}

// How a link with these tips is cut at `v`, which it loses. The shorter part becomes a link.
fn cut(ends: &[u16], first: &[u16], below: &[u16], v: u16, top: u16, bottom: u16) -> Tips
    requires { Cutting limits ends.now first.now below.now v top bottom }
    ensures { CutAt v top bottom (next_up ends.now first.now v + 1) (read below.now v) result.top result.bottom result.high result.low }
{
    let down = below[v as usize];
    if v + 1 == top {
        return cut_top(v, top, bottom, down);
    }
    let up = walk::above(ends, first, v) + 1;
    if v + 1 == bottom {
        return Tips {
            top,
            bottom: up,
            high: 0,
            low: 0,
        };
    }
    cut_inside(
        is_upper_shorter(ends, first, v, top - 1, bottom - 1),
        top,
        bottom,
        up,
        down,
    )
}

// The top is cut off.
fn cut_top(v: u16, top: u16, bottom: u16, down: u16) -> Tips
    requires { (v + 1 ≡ top) × (v < limits.vertices) }
    ensures { TopCut v top bottom down result.top result.bottom result.high result.low }
{
    if v + 1 == bottom {
        return Tips {
            top: 0,
            bottom,
            high: 0,
            low: 0,
        };
    }
    Tips {
        top: down,
        bottom,
        high: 0,
        low: 0,
    }
}

// A vertex between the tips is cut out, with `up` above it and `down` below: the upper part becomes a link, or the lower one.
fn cut_inside(is_upper: bool, top: u16, bottom: u16, up: u16, down: u16) -> Tips
    ensures { InsideCut top bottom up down result.top result.bottom result.high result.low }
{
    if is_upper {
        return Tips {
            top: down,
            bottom,
            high: top,
            low: up,
        };
    }
    Tips {
        top,
        bottom: up,
        high: down,
        low: bottom,
    }
}

// Whether the part of a link above `v` is not longer than the one below: the ways from `v` to the top and from the bottom to `v` go on side by side.
fn is_upper_shorter(ends: &[u16], first: &[u16], v: u16, top: u16, bottom: u16) -> bool
    requires { Between limits ends.now first.now v top bottom }
{
    let mut a = v;
    let mut b = bottom;
    while a != top {
        if b == v {
            return false;
        }
        a = walk::above(ends, first, a);
        b = walk::above(ends, first, b);
    }
    true
}

// Both vertices become branches; the next free place then.
pub(crate) fn split_both(
    ends: &[u16],
    first: &[u16],
    below: &[u16],
    v: u16,
    w: u16,
    next: u16,
    places: &mut [u16],
    tips: &mut [u16],
) -> u16
    requires { Ending limits ends.now first.now below.now v w next places.old tips.old }
    ensures { BothBy limits ends.now first.now below.now v w next places.old tips.old places.new tips.new result }
{
    let one = split(ends, first, below, v, next, places, tips);
    split(ends, first, below, w, one, places, tips)
}

// Builds the edge `e` and the way up from `v` to `stop`, whose inside, if it has one, gets the place `next`; the next free place then.
pub(crate) fn build_walk(
    ends: &[u16],
    first: &[u16],
    e: u16,
    v: u16,
    stop: u16,
    next: u16,
    places: &mut [u16],
    below: &mut [u16],
    tips: &mut [u16],
    over: &mut [u16],
) -> u16
    requires { Building limits ends.now first.now e v stop next places.old below.old tips.old over.old }
    ensures { WalkedBy limits ends.now first.now e v stop next places.old below.old tips.old over.old places.new below.new tips.new over.new result }
{
    over[e as usize] = 0;
    if v == stop {
        return next;
    }
    let top = walk::build_up(ends, first, v, stop, below, over);
    walk::mark_up(ends, first, v, top, next, places);
    set_tips(tips, next, top + 1, v + 1);
    next + 1
}
