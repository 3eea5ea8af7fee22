// The two ends of an edge, as a table of ends lists them.
ghost use Rattle.std.specs.Prelude.{◌≡◌, ◌*◌, ◌+◌, get_or};
ghost use Rattle.graph.specs.Ends.{far_end};

// The end of `e` that is not `v`; where the table ends before, an end counts as 0.
pub fn far_end(ends: &[u16], e: u16, v: u16) -> u16
    ensures { result ≡ far_end ends.now e v }
{
    let at = 2 * usize::from(e);
    let left = number_at(ends, at);
    if left == v {
        return number_at(ends, at + 1);
    }
    left
}

// The number at a place of a table, and 0 behind its end.
pub fn number_at(table: &[u16], place: usize) -> u16
    ensures { result ≡ get_or table.now place 0 }
{
    table.get(place).copied().unwrap_or(0)
}
