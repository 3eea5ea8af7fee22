// The groups as C takes them: `components_texts_c` hands these functions to C.
ghost use Rattle.connectivity.specs.Plan.{plan, limits};
ghost use Rattle.text.specs.Column.{five, largest};
ghost use Rattle.components_texts.specs.Export.{Packed, TextSize};

// The groups of a plan, at the front of `table`.
pub fn hearthtansy_groups(vertices: u16, ends: &[u16], excluded: &[u16], table: &mut [u16]) -> u32
    ensures { Packed limits (plan vertices ends.now excluded.now) table.old table.new result }
{
    verify_texts::board::pack(components::find(vertices, ends, excluded, table))
}

// The text of the groups of a plan text; how many bytes it has, or 0 where `text` is shorter.
pub fn hearthtansy_groups_text(plan: &[u8], text: &mut [u8]) -> usize
    ensures { TextSize five largest limits plan.now text.old text.new result }
{
    crate::groups_text(plan, text).unwrap_or(0)
}
