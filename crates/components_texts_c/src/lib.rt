// The groups for C: include/hearthtansy_writer.h declares these functions. A slice is a pointer and a length.
// They are those of the same names in `components_texts::export`, and promise the same.
#![tactic(auto)]

ghost use Rattle.connectivity.specs.Plan.{plan, limits};
ghost use Rattle.text.specs.Column.{five, largest};
ghost use Rattle.components_texts.specs.Export.{Packed, TextSize};

// The groups of a plan, at the front of `table`.
#[unsafe(no_mangle)]
pub extern "C" fn hearthtansy_groups(
    vertices: u16,
    ends: &[u16],
    excluded: &[u16],
    table: &mut [u16],
) -> u32
    ensures { Packed limits (plan vertices ends.now excluded.now) table.old table.new result }
{
    components_texts::export::hearthtansy_groups(vertices, ends, excluded, table)
}

// The text of the groups of a plan text; how many bytes it has, or 0 where `text` is shorter.
#[unsafe(no_mangle)]
pub extern "C" fn hearthtansy_groups_text(plan: &[u8], text: &mut [u8]) -> usize
    ensures { TextSize five largest limits plan.now text.old text.new result }
{
    components_texts::export::hearthtansy_groups_text(plan, text)
}
