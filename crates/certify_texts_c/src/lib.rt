// The writer for C: include/hearthtansy_writer.h declares these functions. A slice is a pointer and a length.
// They are those of the same names in `certify_texts::export`, and promise the same.
#![tactic(auto)]

ghost use Rattle.std.specs.Prelude.{length};
ghost use Rattle.connectivity.specs.Plan.{plan, limits};
ghost use Rattle.text.specs.Column.{five, largest};
ghost use Rattle.certify_texts.specs.Packed.{Packed, Marks, TextSize};

use removal::Fallen;

// The verdict on a plan; a firm one's record stands at the front of `rows`, the pieces that fall with a weak one are marked in `fallen`.
#[unsafe(no_mangle)]
pub extern "C" fn hearthtansy_verdict(
    vertices: u16,
    ends: &[u16],
    excluded: &[u16],
    rows: &mut [u16],
    fallen: &mut [u64; Fallen::WORDS],
    marked: &mut u16,
) -> u64
    ensures { Packed limits (plan vertices ends.now excluded.now) rows.old rows.new result × Marks limits (plan vertices ends.now excluded.now) (length rows.old) fallen.old fallen.new marked.new }
{
    certify_texts::export::hearthtansy_verdict(vertices, ends, excluded, rows, fallen, marked)
}

// The verdict text of a plan text; how many bytes it has, or 0 where `text` is shorter.
#[unsafe(no_mangle)]
pub extern "C" fn hearthtansy_verdict_text(plan: &[u8], text: &mut [u8]) -> usize
    ensures { TextSize five largest limits plan.now text.old text.new result }
{
    certify_texts::export::hearthtansy_verdict_text(plan, text)
}
