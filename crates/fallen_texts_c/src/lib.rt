// The pieces that would fall, for C: include/hearthtansy_writer.h declares this function. A slice is a pointer and a length.
// It is the one of the same name in `fallen_texts::export`, and promises the same.
#![tactic(auto)]

ghost use Rattle.connectivity.specs.Plan.{limits};
ghost use Rattle.text.specs.Column.{five, largest};
ghost use Rattle.fallen_texts.specs.Falls.{TextSize};

// The text of the pieces of a plan text that would fall; how many bytes it has, or 0 where `text` is shorter.
#[unsafe(no_mangle)]
pub extern "C" fn hearthtansy_fallen_text(plan: &[u8], text: &mut [u8]) -> usize
    ensures { TextSize five largest limits plan.now text.old text.new result }
{
    fallen_texts::export::hearthtansy_fallen_text(plan, text)
}
