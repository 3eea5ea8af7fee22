// The pieces that would fall, as C takes them: `fallen_texts_c` hands this function to C.
ghost use Rattle.connectivity.specs.Plan.{limits};
ghost use Rattle.text.specs.Column.{five, largest};
ghost use Rattle.fallen_texts.specs.Falls.{TextSize};

// The text of the pieces of a plan text that would fall; how many bytes it has, or 0 where `text` is shorter.
pub fn hearthtansy_fallen_text(plan: &[u8], text: &mut [u8]) -> usize
    ensures { TextSize five largest limits plan.now text.old text.new result }
{
    crate::fallen_text(plan, text).unwrap_or(0)
}
