// The writer as C takes it: `certify_texts_c` hands these functions to C.
ghost use Rattle.std.specs.Prelude.{◌≡◌, length};
ghost use Rattle.connectivity.specs.Plan.{plan, limits};
ghost use Rattle.text.specs.Column.{five, largest};
ghost use Rattle.certify.specs.Answered.{handed, fallen_in};
ghost use Rattle.certify_texts.specs.Packed.{four, packed, words_of, Packed, Marks, TextSize};

use certify::Finding;
use graph::Answer;
use removal::Fallen;

// The verdict on a plan; a firm one's record stands at the front of `rows`, the pieces that fall with a weak one are marked in `fallen`.
pub fn hearthtansy_verdict(
    vertices: u16,
    ends: &[u16],
    excluded: &[u16],
    rows: &mut [u16],
    fallen: &mut [u64; Fallen::WORDS],
    marked: &mut u16,
) -> u64
    ensures { Packed limits (plan vertices ends.now excluded.now) rows.old rows.new result × Marks limits (plan vertices ends.now excluded.now) (length rows.old) fallen.old fallen.new marked.new }
{
    let found = certify::verdict(vertices, ends, excluded, rows);
    *marked = hand_over(found, fallen);
    pack(found)
}

// The verdict text of a plan text; how many bytes it has, or 0 where `text` is shorter.
pub fn hearthtansy_verdict_text(plan: &[u8], text: &mut [u8]) -> usize
    ensures { TextSize five largest limits plan.now text.old text.new result }
{
    crate::verdict_text(plan, text).unwrap_or(0)
}

// The words of those who fall with a weak plan; and how many do.
fn hand_over(found: Result<Finding, Answer>, words: &mut [u64; Fallen::WORDS]) -> u16
    ensures { (result ≡ (fallen_in limits found).count) × (words.new ≡ words_of found words.old) }
{
    let Ok(Finding::Weak { fallen, .. }) = found else {
        return 0;
    };
    let marks = fallen.words;
    *words = marks;
    fallen.count
}

fn pack(found: Result<Finding, Answer>) -> u64
    ensures { result ≡ packed (handed found) }
{
    match found {
        Ok(Finding::Firm) => 0,
        Ok(Finding::Weak { cut, .. }) => join(1, cut.count, cut.first, cut.second),
        Err(answer) => join(2, answer.number, answer.place, 0),
    }
}

// Four numbers in one.
fn join(a: u16, b: u16, c: u16, d: u16) -> u64
    ensures { result ≡ four a b c d }
{
    ((a as u64 * 65536 + b as u64) * 65536 + c as u64) * 65536 + d as u64
}
