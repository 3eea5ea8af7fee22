// The writer: a verdict for every plan.
#![tactic(auto)]

ghost use Rattle.std.specs.Prelude.{◌≡◌, ◌≤◌};
ghost use Rattle.connectivity.specs.Plan.{plan, limits};
ghost use Rattle.removal.specs.Fallen.{removed_by};
ghost use Rattle.certify.specs.Answered.{Answered, weak_after, named};

use cuts::lowest::Lowest;
use graph::Answer;
use removal::Fallen;

// What is found of a plan that is not refused; a weak one's cut is named, and the vertices that fall with it.
#[derive(Clone, Copy)]
pub enum Finding {
    Firm,
    Weak { cut: Lowest, fallen: Fallen },
}

// The plan's own refusals; 6 unless `rows` has three numbers for each edge that is kept; then weak, or firm with the record at the front of
// `rows`.
pub fn verdict(
    vertices: u16,
    ends: &[u16],
    excluded: &[u16],
    rows: &mut [u16],
) -> Result<Finding, Answer>
    ensures { Answered limits (plan vertices ends.now excluded.now) rows.old rows.new result }
{
    match record::write_record(vertices, ends, excluded, rows)? {
        None => Ok(Finding::Firm),
        Some(cut) => weak(vertices, ends, excluded, cut),
    }
}

// Weak, with the vertices that fall when the edges of the cut are removed.
fn weak(vertices: u16, ends: &[u16], excluded: &[u16], cut: Lowest) -> Result<Finding, Answer>
    requires { cut.count ≤ 2 }
    ensures { result ≡ weak_after cut (removed_by limits (plan vertices ends.now excluded.now) (named cut)) }
{
    let list = [cut.first, cut.second];
    let count = cut.count as usize;
    let fallen = removal::remove(vertices, ends, excluded, &list[..count])?;
    Ok(Finding::Weak { cut, fallen })
}
