// What the library answers, in the words of the second implementation.
use crate::plan::Plan;
use crate::second::{Reason, Refusal};

// The groups, into a table that is lent. An answer 0 with a place is none.
pub(crate) fn groups(plan: &Plan, table: &mut [u16]) -> Result<(), Refusal> {
    let answer = components::find(
        plan.pieces,
        plan.ends.as_slice(),
        plan.slugs.as_slice(),
        table,
    );
    if answer.number == 0 && answer.place == 0 {
        return Ok(());
    }
    Err(Refusal {
        reason: reason(answer.number),
        place: usize::from(answer.place),
    })
}

fn reason(number: u16) -> Reason {
    Reason::ALL
        .iter()
        .copied()
        .find(|reason| *reason as u16 == number)
        .unwrap_or(Reason::Unknown)
}
