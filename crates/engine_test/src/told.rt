// What the library answers, as results.
use cuts::lowest::Lowest;
use graph::Answer;

pub(crate) fn passed(answer: Answer) -> Result<(), Answer> {
    if answer.number == 0 {
        Ok(())
    } else {
        Err(answer)
    }
}

// How many tabs the lowest cut has, and which; unused ones are 0. None where there is no cut.
pub(crate) fn lightest(told: Result<Option<Lowest>, Answer>) -> Result<Option<[u16; 3]>, Answer> {
    match told? {
        None => Ok(None),
        Some(cut) => Ok(Some([cut.count, cut.first, cut.second])),
    }
}
