// A list of acts as text: a number on each line.
ghost use Rattle.looplist.specs.Listing.{Lists};

use text::read::numbers_row;

// Why a list is not run: the first line, counted from 1, that is no act; or the buffer cannot hold them all.
#[derive(Clone, Copy, Debug, PartialEq, Eq)]
pub enum BadList {
    NoAct(usize),
    TooMany,
}

// Reads the acts of a text into the buffer: how many stand at its front.
pub(crate) fn list_acts(text: &[u8], acts: &mut [u32]) -> Result<usize, BadList>
    ensures { Lists text.now result acts.old acts.new }
{
    let mut at = 0;
    for (count, act) in acts.iter_mut().enumerate() {
        if text.len() <= at {
            return Ok(count);
        }
        let Some(row) = numbers_row::<1>(text, at) else {
            return Err(BadList::NoAct(count + 1));
        };
        let [number] = row.numbers;
        *act = number;
        at = row.next;
    }
    if at < text.len() {
        return Err(BadList::TooMany);
    }
    Ok(acts.len())
}
