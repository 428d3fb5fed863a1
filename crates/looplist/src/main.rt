// Replays a recorded order of acts on a case, both files named on the command line, and prints what came of it: refusal,
// verdict, acts and tallies, a line each, then the answer where there is one. No act is guessed: a bad list is not run.
#![tactic(auto)]

mod acts;
mod complaint;
mod page;

ghost use Rattle.std.specs.Prelude.{◌≡◌, ◌+◌, ◌≤◌, ◌<◌, ◌^◌, length, Some};
ghost use Rattle.model.specs.Case.{least_output, least_work};
ghost use Rattle.looplist.specs.Printing.{head_room, printed};

use acts::list_acts;
use casefile::Case;
use complaint::complain_of;
use desk::{ENOUGH, ErrorOutput};
use page::write_head;
use search::run_list;
use std::rt::{Env, Files};
use text::write::Writer;

// The most acts of a list: with its text, which has at most 10 bytes a line, what 8 MB of stack hold.
pub(crate) const MOST_ACTS: usize = 400000;

// One byte more than the most acts need: what is read of a longer list is then what all of it says (FrontDecides in
// specs/Listing.antt).
const TEXT: usize = 4000001;

// Room for an answer behind the lines in front.
const PAGE: usize = Case::LEAST_OUTPUT + 128;

// Which argument names which file.
const CASE: usize = 1;

pub(crate) const ACTS: usize = 2;

// What is to be printed of a case and a list, as the page's first bytes.
fn replay<'a>(
    case: &[u8],
    acts: &[u32],
    output: &mut [u8],
    work: &mut [i32],
    page: &'a mut Writer,
) -> &'a [u8]
    requires { (least_output ≤ length output.old) × (least_work ≤ length work.old) × (page.old.end ≡ Some 0) × (head_room + length output.old ≤ length page.old.output.now) × (length acts.now < 2 ^ 32) }
    ensures { result.now ≡ printed case.now acts.now }
{
    let outcome = run_list(case, acts, output, work);
    write_head(page, outcome);
    page.bytes(&output[..outcome.written as usize]);
    page.written()
}

fn print_replay<R: Print + ErrorOutput>(rt: &R, case: &[u8], acts: &[u32])
    requires { length acts.now < 2 ^ 32 }
{
    let mut output = [0u8; Case::LEAST_OUTPUT];
    let mut work = [0i32; Case::LEAST_WORK];
    let mut page = [0u8; PAGE];
    let mut page = Writer::new(&mut page);
    desk::print(rt, replay(case, acts, &mut output, &mut work, &mut page));
}

fn replay_text<R: Env + Print + ErrorOutput>(rt: &R, case: &[u8], text: &[u8]) {
    let mut acts = [0u32; MOST_ACTS];
    match list_acts(text, &mut acts) {
        Ok(n) => print_replay(rt, case, &acts[..n]),
        Err(bad) => complain_of(rt, bad),
    }
}

// The list is read once the case has been, in a function of its own: beside that buffer the check counts the bytes of this one.
fn replay_file<R: Env + Files + Print + ErrorOutput>(rt: &R, case: &[u8]) {
    let mut text = [0u8; TEXT];
    if let Ok(text) = desk::read_argument(rt, ACTS, &mut text) {
        replay_text(rt, case, text);
    }
}

fn main(rt: HostRuntime) {
    if !desk::argument_count_is(&rt, 2) {
        desk::complain(&rt, b"usage: looplist CASE ACTS\n");
        return;
    }
    let mut case = [0u8; ENOUGH];
    if let Ok(case) = desk::read_argument(&rt, CASE, &mut case) {
        replay_file(&rt, case);
    }
}
