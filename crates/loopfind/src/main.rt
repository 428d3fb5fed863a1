// Reads a case from standard input, runs it by rounds and prints its answer; on a refusal, `refused` and the number.
#![tactic(auto)]

ghost use Rattle.std.specs.Prelude.{◌≡◌, ◌≤◌, length, Some};
ghost use Rattle.model.specs.Case.{least_output, least_work};
ghost use Rattle.loopfind.specs.Printing.{printed};

use casefile::Case;
use desk::{ENOUGH, ErrorOutput};
use search::run_rounds;
use text::write::Writer;

// What is to be printed of a case, as the page's first bytes. The refusal is a number, as in the C interface's `Outcome`.
fn find<'a>(case: &[u8], page: &'a mut Writer, work: &mut [i32]) -> &'a [u8]
    requires { (page.old.end ≡ Some 0) × (least_output ≤ length page.old.output.now) × (least_work ≤ length work.old) }
    ensures { result.now ≡ printed case.now }
{
    let outcome = run_rounds(case, page.output, work);
    if outcome.refusal == 0 {
        page.end = Some(outcome.written as usize);
        return page.written();
    }
    desk::write_refusal(page, outcome.refusal);
    page.written()
}

fn print_found<R: Print + ErrorOutput>(rt: &R, case: &[u8]) {
    let mut output = [0u8; Case::LEAST_OUTPUT];
    let mut work = [0i32; Case::LEAST_WORK];
    let mut page = Writer::new(&mut output);
    desk::print(rt, find(case, &mut page, &mut work));
}

fn main(rt: HostRuntime) {
    if desk::is_given(&rt, 1) {
        desk::complain(&rt, b"usage: loopfind < CASE\n");
        return;
    }
    let mut text = [0u8; ENOUGH];
    if let Ok(case) = desk::read_input(&rt, &mut rt.stdin(), &mut text) {
        print_found(&rt, case);
    }
}
