// Lists the steps of an answer to the case file of a chart and a claim, three files named on the command line: prints a
// passing lasso's steps by names and nothing for a passing "empty", or `refused` and the number, and the chart's first bad
// pair where there is one.
#![tactic(auto)]

ghost use Rattle.std.specs.Prelude.{◌≡◌, ◌≤◌, length, Some};
ghost use Rattle.loopsteps.specs.Printing.{page_room, printed};

use desk::{ENOUGH, ErrorOutput};
use model::Built;
use product::list_steps;
use std::io;
use std::rt::{Env, Files};
use text::write::Writer;

// The least that steps are listed in, and more than the lines of a refusal.
const PAGE: usize = Built::LEAST_STEPS_OUTPUT;

// Which argument names which file.
const CHART: usize = 1;

const CLAIM: usize = 2;

const ANSWER: usize = 3;

// What is to be printed of a chart, a claim and an answer, as the page's first bytes.
fn show<'a, 'p>(chart: &'a [u8], claim: &'a [u8], answer: &[u8], page: &'p mut Writer) -> &'p [u8]
    requires { (page.old.end ≡ Some 0) × (page_room ≤ length page.old.output.now) }
    ensures { result.now ≡ printed chart.now claim.now answer.now }
{
    let listed = list_steps(chart, claim, answer, page.output);
    desk::finish_page(page, listed);
    page.written()
}

// Each file is read once the one before has been.
fn list_files<R: Env + Files + Print + ErrorOutput>(rt: &R) -> io::Result<()> {
    let mut chart = [0u8; ENOUGH];
    let chart = desk::read_argument(rt, CHART, &mut chart)?;
    let mut claim = [0u8; ENOUGH];
    let claim = desk::read_argument(rt, CLAIM, &mut claim)?;
    let mut answer = [0u8; ENOUGH];
    let answer = desk::read_argument(rt, ANSWER, &mut answer)?;
    let mut output = [0u8; PAGE];
    let mut page = Writer::new(&mut output);
    desk::print(rt, show(chart, claim, answer, &mut page));
    Ok(())
}

fn main(rt: HostRuntime) {
    if !desk::argument_count_is(&rt, 3) {
        desk::complain(&rt, b"usage: loopsteps CHART CLAIM ANSWER\n");
        return;
    }
    let _ = list_files(&rt); // which file failed, and why, has been said
}
