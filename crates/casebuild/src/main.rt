// Builds the case file of a chart and a claim, both files named on the command line, for so many workers: prints it, or
// `refused` and the number, and the chart's first bad pair where there is one.
#![tactic(auto)]

ghost use Rattle.std.specs.Prelude.{◌≡◌, ◌≤◌, length, Some};
ghost use Rattle.casebuild.specs.Printing.{page_room, printed};

use desk::{ENOUGH, ErrorOutput};
use model::Built;
use product::{build_case, workers_right};
use std::io;
use std::rt::{Env, Files};
use text::write::Writer;

// The least that a case file is built in, and more than the lines of a refusal.
const PAGE: usize = Built::LEAST_CASE_OUTPUT;

// Which argument is which.
const CHART: usize = 1;

const CLAIM: usize = 2;

const WORKERS: usize = 3;

// What is to be printed of a chart and a claim, as the page's first bytes.
fn show<'a>(chart: &[u8], claim: &[u8], workers: u32, page: &'a mut Writer) -> &'a [u8]
    requires { (page.old.end ≡ Some 0) × (page_room ≤ length page.old.output.now) }
    ensures { result.now ≡ printed chart.now claim.now workers }
{
    let built = build_case(chart, claim, workers, page.output);
    desk::finish_page(page, built);
    page.written()
}

fn print_built<R: Print + ErrorOutput>(rt: &R, chart: &[u8], claim: &[u8], workers: u32) {
    let mut output = [0u8; PAGE];
    let mut page = Writer::new(&mut output);
    desk::print(rt, show(chart, claim, workers, &mut page));
}

// "A worker count outside 01's range gets 5, before either file is read": with any files it is the same. The claim is read
// once the chart has been.
fn build<R: Env + Files + Print + ErrorOutput>(rt: &R, workers: u32) -> io::Result<()> {
    if !workers_right(workers) {
        print_built(rt, &[], &[], workers);
        return Ok(());
    }
    let mut chart = [0u8; ENOUGH];
    let chart = desk::read_argument(rt, CHART, &mut chart)?;
    let mut claim = [0u8; ENOUGH];
    let claim = desk::read_argument(rt, CLAIM, &mut claim)?;
    print_built(rt, chart, claim, workers);
    Ok(())
}

// How many workers, if the arguments are as they should be.
fn workers_asked<R: Env>(rt: &R) -> Option<u32> {
    if !desk::argument_count_is(rt, 3) {
        return None;
    }
    desk::number_argument(rt, WORKERS)
}

fn main(rt: HostRuntime) {
    let Some(workers) = workers_asked(&rt) else {
        desk::complain(&rt, b"usage: casebuild CHART CLAIM WORKERS\n");
        return;
    };
    let _ = build(&rt, workers); // which file failed, and why, has been said
}
