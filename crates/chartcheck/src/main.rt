// Checks a chart, named on the command line: prints `pass`, or `refused` and the number, and the first bad pair where there
// is one; standard error then shows its mode by name and its flags bit by bit.
#![tactic(auto)]

mod page;

ghost use Rattle.std.specs.Prelude.{◌≡◌, ◌≤◌, length, Some};
ghost use Rattle.chartcheck.specs.Printing.{page_room, printed, told};

use chart::{NoChart, check_chart, mode_name, read_chart};
use desk::{ENOUGH, ErrorOutput};
use page::{write_charted, write_pair};
use text::write::Writer;

// More than the longest lines.
const PAGE: usize = 64;

// Which argument names the file.
const CHART: usize = 1;

// What is to be printed of a text, as the page's first bytes.
fn show<'a>(text: &[u8], page: &'a mut Writer) -> &'a [u8]
    requires { (page.old.end ≡ Some 0) × (page_room ≤ length page.old.output.now) }
    ensures { result.now ≡ printed text.now }
{
    write_charted(page, check_chart(text));
    page.written()
}

// What standard error is to say of a text, as the page's first bytes.
fn tell<'a>(text: &[u8], page: &'a mut Writer) -> &'a [u8]
    requires { (page.old.end ≡ Some 0) × (page_room ≤ length page.old.output.now) }
    ensures { result.now ≡ told text.now }
{
    match read_chart(text, &mut []) {
        Ok(_) => &[],
        Err(NoChart::Fault) => &[],
        Err(NoChart::Bad(chart, said)) => {
            let name = mode_name(text, said.mode as usize);
            write_pair(page, name, chart.flags, said);
            page.written()
        }
    }
}

fn print_checked<R: Print + ErrorOutput>(rt: &R, text: &[u8]) {
    let mut output = [0u8; PAGE];
    desk::print(rt, show(text, &mut Writer::new(&mut output)));
    desk::complain(rt, tell(text, &mut Writer::new(&mut output)));
}

fn main(rt: HostRuntime) {
    if !desk::argument_count_is(&rt, 1) {
        desk::complain(&rt, b"usage: chartcheck CHART\n");
        return;
    }
    let mut text = [0u8; ENOUGH];
    if let Ok(chart) = desk::read_argument(&rt, CHART, &mut text) {
        print_checked(&rt, chart);
    }
}
