// Reads a claim from standard input and prints its counts and states; on a refusal, `refused` and the number.
#![tactic(auto)]

mod page;

ghost use Rattle.std.specs.Prelude.{◌≡◌, ◌≤◌, length, Some};
ghost use Rattle.claim.specs.Cells.{claim_cells};
ghost use Rattle.claimcheck.specs.Printing.{page_room, printed};

use claim::{Counts, read_claim};
use desk::{ENOUGH, ErrorOutput};
use page::write_claim;
use text::write::Writer;

// More than the longest claim's lines.
const PAGE: usize = 1024;

// What is to be printed of a text, as the page's first bytes.
fn show<'a>(text: &[u8], page: &'a mut Writer, cells: &mut [u32]) -> &'a [u8]
    requires { (page.old.end ≡ Some 0) × (page_room ≤ length page.old.output.now) × (claim_cells ≤ length cells.old) }
    ensures { result.now ≡ printed text.now }
{
    match read_claim(text, cells) {
        Err(refusal) => {
            desk::write_refusal(page, refusal.number());
            page.written()
        }
        Ok(counts) => {
            write_claim(page, text, cells, counts);
            page.written()
        }
    }
}

fn print_claim<R: Print + ErrorOutput>(rt: &R, text: &[u8]) {
    let mut output = [0u8; PAGE];
    let mut page = Writer::new(&mut output);
    let mut cells = [0u32; Counts::CELLS];
    desk::print(rt, show(text, &mut page, &mut cells));
}

fn main(rt: HostRuntime) {
    if desk::is_given(&rt, 1) {
        desk::complain(&rt, b"usage: claimcheck < CLAIM\n");
        return;
    }
    let mut text = [0u8; ENOUGH];
    if let Ok(claim) = desk::read_input(&rt, &mut rt.stdin(), &mut text) {
        print_claim(&rt, claim);
    }
}
