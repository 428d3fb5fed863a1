// Checks an answer to a case, both files named on the command line: prints `pass` and the verdict, or `refused` and the
// number.
#![tactic(auto)]

ghost use Rattle.std.specs.Prelude.{◌≡◌, ◌≤◌, length, Some};
ghost use Rattle.text.specs.Writing.{Puts};
ghost use Rattle.loopcheck.specs.Printing.{checked_line, printed};

use checker::check_answer;
use desk::{ENOUGH, ErrorOutput};
use model::{Checked, Outcome};
use std::io;
use std::rt::{Env, Files};
use text::write::Writer;

// More than the longest line.
const LINE: usize = 32;

// Which argument names which file.
const CASE: usize = 1;

const ANSWER: usize = 2;

// The line of a check. Refusal and verdict are numbers, as in the C interface's `Checked`.
fn write_checked(line: &mut Writer, checked: Checked)
    ensures same { line.new.output.ghost_name ≡ line.old.output.ghost_name }
    ensures puts { Puts (checked_line checked.refusal checked.verdict) line.old line.new }
{
    if checked.refusal != 0 {
        desk::write_refusal(line, checked.refusal);
        return;
    }
    if checked.verdict == Outcome::LASSO {
        line.bytes(b"pass lasso\n");
        return;
    }
    line.bytes(b"pass empty\n");
}

// What is to be printed of a case and an answer, as the line's first bytes.
fn check<'a>(case: &[u8], answer: &[u8], line: &'a mut Writer) -> &'a [u8]
    requires { (line.old.end ≡ Some 0) × (32 ≤ length line.old.output.now) }
    ensures { result.now ≡ printed case.now answer.now }
{
    write_checked(line, check_answer(case, answer));
    line.written()
}

// Each file is read once the one before has been.
fn check_files<R: Env + Files + Print + ErrorOutput>(rt: &R) -> io::Result<()> {
    let mut case = [0u8; ENOUGH];
    let case = desk::read_argument(rt, CASE, &mut case)?;
    let mut answer = [0u8; ENOUGH];
    let answer = desk::read_argument(rt, ANSWER, &mut answer)?;
    let mut output = [0u8; LINE];
    let mut line = Writer::new(&mut output);
    desk::print(rt, check(case, answer, &mut line));
    Ok(())
}

fn main(rt: HostRuntime) {
    if !desk::argument_count_is(&rt, 2) {
        desk::complain(&rt, b"usage: loopcheck CASE ANSWER\n");
        return;
    }
    let _ = check_files(&rt); // which file failed, and why, has been said
}
