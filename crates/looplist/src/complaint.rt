// What standard error says of a list that is not run: the name of its file, and a number between words.
ghost use Rattle.std.specs.Prelude.{◌≡◌, ◌++◌, ◌+◌, ◌≤◌, length, Some};
ghost use Rattle.text.specs.Numbers.{decimal};
ghost use Rattle.looplist.specs.Listing.{Near};
ghost use Rattle.looplist.specs.Printing.{complaint_room};

use crate::acts::BadList;
use crate::{ACTS, MOST_ACTS};
use desk::{ErrorOutput, complain, write_between};
use std::rt::Env;
use text::write::Writer;

// Room for the words and the number.
const LINE: usize = 128;

// Room for the name: a longer one was not opened.
const NAME: usize = 4096;

// The name of the list's file.
fn complain_file<R: Env + ErrorOutput>(rt: &R) {
    let mut name = [0u8; NAME];
    if let Ok(n) = rt.arg(ACTS, &mut name) {
        complain(rt, &name[..n]);
    }
}

// A number between words, as the line's first bytes.
fn number_between<'a>(line: &'a mut Writer, before: &[u8], number: u32, after: &[u8]) -> &'a [u8]
    requires { (line.old.end ≡ Some 0) × (length before.now + 10 + length after.now ≤ length line.old.output.now) }
    ensures { result.now ≡ before.now ++ decimal number ++ after.now }
{
    write_between(line, before, number, after);
    line.written()
}

// Prints the name of the list's file, and then the number between the words.
fn complain_between<R: Env + ErrorOutput>(rt: &R, before: &[u8], number: u32, after: &[u8])
    requires { length before.now + 10 + length after.now ≤ complaint_room }
{
    complain_file(rt);
    let mut line = [0u8; LINE];
    let mut line = Writer::new(&mut line);
    complain(rt, number_between(&mut line, before, number, after));
}

// Why the list is not run.
pub(crate) fn complain_of<R: Env + ErrorOutput>(rt: &R, bad: BadList)
    requires { Near bad }
{
    match bad {
        BadList::NoAct(line) => complain_between(
            rt,
            b": line ",
            line as u32,
            b": expected an act, a number of 1 to 9 digits without leading zeros, and a line feed\n",
        ),
        BadList::TooMany => complain_between(rt, b": more than ", MOST_ACTS as u32, b" acts\n"),
    }
}
