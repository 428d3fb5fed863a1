// Files read whole into a lent buffer, and arguments that are numbers. A failed read is never taken for the file's end, so
// that a file is not cut to a shorter one.
ghost use Rattle.std.specs.Prelude.{◌-◌, ◌≤◌, length};
ghost use Rattle.desk.specs.Filling.{Fills, Takes, TakesMore, FillsPart, TakesPart, SaidByWord};

use crate::{ErrorOutput, fail};
use casefile::Case;
use std::env::FillError;
use std::io::{Error, Read};
use std::rt::{Env, Files};
use std::{fs, io, str};
use text::read::number_in;

// One byte more than a file of this house may have, so that a longer one is seen to be too long.
pub const ENOUGH: usize = Case::LONGEST_FILE + 1;

// Room for an argument: a longer one names no file, and is no number.
const LONGEST_ARGUMENT: usize = 4096;

// Linux's numbers for what is wrong with an argument that names no file: the kinds of `io::ErrorKind` say other words.
const INVALID: i32 = 22;

const NAME_TOO_LONG: i32 = 36;

const NO_TEXT: i32 = 84;

// One read behind the bytes that are there; no byte at the file's end.
fn read_more<R: Read>(reader: &mut R, buffer: &mut [u8], done: usize) -> io::Result<usize>
    requires { done ≤ length buffer.old }
    ensures within { Fills result (length buffer.old - done) }
    ensures more { TakesMore result (R.remaining reader.old) (R.remaining reader.new) done buffer.old buffer.new }
{
    reader.read(&mut buffer[done..])
}

// Reads until the file ends or the buffer is full: how many bytes of it stand at the buffer's front.
pub fn fill<R: Read>(reader: &mut R, buffer: &mut [u8]) -> io::Result<usize>
    ensures within { Fills result (length buffer.new) }
    ensures front { Takes result (R.remaining reader.old) (R.remaining reader.new) buffer.new }
{
    let mut done: usize = 0;
    while done < buffer.len() {
        let n = read_more(reader, buffer, done)?;
        if n == 0 {
            return Ok(done);
        }
        done += n;
    }
    Ok(done)
}

// Standard input, read whole into the buffer; where that fails, standard error says why.
pub fn read_input<'a, R: ErrorOutput, I: Read>(
    rt: &R,
    input: &mut I,
    buffer: &'a mut [u8],
) -> io::Result<&'a [u8]>
    ensures { TakesPart result (I.remaining input.old) (I.remaining input.new) (length buffer.old) }
{
    let n = fill(input, buffer).inspect_err(|error| fail(rt, b"standard input", *error))?;
    Ok(&buffer[..n])
}

// Fills the buffer from the file of this name. A name that is not text names no file that std opens.
fn fill_from<R: Files>(rt: &R, path: &[u8], buffer: &mut [u8]) -> io::Result<usize>
    ensures { Fills result (length buffer.new) }
{
    let name = str::from_utf8(path).map_err(|_| Error::from_raw_os_error(NO_TEXT))?;
    let mut file = fs::open(rt, name)?;
    fill(&mut file, buffer)
}

// Why an argument names no file.
fn nameless(error: FillError) -> Error {
    Error::from_raw_os_error(match error {
        FillError::NotPresent => INVALID,
        FillError::TooLong => NAME_TOO_LONG,
    })
}

// The file that an argument names, read whole into the buffer; where that fails, standard error says which and why.
pub fn read_argument<'a, R: Env + Files + ErrorOutput>(
    rt: &R,
    i: usize,
    buffer: &'a mut [u8],
) -> io::Result<&'a [u8]>
    ensures { FillsPart result (length buffer.old) }
{
    let mut path = [0u8; LONGEST_ARGUMENT];
    let size = rt
        .arg(i, &mut path)
        .map_err(nameless)
        .inspect_err(|error| fail(rt, b"file name", *error))?;
    let name = &path[..size];
    let n = fill_from(rt, name, buffer).inspect_err(|error| fail(rt, name, *error))?;
    Ok(&buffer[..n])
}

// An argument as a number; one that is missing, or too long to be read, is none.
pub fn number_argument<R: Env>(rt: &R, i: usize) -> Option<u32>
    ensures { SaidByWord result }
{
    let mut word = [0u8; LONGEST_ARGUMENT];
    let size = rt.arg(i, &mut word).ok()?;
    number_in(&word[..size])
}

// Whether there is an argument of this number; the program's name is argument 0.
pub fn is_given<R: Env>(rt: &R, i: usize) -> bool {
    !matches!(rt.arg(i, &mut []), Err(FillError::NotPresent))
}

// Whether there are so many arguments behind the program's name, one or more.
pub fn argument_count_is<R: Env>(rt: &R, count: usize) -> bool {
    is_given(rt, count) && !is_given(rt, count.saturating_add(1))
}
