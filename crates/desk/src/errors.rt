// Lines on standard error.
ghost use Rattle.desk.specs.Offering.{Offered, standard_error};

use std::fmt::InlineText;
use std::io;
use std::io::Error;

// More than the longest of the system's words for an error.
const WORDS: usize = 128;

// Standard error for bytes that need not be text, as `Print` is standard output.
pub trait ErrorOutput {
    fn write_error(&self, bytes: &[u8]) -> io::Result<()>;
}

impl ErrorOutput for HostRuntime {
    fn write_error(&self, bytes: &[u8]) -> io::Result<()> {
        self.stderr().write_all(bytes)
    }
}

// Writes the bytes to standard error.
pub fn complain<R: ErrorOutput>(rt: &R, bytes: &[u8])
    ensures { Offered standard_error bytes.now }
{
    let _ = rt.write_error(bytes);
}

// The system's words alone: std puts the number of the error behind them.
fn words_alone(text: &str) -> &str {
    text.rsplit_once(" (os error ")
        .map_or(text, |(words, _)| words)
}

// A line on standard error: what failed, as the caller names it, a colon and why.
pub fn fail<R: ErrorOutput>(rt: &R, what: &[u8], error: Error) {
    let text = InlineText::<WORDS>::of(error);
    complain(rt, what);
    complain(rt, b": ");
    complain(rt, words_alone(text.as_str()).as_bytes());
    complain(rt, b"\n");
}
