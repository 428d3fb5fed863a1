// A reader opened on a text: it shows the field at its place, and moves on a line. Each function takes it apart and
// calls the one of src/read.rt.
ghost use Rattle.std.specs.Prelude.{◌≡◌};
ghost use Rattle.text.specs.Reading.{Part, past_line};

use crate::read;

// A text and a place in it.
#[derive(Clone, Copy)]
pub struct Reader<'a> {
    pub text: &'a [u8],
    pub at: usize,
}

impl<'a> Reader<'a> {
    // A reader at the text's start.
    pub fn open(text: &'a [u8]) -> Reader<'a>
        ensures { (result.text ≡ text.entry) × (result.at ≡ 0) }
    {
        Reader { text, at: 0 }
    }

    // The field at its place: that very part of the text.
    pub fn field(self) -> &'a [u8]
        ensures { Part self.entry.text self.entry.at result }
    {
        read::field(self.text, self.at)
    }

    // The reader past the line at its place.
    pub fn next_line(self) -> Reader<'a>
        ensures { (result.text ≡ self.entry.text) × (result.at ≡ past_line self.entry.text.now self.entry.at) }
    {
        let at = read::next_line(self.text, self.at);
        Reader {
            text: self.text,
            at,
        }
    }
}

// The first field of a text's second line, through a reader.
pub fn second_line_field<'a>(text: &'a [u8]) -> &'a [u8]
    ensures { Part text.entry (past_line text.now 0) result }
{
    Reader::open(text).next_line().field()
}
