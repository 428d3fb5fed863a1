// Name lines: "1 to 16 letters or digits".
ghost use Rattle.std.specs.Prelude.{◌≡◌};
ghost use Rattle.chart.specs.Reading.{name_here, names_here};

use crate::Chart;

// The place past the line at `at`, if that is a name.
fn name_row(text: &[u8], at: usize) -> Option<usize>
    ensures { result ≡ name_here text.now at }
{
    for e in at..text.len() {
        let b = text[e];
        if b == b'\n' {
            if e == at || Chart::LONGEST_NAME < e - at {
                return None;
            }
            return Some(e + 1);
        }
        if !b.is_ascii_alphanumeric() {
            return None;
        }
    }
    None
}

// The place past so many lines from `at` on, if they are names.
pub(crate) fn name_block(text: &[u8], at: usize, modes: usize) -> Option<usize>
    ensures { result ≡ names_here modes text.now at }
{
    let mut here = at;
    for _ in 0..modes {
        here = name_row(text, here)?;
    }
    Some(here)
}
