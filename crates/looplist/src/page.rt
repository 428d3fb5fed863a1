// The lines in front of the answer: refusal, verdict, acts and tallies.
ghost use Rattle.std.specs.Prelude.{◌≡◌, [], ◌∷◌, ◌++◌, ◌<◌, ◌^◌};
ghost use Rattle.text.specs.Numbers.{decimal};
ghost use Rattle.text.specs.Writing.{Puts};
ghost use Rattle.model.specs.Entry.{tallies_of};
ghost use Rattle.looplist.specs.Printing.{verdict_line, tally_lines, head};

use desk::write_between;
use model::Outcome;
use text::write::Writer;

// A name, a number and the line's end.
fn write_count(page: &mut Writer, name: &[u8], count: u32)
    ensures same { page.new.output.ghost_name ≡ page.old.output.ghost_name }
    ensures puts { Puts (name.now ++ decimal count ++ (10 ∷ [])) page.old page.new }
{
    write_between(page, name, count, b"\n");
}

// The verdict is a number, as in the C interface's `Outcome`.
fn write_verdict(page: &mut Writer, verdict: u32)
    ensures same { page.new.output.ghost_name ≡ page.old.output.ghost_name }
    ensures puts { Puts (verdict_line verdict) page.old page.new }
{
    match verdict {
        Outcome::LASSO => page.bytes(b"verdict lasso\n"),
        Outcome::EMPTY => page.bytes(b"verdict empty\n"),
        _ => page.bytes(b"verdict none\n"),
    }
}

fn write_tallies(page: &mut Writer, outcome: Outcome)
    ensures same { page.new.output.ghost_name ≡ page.old.output.ghost_name }
    ensures puts { Puts (tally_lines (tallies_of outcome)) page.old page.new }
{
    write_count(page, b"sent ", outcome.sent);
    write_count(page, b"delivered ", outcome.delivered);
    write_count(page, b"joined ", outcome.joined);
}

// All of them.
pub(crate) fn write_head(page: &mut Writer, outcome: Outcome)
    requires { outcome.acts < 2 ^ 32 }
    ensures same { page.new.output.ghost_name ≡ page.old.output.ghost_name }
    ensures puts { Puts (head outcome.refusal outcome.verdict outcome.acts (tallies_of outcome)) page.old page.new }
{
    write_count(page, b"refusal ", outcome.refusal);
    write_verdict(page, outcome.verdict);
    write_count(page, b"acts ", outcome.acts as u32);
    write_tallies(page, outcome);
}
