// Lines on standard output.
ghost use Rattle.std.specs.Prelude.{◌≡◌, [], ◌∷◌};
ghost use Rattle.text.specs.Numbers.{decimal};
ghost use Rattle.text.specs.Writing.{Chain};
ghost use Rattle.model.specs.BuiltEntry.{names_pair};
ghost use Rattle.desk.specs.Lines.{refused_parts, all_parts, Finishes};
ghost use Rattle.desk.specs.Offering.{Offered, standard_output};

use crate::{ErrorOutput, fail};
use model::{Built, Charted};
use text::write::Writer;

// Prints the bytes; if standard output does not take them, standard error says why. Each program fills a page of its own for
// it: a function that had this done by a closure would be public with a `requires`.
pub fn print<R: Print + ErrorOutput>(rt: &R, bytes: &[u8])
    ensures { Offered standard_output bytes.now }
{
    if let Err(error) = rt.write_all(bytes) {
        fail(rt, b"standard output", error);
    }
}

// A number between words.
pub fn write_between(page: &mut Writer, before: &[u8], number: u32, after: &[u8])
    ensures same { page.new.output.ghost_name ≡ page.old.output.ghost_name }
    ensures chain { Chain (before.now ∷ decimal number ∷ after.now ∷ []) page.old page.new }
{
    page.bytes(before);
    page.number(number);
    page.bytes(after);
}

// The line of a refusal, by its number, as the entries for C give it.
pub fn write_refusal(page: &mut Writer, refusal: u32)
    ensures same { page.new.output.ghost_name ≡ page.old.output.ghost_name }
    ensures chain { Chain (refused_parts refusal) page.old page.new }
{
    write_between(page, b"refused ", refusal, b"\n");
}

// Whether a refusal comes with a pair.
#[tactic(auto, unfolding(model::specs::BuiltEntry::names_pair))]
fn names_pair(refusal: u32) -> bool
    ensures { result ≡ names_pair refusal }
{
    matches!(refusal, Charted::GAP | Charted::OVERLAP)
}

// The lines of a refusal, and of its pair where it comes with one.
pub fn write_refused(page: &mut Writer, said: Charted)
    ensures same { page.new.output.ghost_name ≡ page.old.output.ghost_name }
    ensures chain { Chain (all_parts said.refusal said.mode said.combination) page.old page.new }
{
    write_refusal(page, said.refusal);
    if !names_pair(said.refusal) {
        return;
    }
    write_between(page, b"mode ", said.mode, b"\n");
    write_between(page, b"flags ", said.combination, b"\n");
}

// Ends the page past what was built at its front; or writes the lines of its refusal. Refusals are numbers here, as in the
// C interface's `Built` and `Charted`.
pub fn finish_page(page: &mut Writer, built: Built)
    ensures same { page.new.output.ghost_name ≡ page.old.output.ghost_name }
    ensures finishes { Finishes built page.old page.new }
{
    if built.refusal == 0 {
        page.end = Some(built.written as usize);
        return;
    }
    let said = Charted {
        refusal: built.refusal,
        mode: built.mode,
        combination: built.combination,
    };
    write_refused(page, said);
}
