// The lines of a claim: its counts, and its states out of the cells into which it was read.
ghost use Rattle.std.specs.Prelude.{◌≡◌, [], ◌∷◌, ◌<◌, length};
ghost use Rattle.text.specs.Lines.{text as lines_of};
ghost use Rattle.text.specs.Writing.{Puts};
ghost use Rattle.model.specs.ClaimGrammar.{most_states};
ghost use Rattle.model.specs.Claim.{state, claim_in};
ghost use Rattle.claim.specs.Judging.{counts_of};
ghost use Rattle.claimcheck.specs.Printing.{name_end, state_row, state_rows, count_row, head_lines, claim_lines, ClaimThere};

use claim::Counts;
use text::write::Writer;

// The name of state c, if it has one, behind a space; and the line's end.
fn write_name(page: &mut Writer, text: &[u8], cells: &[u32], c: usize)
    requires c_lt_most_states { c < most_states }
    requires claim_there { ClaimThere text.now cells.now }
    ensures same { page.new.output.ghost_name ≡ page.old.output.ghost_name }
    ensures puts { Puts (name_end (state (claim_in text.now) c).name) page.old page.new }
{
    let from = cells[Counts::NAMES + c] as usize;
    // place 0 is no name in a claim's cells, as in the C interface's result
    if from == 0 {
        page.byte(b'\n');
        return;
    }
    let end = from + cells[Counts::LENGTHS + c] as usize;
    page.byte(b' ');
    page.bytes(&text[from..end]);
    page.byte(b'\n');
}

fn write_state(page: &mut Writer, text: &[u8], cells: &[u32], c: u32)
    requires c_lt_most_states { c < most_states }
    requires claim_there { ClaimThere text.now cells.now }
    ensures same { page.new.output.ghost_name ≡ page.old.output.ghost_name }
    ensures puts { Puts (lines_of (state_row c (state (claim_in text.now) c) ∷ [])) page.old page.new }
{
    page.field(c, b' ');
    page.number(cells[c as usize]);
    write_name(page, text, cells, c as usize);
}

fn write_states(page: &mut Writer, text: &[u8], cells: &[u32], states: u32)
    requires states_value { states ≡ length (claim_in text.now).states }
    requires claim_there { ClaimThere text.now cells.now }
    ensures same { page.new.output.ghost_name ≡ page.old.output.ghost_name }
    ensures puts { Puts (lines_of (state_rows 0 (claim_in text.now).states)) page.old page.new }
{
    for c in 0..states {
        write_state(page, text, cells, c);
    }
}

fn write_counts(page: &mut Writer, counts: Counts)
    ensures same { page.new.output.ghost_name ≡ page.old.output.ghost_name }
    ensures puts { Puts (lines_of (count_row counts.states counts.start counts.propositions ∷ [])) page.old page.new }
{
    page.field(counts.states, b' ');
    page.field(counts.start, b' ');
    page.field(counts.propositions, b'\n');
}

fn write_head(page: &mut Writer, counts: Counts)
    ensures same { page.new.output.ghost_name ≡ page.old.output.ghost_name }
    ensures puts { Puts (head_lines counts.states counts.start counts.propositions) page.old page.new }
{
    page.bytes(b"states start propositions\n");
    write_counts(page, counts);
    page.bytes(b"state accepting name\n");
}

// All of them.
pub(crate) fn write_claim(page: &mut Writer, text: &[u8], cells: &[u32], counts: Counts)
    requires counts_value { counts ≡ counts_of (claim_in text.now) }
    requires claim_there { ClaimThere text.now cells.now }
    ensures same { page.new.output.ghost_name ≡ page.old.output.ghost_name }
    ensures puts { Puts (claim_lines (claim_in text.now)) page.old page.new }
{
    write_head(page, counts);
    write_states(page, text, cells, counts.states);
}
