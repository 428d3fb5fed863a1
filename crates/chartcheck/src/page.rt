// The lines of a checked chart: what comes back, and the bad pair as a dealer reads it.
ghost use Rattle.std.specs.Prelude.{◌≡◌, ◌≤◌, ◌<◌};
ghost use Rattle.text.specs.Writing.{Puts};
ghost use Rattle.model.specs.Chart.{most_flags};
ghost use Rattle.chartcheck.specs.Printing.{charted_lines, bit_digit, bits, fault_words, pair_words};

use desk::write_refused;
use model::Charted;
use text::write::Writer;

// `pass`; or the refusal, a number as in the C interface's `Charted`, and the pair where there is one.
pub(crate) fn write_charted(page: &mut Writer, said: Charted)
    ensures same { page.new.output.ghost_name ≡ page.old.output.ghost_name }
    ensures puts { Puts (charted_lines said) page.old page.new }
{
    if said.refusal == 0 {
        page.bytes(b"pass\n");
        return;
    }
    write_refused(page, said);
}

// Flag i as a digit.
#[tactic(auto, unfolding(crate::specs::Printing::bit_digit, model::specs::ClaimLabels::bit))]
fn bit_digit(flags: u32, i: usize) -> u8
    requires { i < most_flags }
    ensures { result ≡ bit_digit flags i }
{
    if (flags >> i) % 2 == 1 {
        return b'1';
    }
    b'0'
}

// So many flags, flag 0 last.
fn write_bits(page: &mut Writer, many: usize, flags: u32)
    requires { many ≤ most_flags }
    ensures same { page.new.output.ghost_name ≡ page.old.output.ghost_name }
    ensures puts { Puts (bits many flags) page.old page.new }
{
    for i in (0..many).rev() {
        page.byte(bit_digit(flags, i));
    }
}

fn write_fault(page: &mut Writer, refusal: u32)
    ensures same { page.new.output.ghost_name ≡ page.old.output.ghost_name }
    ensures puts { Puts (fault_words refusal) page.old page.new }
{
    match refusal {
        Charted::GAP => page.bytes(b": no rule\n"),
        _ => page.bytes(b": more than one rule\n"),
    }
}

// The bad pair: its mode by name, its flags bit by bit.
pub(crate) fn write_pair(page: &mut Writer, name: &[u8], flags: usize, said: Charted)
    requires { flags ≤ most_flags }
    ensures same { page.new.output.ghost_name ≡ page.old.output.ghost_name }
    ensures puts { Puts (pair_words name.now flags said) page.old page.new }
{
    page.bytes(b"mode ");
    page.bytes(name);
    page.bytes(b", flags ");
    write_bits(page, flags, said.combination);
    write_fault(page, said.refusal);
}
