// The C interface: the entries under their exported names, and the version. include/rezkundo.h declares them; a
// slice crosses as a pointer and a length. The entries' contracts are `model`'s Entry, ClaimEntry, BuiltEntry and Chart
// definitions.
#![tactic(auto)]

ghost use Rattle.std.specs.Prelude.{◌≡◌};
ghost use Rattle.model.specs.Entry.{CheckSays, ListSays, RoundsSay};
ghost use Rattle.model.specs.ClaimEntry.{ClaimSays, MovesSay};
ghost use Rattle.model.specs.Chart.{chart_says};
ghost use Rattle.model.specs.BuiltEntry.{BuildSays, StepsSay};
ghost use Rattle.rezkundo.specs.Version.{product_version};

use model::{Built, Charted, Checked, Claimed, Outcome};

#[unsafe(no_mangle)]
pub extern "C" fn rezkundo_run_list(
    text: &[u8],
    acts: &[u32],
    output: &mut [u8],
    work: &mut [i32],
) -> Outcome
    ensures { ListSays text.now acts.now result output.old output.new work.old work.new }
{
    search::run_list(text, acts, output, work)
}

#[unsafe(no_mangle)]
pub extern "C" fn rezkundo_run_rounds(text: &[u8], output: &mut [u8], work: &mut [i32]) -> Outcome
    ensures { RoundsSay text.now result output.old output.new work.old work.new }
{
    search::run_rounds(text, output, work)
}

#[unsafe(no_mangle)]
pub extern "C" fn rezkundo_check_answer(text: &[u8], answer: &[u8]) -> Checked
    ensures { CheckSays text.now answer.now result }
{
    checker::check_answer(text, answer)
}

#[unsafe(no_mangle)]
pub extern "C" fn rezkundo_read_claim(text: &[u8]) -> Claimed
    ensures { ClaimSays text.now result }
{
    claim::describe_claim(text)
}

#[unsafe(no_mangle)]
pub extern "C" fn rezkundo_claim_moves(text: &[u8], state: u32, values: u32) -> u32
    ensures { MovesSay text.now state values result }
{
    claim::claim_moves(text, state, values)
}

#[unsafe(no_mangle)]
pub extern "C" fn rezkundo_check_chart(chart: &[u8]) -> Charted
    ensures { result ≡ chart_says chart.now }
{
    chart::check_chart(chart)
}

#[unsafe(no_mangle)]
pub extern "C" fn rezkundo_build_case(
    chart: &[u8],
    claim: &[u8],
    workers: u32,
    output: &mut [u8],
) -> Built
    ensures { BuildSays chart.now claim.now workers result output.old output.new }
{
    product::build_case(chart, claim, workers, output)
}

#[unsafe(no_mangle)]
pub extern "C" fn rezkundo_list_steps<'a>(
    chart: &'a [u8],
    claim: &'a [u8],
    answer: &[u8],
    output: &mut [u8],
) -> Built
    ensures { StepsSay chart.now claim.now answer.now result output.old output.new }
{
    product::list_steps(chart, claim, answer, output)
}

// `REZKUNDO_VERSION` in the header that goes with this library.
const VERSION: u32 = 10600;

// The product's version as one number.
#[unsafe(no_mangle)]
pub extern "C" fn rezkundo_version() -> u32
    ensures { result ≡ product_version }
{
    VERSION
}
