// Runs of the search in lent buffers: by a list of acts, and by rounds. No entry trusts its caller; their contracts are
// `model`'s Entry definitions.
#![tactic(auto)]

mod answer;
mod cells;
mod edges;
mod finish;
mod load;
mod queue;
mod rounds;
mod run;
mod show;

ghost use Rattle.std.specs.Prelude.{◌≡◌, ◌||◌, ◌≤◌, ltb, length};
ghost use Rattle.model.specs.Case.{least_output, least_work};
ghost use Rattle.model.specs.Entry.{any_at_or_above, ListSays, RoundsSay};
ghost use Rattle.model.specs.Refusals.{number};
ghost use Rattle.search.specs.Entries.{refused_by, Loads, Begins};

use casefile::{Case, CaseTables, read_case};
use finish::finish;
use load::{load_case, load_loops};
use model::{Outcome, Refusal};
use run::Run;

// The outcome of a refused call.
fn refused(refusal: Refusal) -> Outcome
    ensures { result ≡ refused_by (number refusal) }
{
    Outcome {
        refusal: refusal.number(),
        verdict: Outcome::NONE,
        acts: 0,
        written: 0,
        sent: 0,
        delivered: 0,
        joined: 0,
    }
}

// Whether the buffers are too short, by their lengths.
fn too_short(output: usize, work: usize) -> bool
    ensures { result ≡ (ltb output least_output || ltb work least_work) }
{
    output < Case::LEAST_OUTPUT || work < Case::LEAST_WORK
}

// Whether an act is at or above the limit.
fn out_of_range(acts: &[u32], limit: usize) -> bool
    ensures { result ≡ any_at_or_above limit acts.now }
{
    acts.iter().any(|a| limit <= *a as usize)
}

// A case that stands in the cells with its rest loops: how many of its vertices accept, and how many edges there are.
#[derive(Clone, Copy)]
struct Loaded {
    case: Case,
    marks: usize,
    edges: usize,
}

// Reads a case, tests the acts against it, and loads it into the cells, which stay as they were in a refused call: the
// tables keep what was read until it is known that nothing refuses it.
fn load_text(text: &[u8], acts: &[u32], work: &mut [i32]) -> Result<Loaded, Refusal>
    requires { least_work ≤ length work.old }
    ensures { Loads text.now acts.now result work.old work.new }
{
    let mut marks = [0; Case::MOST_VERTICES];
    let mut owners = [0; Case::MOST_VERTICES];
    let mut froms = [0; Case::MOST_EDGES];
    let mut tos = [0; Case::MOST_EDGES];
    let mut tables = CaseTables {
        marks: &mut marks,
        owners: &mut owners,
        froms: &mut froms,
        tos: &mut tos,
    };
    let case = read_case(text, &mut tables)?;
    if out_of_range(acts, case.workers + case.edges) {
        return Err(Refusal::ActRange);
    }
    let n = case.vertices;
    let m = case.edges;
    let accepting = load_case(work, &marks[..n], &owners[..n], &froms[..m], &tos[..m]);
    let edges = load_loops(work, n, m);
    Ok(Loaded {
        case: case,
        marks: accepting,
        edges: edges,
    })
}

// A fresh run of a case that stands in the cells.
#[derive(Clone, Copy)]
struct Begun {
    case: Case,
    edges: usize,
    run: Run,
}

// What the runs share: 11 first, then 1 to 8, then 9, then the case's fresh run.
fn begin(text: &[u8], acts: &[u32], output: usize, work: &mut [i32]) -> Result<Begun, Refusal>
    ensures { Begins text.now acts.now output result work.old work.new }
{
    if too_short(output, work.len()) {
        return Err(Refusal::ShortBuffer);
    }
    let loaded = load_text(text, acts, work)?;
    let run = Run::fresh(work, loaded.case.source, loaded.marks);
    Ok(Begun {
        case: loaded.case,
        edges: loaded.edges,
        run: run,
    })
}

// The steps between `begin` and `finish` are no closure: clauses over its calls are longer than the lines that it would save.

// Runs a case by a list of acts: refusals 1 to 9 and 11, then the run, then 10.
pub fn run_list(case: &[u8], acts: &[u32], output: &mut [u8], work: &mut [i32]) -> Outcome
    ensures { ListSays case.now acts.now result output.old output.new work.old work.new }
{
    match begin(case, acts, output.len(), work) {
        Err(refusal) => refused(refusal),
        Ok(begun) => {
            let mut run = begun.run;
            run.act_list(work, acts, begun.case.workers);
            finish(output, work, run, begun.case)
        }
    }
}

// Runs a case by rounds to its end: refusals 1 to 8 and 11, then the run.
pub fn run_rounds(case: &[u8], output: &mut [u8], work: &mut [i32]) -> Outcome
    ensures { RoundsSay case.now result output.old output.new work.old work.new }
{
    match begin(case, &[], output.len(), work) {
        Err(refusal) => refused(refusal),
        Ok(begun) => {
            let mut run = begun.run;
            run.run_by_rounds(work, begun.case.workers, begun.case.vertices, begun.edges);
            finish(output, work, run, begun.case)
        }
    }
}
