// The end of a run: its answer into the output, its outcome, and the cells zeros again. Contracts cite specs/Finish.antt.
ghost use Rattle.search.specs.Finish.{AnswerAsks, BrokenAsks, LassoDone, AnswerDone, FinishAsks, FinishSays, verdict_of};
ghost use Rattle.std.specs.Prelude.{◌≡◌};

use crate::answer::{write_empty, write_lasso};
use crate::cells::{self, clear};
use crate::run::Run;
use crate::show::show_lasso;
use casefile::Case;
use model::{Outcome, Refusal, Verdict};
use text::write::Writer;

// The answer "lasso" of a run that broke the floor at `broken`.
fn lasso_answer(page: &mut Writer, work: &mut [i32], broken: usize, n: usize, source: usize)
    requires { BrokenAsks broken n source work.old }
    ensures same { page.new.output.ghost_name ≡ page.old.output.ghost_name }
    ensures lasso { LassoDone broken n source work.old page.old page.new }
{
    let shown = show_lasso(work, broken, source, n);
    let stem = shown.stem;
    let cycle = shown.cycle;
    let end = cells::CYCLE + Case::MOST_VERTICES;
    write_lasso(page, work, stem, cells::CYCLE - stem, cycle, end - cycle);
}

// The answer of a run that has ended.
fn write_answer(page: &mut Writer, work: &mut [i32], run: Run, n: usize, source: usize)
    requires { AnswerAsks run n source work.old }
    ensures same { page.new.output.ghost_name ≡ page.old.output.ghost_name }
    ensures answer { AnswerDone run n source work.old page.old page.new }
{
    match run.broken {
        Some(broken) => lasso_answer(page, work, broken as usize, n, source),
        None => write_empty(page, work, n),
    }
}

// The verdict of a run that has ended.
fn verdict(run: Run) -> Verdict
    ensures { result ≡ verdict_of run.broken }
{
    match run.broken {
        Some(_) => Verdict::Lasso,
        None => Verdict::Empty,
    }
}

// Ends a run: with a result if it is over, else by refusal 10.
pub(crate) fn finish(output: &mut [u8], work: &mut [i32], run: Run, case: Case) -> Outcome
    requires { FinishAsks run case.workers case.vertices case.source work.old output.old }
    ensures { FinishSays run case.workers case.vertices case.source result work.old work.new output.old output.new }
{
    let acts = run.acts_done();
    if !run.is_over(work, case.workers) {
        clear(work);
        return Outcome {
            refusal: Refusal::Unended.number(),
            verdict: Outcome::NONE,
            acts: acts,
            written: 0,
            sent: run.sent,
            delivered: run.delivered,
            joined: run.joined,
        };
    }
    let mut page = Writer::new(output);
    write_answer(&mut page, work, run, case.vertices, case.source);
    let written = page.end.unwrap_or(0);
    clear(work);
    Outcome {
        refusal: 0,
        verdict: verdict(run).number(),
        acts: acts,
        written: written as u32,
        sent: run.sent,
        delivered: run.delivered,
        joined: run.joined,
    }
}
