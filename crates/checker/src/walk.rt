// Answers that say "lasso": edge lines, and whether they are a lasso.
ghost use Rattle.std.specs.Prelude.{◌≡◌, ◌&&◌, eqb, Ok};
ghost use Rattle.model.specs.declared.verdict.Verdict.TheVariants.{Lasso};
ghost use Rattle.checker.specs.Checking.{opening, WalkSays, LassoSays};

use crate::opening::Head;
use crate::tables::{Graph, cell};
use model::{Refusal, Verdict};
use text::read::{name_line, numbers_row};

// The vertex where edges end, whether each starts where the one before ended, whether one leaves an accepting vertex, and the
// place past their lines.
#[derive(Clone, Copy)]
struct Walk {
    end: usize,
    joined: bool,
    marked: bool,
    next: usize,
}

// The lines of so many edges from `at` on, as a walk from `start`.
fn read_walk(
    text: &[u8],
    at: usize,
    count: usize,
    start: usize,
    graph: Graph,
) -> Result<Walk, Refusal>
    ensures { WalkSays text.now at count start graph.entry result }
{
    let mut walk = Walk {
        end: start,
        joined: true,
        marked: false,
        next: at,
    };
    for _ in 0..count {
        let row = numbers_row::<1>(text, walk.next).ok_or(Refusal::AnswerLayout)?;
        let [edge] = row.numbers;
        let e = edge as usize;
        if graph.case.edges <= e {
            return Err(Refusal::NotShown);
        }
        let from = cell(graph.froms, e);
        walk.joined &= from == walk.end;
        walk.marked |= 1 <= cell(graph.marks, from);
        walk.end = cell(graph.tos, e);
        walk.next = row.next;
    }
    Ok(walk)
}

// Whether stem and cycle are walks, and the cycle ends where the stem does and leaves an accepting vertex.
fn is_lasso(stem: Walk, cycle: Walk) -> bool
    ensures { result ≡ ((stem.joined && cycle.joined) && (eqb cycle.end stem.end && cycle.marked)) }
{
    stem.joined && cycle.joined && cycle.end == stem.end && cycle.marked
}

// The answer from line 3 on, against the graph: the lines of stem and cycle, then nothing, then the passing rule.
pub(crate) fn check_lasso(answer: &[u8], head: Head, graph: Graph) -> Result<Verdict, Refusal>
    requires { (opening answer.now ≡ Ok head) × (head.verdict ≡ Lasso) }
    ensures { LassoSays answer.now graph.entry result }
{
    let rows = name_line(answer, head.next, b"edge").ok_or(Refusal::AnswerLayout)?;
    let stem = read_walk(answer, rows, head.stem, graph.case.source, graph)?;
    let cycle = read_walk(answer, stem.next, head.cycle, stem.end, graph)?;
    if cycle.next < answer.len() {
        return Err(Refusal::AnswerLayout);
    }
    if !is_lasso(stem, cycle) {
        return Err(Refusal::NotShown);
    }
    Ok(Verdict::Lasso)
}
