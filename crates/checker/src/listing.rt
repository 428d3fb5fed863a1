// Answers that say "empty": vertex lines, and whether their numbers prove that there is no lasso.
ghost use Rattle.std.specs.Prelude.{◌≡◌, ◌≤◌, get_or, Ok, None};
ghost use Rattle.model.specs.Passing.{leads};
ghost use Rattle.model.specs.Case.{most_vertices};
ghost use Rattle.model.specs.declared.verdict.Verdict.TheVariants.{Empty};
ghost use Rattle.checker.specs.Checking.{opening, held, distance_of, length_by, Blank, ListingSays, LeadSays, EmptySays};

use crate::opening::Head;
use crate::tables::{Graph, cell};
use casefile::Case;
use model::{Refusal, Verdict};
use text::read::{Signed, name_line, signed_row};

// The number of a vertex, if it is listed.
fn number_of(t: &[Option<i16>], v: usize) -> Option<i16>
    ensures { result ≡ get_or t.now v None }
{
    t.get(v).copied().flatten()
}

// A number as a distance, if it is one: no farther than can be, and not `-0`.
#[tactic(auto, unfolding(crate::specs::Checking::distance_of))]
fn distance(written: Signed) -> Option<i16>
    ensures { result ≡ distance_of written }
{
    match written {
        Signed::Plus(d) if d <= Case::FARTHEST => Some(d as i16),
        Signed::Minus(d) if 1 <= d && d <= Case::FARTHEST => Some(-(d as i16)),
        _ => None,
    }
}

// The lines of k vertices of n from `at` on, and the number of each: the place past them.
fn vertex_lines(
    text: &[u8],
    at: usize,
    k: usize,
    n: usize,
    numbers: &mut [Option<i16>],
) -> Result<usize, Refusal>
    requires { Blank n numbers.old }
    ensures { ListingSays text.now at k n numbers.new result }
{
    let mut here = at;
    let mut least = 0;
    for _ in 0..k {
        let row = signed_row(text, here).ok_or(Refusal::AnswerLayout)?;
        let v = row.number as usize;
        if v < least || n <= v {
            return Err(Refusal::NotShown);
        }
        let number = distance(row.signed).ok_or(Refusal::AnswerLayout)?;
        numbers[v] = Some(number);
        least = v + 1;
        here = row.next;
    }
    Ok(here)
}

// The length of an edge that leaves a vertex of this mark: −1 where it accepts, else 0.
fn edge_length(mark: usize) -> i32
    ensures { result ≡ length_by mark }
{
    if mark == 0 {
        return 0;
    }
    -1
}

// Whether an edge leads right between vertices of these numbers, from one of this mark.
fn leads_right(mark: usize, a: Option<i16>, b: Option<i16>) -> bool
    ensures { result ≡ leads (held a) (held b) (length_by mark) }
{
    match (a, b) {
        (None, _) => true,
        (Some(_), None) => false,
        (Some(a), Some(b)) => i32::from(b) <= i32::from(a) + edge_length(mark),
    }
}

// Whether every edge leads right.
fn all_lead(graph: Graph, numbers: &[Option<i16>]) -> bool
    ensures { LeadSays graph.entry numbers.now result }
{
    for e in 0..graph.case.edges {
        let from = cell(graph.froms, e);
        let to = cell(graph.tos, e);
        let a = number_of(numbers, from);
        let b = number_of(numbers, to);
        if !leads_right(cell(graph.marks, from), a, b) {
            return false;
        }
    }
    true
}

// The answer from line 3 on, against the graph: the vertex lines, then nothing, then the passing rule.
pub(crate) fn check_empty(answer: &[u8], head: Head, graph: Graph) -> Result<Verdict, Refusal>
    requires { (opening answer.now ≡ Ok head) × (head.verdict ≡ Empty) × (graph.case.vertices ≤ most_vertices) }
    ensures { EmptySays answer.now graph.entry result }
{
    let rows = name_line(answer, head.next, b"vertex distance").ok_or(Refusal::AnswerLayout)?;
    let mut numbers = [None; Case::MOST_VERTICES];
    let last = vertex_lines(
        answer,
        rows,
        head.reached,
        graph.case.vertices,
        &mut numbers,
    )?;
    if last < answer.len() {
        return Err(Refusal::AnswerLayout);
    }
    if number_of(&numbers, graph.case.source).is_none() {
        return Err(Refusal::NotShown);
    }
    if !all_lead(graph, &numbers) {
        return Err(Refusal::NotShown);
    }
    Ok(Verdict::Empty)
}
