// The answers, written straight into the output out of the lent cells. Contracts cite specs/Writing.antt.
ghost use Rattle.std.specs.Prelude.{◌≡◌, ◌<◌, ◌≤◌};
ghost use Rattle.text.specs.Writing.{Puts};
ghost use Rattle.model.specs.Case.{most_vertices};
ghost use Rattle.search.specs.Writing.{head_text, EdgesAt, EdgesSay, DistancesAt, VertexSays, VerticesSay, Reached, LassoAsks, LassoSays, EmptySays};

use super::cells::{self, load, load_below};
use casefile::Case;
use text::write::Writer;

// The first two lines: names; version, verdict and counts.
fn write_head(page: &mut Writer, verdict: &[u8], stem: usize, cycle: usize, reached: usize)
    requires { (stem ≤ most_vertices) × (cycle ≤ most_vertices) × (reached ≤ most_vertices) }
    ensures same { page.new.output.ghost_name ≡ page.old.output.ghost_name }
    ensures head { Puts (head_text verdict.now stem cycle reached) page.old page.new }
{
    page.bytes(b"version verdict stem cycle reached\n");
    page.field(Case::ANSWER_VERSION, b' ');
    page.bytes(verdict);
    page.byte(b' ');
    page.field(stem as u32, b' ');
    page.field(cycle as u32, b' ');
    page.field(reached as u32, b'\n');
}

// The numbers of `count` edges that stand in the cells from `base` on, a line each.
fn write_edges(page: &mut Writer, work: &[i32], base: usize, count: usize)
    requires { EdgesAt base count work.now }
    ensures same { page.new.output.ghost_name ≡ page.old.output.ghost_name }
    ensures edges { EdgesSay base count work.now page.old page.new }
{
    for i in 0..count {
        let e = load_below(work, base + i, Case::MOST_RUN_EDGES);
        page.field(e as u32, b'\n');
    }
}

// The answer "lasso": the stem's edges stand from cell `first` on, the cycle's from cell `start` on.
pub(crate) fn write_lasso(
    page: &mut Writer,
    work: &[i32],
    first: usize,
    stem: usize,
    start: usize,
    cycle: usize,
)
    requires { LassoAsks first stem start cycle work.now }
    ensures same { page.new.output.ghost_name ≡ page.old.output.ghost_name }
    ensures lasso { LassoSays first stem start cycle work.now page.old page.new }
{
    write_head(page, b"lasso", stem, cycle, 0);
    page.bytes(b"edge\n");
    write_edges(page, work, first, stem);
    write_edges(page, work, start, cycle);
}

// A vertex and its distance on a line; nothing where it has none.
fn write_vertex(page: &mut Writer, v: usize, distance: i32)
    requires { v < most_vertices }
    ensures same { page.new.output.ghost_name ≡ page.old.output.ghost_name }
    ensures vertex { VertexSays v distance page.old page.new }
{
    if distance <= 0 {
        page.field(v as u32, b' ');
        page.signed(distance);
        page.byte(b'\n');
    }
}

// The line of each vertex that has a distance.
fn write_vertices(page: &mut Writer, work: &[i32], n: usize)
    requires { DistancesAt n work.now }
    ensures same { page.new.output.ghost_name ≡ page.old.output.ghost_name }
    ensures vertices { VerticesSay n work.now page.old page.new }
{
    for v in 0..n {
        write_vertex(page, v, load(work, cells::DISTANCE + v));
    }
}

// How many vertices have a distance.
fn reached(work: &[i32], n: usize) -> usize
    requires { DistancesAt n work.now }
    ensures { Reached n result work.now }
{
    let mut k: usize = 0;
    for v in 0..n {
        if load(work, cells::DISTANCE + v) <= 0 {
            k += 1;
        }
    }
    k
}

// The answer "empty": the distances stand from cells::DISTANCE on.
pub(crate) fn write_empty(page: &mut Writer, work: &[i32], n: usize)
    requires { DistancesAt n work.now }
    ensures same { page.new.output.ghost_name ≡ page.old.output.ghost_name }
    ensures empty { EmptySays n work.now page.old page.new }
{
    let k = reached(work, n);
    write_head(page, b"empty", 0, 0, k);
    page.bytes(b"vertex distance\n");
    write_vertices(page, work, n);
}
