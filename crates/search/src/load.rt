// Loads a case from its tables into the cells: marks, owners, ends, each vertex's first edge, and then the rest loops.
ghost use Rattle.search.specs.Loading.{LoadAsks, LoadSays, RowsAsk, RowsSay, PairAsks, PairSays, PairsAsk, PairsSay, LoopAsks, LoopSays, LoopsAsk, LoopsSay};

use super::cells::{self, fill, load_below, store_number};
use casefile::Case;

// Stores the marks and the owners of the vertices, and counts the accepting ones.
fn load_vertices(work: &mut [i32], marks: &[u32], owners: &[u32]) -> usize
    requires { RowsAsk marks.now owners.now work.old }
    ensures { RowsSay marks.now owners.now result work.old work.new }
{
    let mut count: usize = 0;
    // By index, as in `load_edges`: std has laws for a loop over a zip, but none for one that is enumerated.
    for v in 0..marks.len() {
        let mark = marks[v] as usize;
        store_number(work, cells::ACCEPTING + v, mark);
        store_number(work, cells::OWNER + v, owners[v] as usize);
        count += mark;
    }
    count
}

// Loads the ends of edge e, and makes it the first edge of the vertices from `next` to the one that it leaves. Gives the
// lowest vertex that has no first edge then.
fn load_edge(work: &mut [i32], e: usize, from: usize, to: usize, next: usize) -> usize
    requires { PairAsks e from to next work.old }
    ensures { PairSays e from to next result work.old work.new }
{
    store_number(work, cells::FROM + e, from);
    store_number(work, cells::TO + e, to);
    if from < next {
        return next;
    }
    fill(work, cells::FIRST + next, from + 1 - next, e);
    from + 1
}

// Stores the ends of the edges; the vertices past the last edge's have the number of edges as their first edge.
fn load_edges(work: &mut [i32], froms: &[u32], tos: &[u32], n: usize)
    requires { PairsAsk froms.now tos.now n work.old }
    ensures { PairsSay froms.now tos.now n work.old work.new }
{
    let mut next: usize = 0;
    for e in 0..froms.len() {
        next = load_edge(work, e, froms[e] as usize, tos[e] as usize, next);
    }
    fill(work, cells::FIRST + next, n + 1 - next, froms.len());
}

// Loads a case from its tables, and counts its accepting vertices.
pub(crate) fn load_case(
    work: &mut [i32],
    marks: &[u32],
    owners: &[u32],
    froms: &[u32],
    tos: &[u32],
) -> usize
    requires { LoadAsks marks.now owners.now froms.now tos.now work.old }
    ensures { LoadSays marks.now owners.now froms.now tos.now result work.old work.new }
{
    let count = load_vertices(work, marks, owners);
    load_edges(work, froms, tos, marks.len());
    count
}

// The next rest loop, number k, is vertex v's if it has no file edge: its ends are loaded. Gives the number of the one after.
fn load_loop(work: &mut [i32], v: usize, k: usize) -> usize
    requires { LoopAsks v k work.old }
    ensures { LoopSays v k result work.old work.new }
{
    let first = load_below(work, cells::FIRST + v, Case::MOST_EDGES + 1);
    let end = load_below(work, cells::FIRST + (v + 1), Case::MOST_EDGES + 1);
    store_number(work, cells::REST + v, k);
    if first < end {
        return k;
    }
    store_number(work, cells::FROM + k, v);
    store_number(work, cells::TO + k, v);
    k + 1
}

// Loads the rest loops of a case of n vertices and m file edges that stands in the cells. Gives how many edges there are then.
pub(crate) fn load_loops(work: &mut [i32], n: usize, m: usize) -> usize
    requires { LoopsAsk n m work.old }
    ensures { LoopsSay n m result work.old work.new }
{
    let mut k = m;
    for v in 0..n {
        k = load_loop(work, v, k);
    }
    k
}
