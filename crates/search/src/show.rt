// The lasso that an ended run shows, read off the lent cells: the cycle by parent edges, and the stem by a
// breadth-first search from the source. Contracts cite specs/Show.antt.
ghost use Rattle.std.specs.Prelude.{◌≤◌};
ghost use Rattle.model.specs.Case.{most_vertices};
ghost use Rattle.search.specs.Show.{Backable, ParentIs, OneBackIs, Backed, Cycled};
ghost use Rattle.search.specs.Show.{Triable, Tried, Scannable, Scans, Startable, Started, Searchable, Searched, Stemmable, StemTaken, Showable, Shows};

use crate::cells::{self, AT_SOURCE, BY_EDGE, NOT_FOUND, SOME, fill, load_below, store_number};
use crate::edges::edges_of;
use casefile::Case;

// The parent edge of a vertex that has one.
pub(crate) fn parent_edge(work: &[i32], v: usize) -> usize
    requires { Backable v work.now }
    ensures { ParentIs v result work.now }
{
    let code = load_below(work, cells::PARENT + v, Case::MOST_RUN_EDGES + SOME);
    code - SOME
}

// The vertex that its parent edge comes from.
pub(crate) fn one_back(work: &[i32], v: usize) -> usize
    requires { Backable v work.now }
    ensures { OneBackIs v result work.now }
{
    let e = parent_edge(work, v);
    load_below(work, cells::FROM + e, Case::MOST_VERTICES)
}

// So many parent edges back.
pub(crate) fn go_back(work: &[i32], v: usize, n: usize) -> usize
    requires { Backable v work.now }
    ensures { Backed v n result work.now }
{
    let mut u = v;
    for _ in 0..n {
        u = one_back(work, u);
    }
    u
}

// Parent edges from a start until it comes again, written forwards so that the last one stands in the last cell of
// their region: the first one's cell.
pub(crate) fn take_cycle(work: &mut [i32], start: usize, n: usize) -> usize
    requires { (n ≤ most_vertices) × Backable start work.old }
    ensures { Cycled start n result work.old work.new }
{
    let mut at: usize = cells::CYCLE + Case::MOST_VERTICES;
    let mut v = start;
    for _ in 0..n {
        let e = parent_edge(work, v);
        at -= 1;
        store_number(work, at, e);
        v = one_back(work, v);
        if v == start {
            return at;
        }
    }
    at
}

// One edge of the vertex that is scanned: if its end is not found yet, it is now, and joins the queue. The queue's new end.
pub(crate) fn try_edge(work: &mut [i32], e: usize, tail: usize) -> usize
    requires { Triable e tail work.old }
    ensures { Tried e tail result work.old work.new }
{
    let v = load_below(work, cells::TO + e, Case::MOST_VERTICES);
    let found = load_below(work, cells::FOUND + v, Case::MOST_RUN_EDGES + BY_EDGE);
    if found != NOT_FOUND {
        return tail;
    }
    store_number(work, cells::FOUND + v, e + BY_EDGE);
    store_number(work, cells::QUEUE + tail, v);
    tail + 1
}

// All edges of the vertex at the queue's head, in number order. The queue's new end.
pub(crate) fn scan_head(work: &mut [i32], head: usize, tail: usize) -> usize
    requires { Scannable head tail work.old }
    ensures { Scans head tail result work.old work.new }
{
    let v = load_below(work, cells::QUEUE + head, Case::MOST_VERTICES);
    let edges = edges_of(work, v);
    let mut last = tail;
    for e in edges.start..edges.end {
        last = try_edge(work, e, last);
    }
    last
}

// The search's start: the source alone is found.
pub(crate) fn start_search(work: &mut [i32], source: usize, n: usize)
    requires { Startable source n work.old }
    ensures { Started source n work.old work.new }
{
    fill(work, cells::FOUND, n, NOT_FOUND);
    store_number(work, cells::FOUND + source, AT_SOURCE);
    store_number(work, cells::QUEUE, source);
}

// Breadth first from the source, until the goal is found.
pub(crate) fn find_stem(work: &mut [i32], source: usize, goal: usize, n: usize)
    requires { Searchable source goal n work.old }
    ensures { Searched source goal n work.old work.new }
{
    start_search(work, source, n);
    let mut head: usize = 0;
    let mut tail: usize = 1;
    while head < tail {
        if load_below(work, cells::FOUND + goal, Case::MOST_RUN_EDGES + BY_EDGE) != NOT_FOUND {
            return;
        }
        tail = scan_head(work, head, tail);
        head += 1;
    }
}

// Back from the goal by the edges that found, written forwards so that the last one stands in the last cell of their
// region: the first one's cell.
pub(crate) fn take_stem(work: &mut [i32], goal: usize) -> usize
    requires { Stemmable goal work.old }
    ensures { StemTaken goal result work.old work.new }
{
    let mut at: usize = cells::CYCLE;
    let mut found = load_below(work, cells::FOUND + goal, Case::MOST_RUN_EDGES + BY_EDGE);
    while found > AT_SOURCE {
        let e = found - BY_EDGE;
        let v = load_below(work, cells::FROM + e, Case::MOST_VERTICES);
        found = load_below(work, cells::FOUND + v, Case::MOST_RUN_EDGES + BY_EDGE);
        at -= 1;
        store_number(work, at, e);
    }
    at
}

// Where a lasso's stem and its cycle start in the cells.
#[derive(Clone, Copy)]
pub(crate) struct Shown {
    pub stem: usize,
    pub cycle: usize,
}

// The lasso of a run that broke the floor at `broken`.
pub(crate) fn show_lasso(work: &mut [i32], broken: usize, source: usize, n: usize) -> Shown
    requires { Showable broken source n work.old }
    ensures { Shows broken source n result.stem result.cycle work.old work.new }
{
    let start = go_back(work, broken, n);
    find_stem(work, source, start, n);
    let stem = take_stem(work, start);
    let cycle = take_cycle(work, start, n);
    Shown {
        stem: stem,
        cycle: cycle,
    }
}
