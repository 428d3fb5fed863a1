// Cases at the limits of size, the answers that must come of them, and lists of acts.
use bench_kit::answer;
use bench_kit::graph::{Edge, Graph};
use std::alloc::{AllocError, Global};
use std::fmt::Write;
use std::ops::Range;

// As many vertices as a case may have.
const MOST: usize = 500;

// A case of n vertices, some accepting, and the first m edges of the complete graph.
pub(crate) fn full(
    alloc: Global,
    n: usize,
    m: usize,
    workers: usize,
    accepting: Range<usize>,
) -> Result<String, AllocError> {
    let mut graph = Graph::complete(alloc, n, m, workers)?;
    graph.accept(accepting);
    graph.text(alloc)
}

// A ring: from each vertex to the next, from the last, which is accepting, to 0.
pub(crate) fn ring(alloc: Global, workers: usize) -> Result<String, AllocError> {
    let mut graph = Graph::without_edges(alloc, MOST, workers)?;
    graph.accept(MOST - 1..MOST);
    for v in 0..MOST {
        graph.edges.insert(Edge {
            from: v,
            to: (v + 1) % MOST,
        })?;
    }
    graph.text(alloc)
}

// An answer of the numbers below 500, each on a line that ends so.
fn counted(alloc: Global, head: &str, end: &str) -> Result<String, AllocError> {
    let mut out = String::from_str(alloc, head)?;
    for v in 0..MOST {
        writeln!(out, "{v}{end}")?;
    }
    Ok(out)
}

// The lasso of the ring: no stem, and all edges.
pub(crate) fn ring_answer(alloc: Global) -> Result<String, AllocError> {
    counted(alloc, answer!("2 lasso 0 500 0\nedge\n"), "")
}

// All of 500 vertices reached, at distance 0.
pub(crate) fn full_answer(alloc: Global) -> Result<String, AllocError> {
    counted(alloc, answer!("2 empty 0 0 500\nvertex distance\n"), " 0")
}

// So many acts of whole rounds of K1, which has five acts to a round.
pub(crate) fn rounds_of_k1(alloc: Global, count: u32) -> Result<Vec<u32>, AllocError> {
    (0..count).map(|i| i % 5).collect(alloc)
}

// So many acts round a ring of 500 owned by 16 in turn: a turn of the vertex's owner, then the delivery on its edge.
pub(crate) fn round_ring(alloc: Global, count: u32) -> Result<Vec<u32>, AllocError> {
    (0..count).map(ring_act).collect(alloc)
}

fn ring_act(i: u32) -> u32 {
    let v = i / 2 % 500;
    if i % 2 == 0 { v % 16 } else { 16 + v }
}
