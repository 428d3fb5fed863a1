// Random graphs.
ghost use Rattle.std.specs.Prelude.{◌<◌, ◌≤◌};

use bench_kit::graph::{Edge, Graph};
use std::alloc::{AllocError, Global};

// A sequence of numbers, by the last one drawn; none is 0 if the first is not.
#[derive(Clone, Copy)]
pub(crate) struct Random {
    pub last: u32,
}

impl Random {
    pub(crate) fn next(&mut self) -> u32 {
        self.last ^= self.last << 13;
        self.last ^= self.last >> 17;
        self.last ^= self.last << 5;
        self.last
    }

    // The next number, below the limit.
    pub(crate) fn below(&mut self, limit: usize) -> usize {
        below(self.next(), limit)
    }
}

// A number below the limit, or 0 where that is 0.
pub(crate) fn below(x: u32, limit: usize) -> usize
    ensures { result ≤ limit }
{
    (x as usize).checked_rem(limit).unwrap_or(0)
}

// How many vertices: few, or one time in sixteen many.
fn vertices(x: u32) -> usize
    ensures { result < 128 }
{
    let rest = x as usize / 16;
    if x % 16 == 0 {
        80 + rest % 48
    } else {
        1 + rest % 32
    }
}

// How many vertices in a hundred are accepting.
fn share(x: u32) -> usize {
    match x % 4 {
        0 => 3,
        1 => 10,
        2 => 30,
        _ => 60,
    }
}

// A graph owned by one worker, with up to three edges drawn for each vertex, some perhaps the same.
pub(crate) fn graph(alloc: Global, random: &mut Random) -> Result<Graph, AllocError> {
    let n = vertices(random.next());
    let mut graph = Graph::without_edges(alloc, n, 1)?;
    let draws = random.below(3 * n + 1);
    draw_edges(&mut graph, random, draws)?;
    let share = share(random.last / 8);
    for vertex in graph.vertices.iter_mut() {
        vertex.accepting = random.below(100) < share;
    }
    graph.source = below(random.last, n);
    Ok(graph)
}

fn draw_edges(graph: &mut Graph, random: &mut Random, draws: usize) -> Result<(), AllocError> {
    let n = graph.vertices.len();
    for _ in 0..draws {
        let from = random.below(n);
        let to = random.below(n);
        graph.edges.insert(Edge { from, to })?;
    }
    Ok(())
}

// Gives the vertices to 1 to 16 workers.
pub(crate) fn owners(graph: &mut Graph, random: &mut Random) {
    graph.workers = 1 + random.next() as usize % 16;
    for vertex in graph.vertices.iter_mut() {
        vertex.owner = random.below(graph.workers);
    }
}

// Acts below the limit.
pub(crate) fn acts(
    alloc: Global,
    random: &mut Random,
    count: usize,
    limit: usize,
) -> Result<Vec<u32>, AllocError> {
    let mut acts = vec![in alloc; 0; count]?;
    for act in acts.iter_mut() {
        *act = u32::try_from(random.below(limit)).unwrap_or(0);
    }
    Ok(acts)
}
