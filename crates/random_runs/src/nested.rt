// A plain nested search: from the source, and from each accepting vertex that this reaches, back to itself. It knows
// nothing of distances, workers, acts or edge numbers; a vertex that no edge leaves rests there, or ends the walk.
use bench_kit::graph::Graph;
use model::Verdict;
use std::alloc::{AllocError, Global};
use std::collections::BTreeSet;

// Follows the edges from a vertex: what is new at their ends is seen, and goes on the stack.
fn follow(
    graph: &Graph,
    from: usize,
    seen: &mut BTreeSet<usize>,
    stack: &mut Vec<usize>,
) -> Result<(), AllocError> {
    for edge in graph.edges.iter() {
        if edge.from == from && seen.insert(edge.to)? {
            stack.push(edge.to)?;
        }
    }
    Ok(())
}

// What a walk of at least one edge from v reaches. A vertex goes on the stack once, and v once more, so n + 1 steps empty
// it.
fn reached(alloc: Global, graph: &Graph, v: usize) -> Result<BTreeSet<usize>, AllocError> {
    let mut seen = BTreeSet::new(alloc);
    let mut stack = vec![in alloc; v]?;
    for _ in 0..=graph.vertices.len() {
        let Some(from) = stack.pop() else { break };
        follow(graph, from, &mut seen, &mut stack)?;
    }
    Ok(seen)
}

// Whether a closed walk leaves v, or v rests, if dead ends rest.
fn closes(alloc: Global, graph: &Graph, v: usize, resting: bool) -> Result<bool, AllocError> {
    if resting && !graph.edges.iter().any(|edge| edge.from == v) {
        return Ok(true);
    }
    Ok(reached(alloc, graph, v)?.contains(&v))
}

// What the search must find: with rest loops, or in the graph as the file has it.
pub(crate) fn verdict(alloc: Global, graph: &Graph, resting: bool) -> Result<Verdict, AllocError> {
    let mut seen = reached(alloc, graph, graph.source)?;
    seen.insert(graph.source)?;
    for (v, vertex) in graph.vertices.iter().enumerate() {
        if vertex.accepting && seen.contains(&v) && closes(alloc, graph, v, resting)? {
            return Ok(Verdict::Lasso);
        }
    }
    Ok(Verdict::Empty)
}
