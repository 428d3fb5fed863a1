// Graphs with owners, and their case files.
use crate::rows::{write_head, write_row2, write_row3};
use std::alloc::{AllocError, Global};
use std::collections::BTreeSet;
use std::ops::Range;
use text::write::Writer;

// More than a case's first three lines and the names of its edges.
const HEAD: usize = 128;

// The longest row: a vertex, its mark of one digit and its owner. An edge's is no longer.
const LONGEST_ROW: usize = 24;

#[derive(Clone, Copy, Debug, PartialEq, Eq)]
pub struct Vertex {
    pub accepting: bool,
    pub owner: usize,
}

#[derive(Clone, Copy, Debug, PartialEq, Eq, PartialOrd, Ord)]
pub struct Edge {
    pub from: usize,
    pub to: usize,
}

// Its edges rise, as those of a case file do.
#[derive(Drop)]
pub struct Graph {
    pub source: usize,
    pub workers: usize,
    pub vertices: Vec<Vertex>,
    pub edges: BTreeSet<Edge>,
}

impl Graph {
    // So many vertices, none accepting, owned in turn.
    pub fn without_edges(alloc: Global, n: usize, workers: usize) -> Result<Graph, AllocError> {
        let mut vertices = Vec::new(alloc);
        for v in 0..n {
            vertices.push(Vertex {
                accepting: false,
                owner: v.checked_rem(workers).unwrap_or(0),
            })?;
        }
        Ok(Graph {
            source: 0,
            workers,
            vertices,
            edges: BTreeSet::new(alloc),
        })
    }

    // So many vertices, none accepting, owned in turn, and the first m edges of the complete graph on them.
    pub fn complete(
        alloc: Global,
        n: usize,
        m: usize,
        workers: usize,
    ) -> Result<Graph, AllocError> {
        let mut graph = Graph::without_edges(alloc, n, workers)?;
        graph.edges = (0..m)
            .map(|e| Edge {
                from: e.checked_div(n).unwrap_or(0),
                to: e.checked_rem(n).unwrap_or(0),
            })
            .collect(alloc)?;
        Ok(graph)
    }

    // Lets the vertices in a range accept, and no other.
    pub fn accept(&mut self, accepting: Range<usize>) {
        for (v, vertex) in self.vertices.iter_mut().enumerate() {
            vertex.accepting = accepting.contains(&v);
        }
    }

    // The case file.
    pub fn text(&self, alloc: Global) -> Result<String, AllocError> {
        let rows = self.vertices.len().saturating_add(self.edges.len());
        let mut room = vec![in alloc; 0; rows.saturating_mul(LONGEST_ROW).saturating_add(HEAD)]?;
        let mut page = Writer::new(&mut room);
        self.write(&mut page);
        String::from_utf8_lossy(alloc, page.written())
    }

    fn write(&self, page: &mut Writer) {
        write_head(
            page,
            number(self.vertices.len()),
            number(self.edges.len()),
            number(self.source),
            number(self.workers),
        );
        for (v, vertex) in self.vertices.iter().enumerate() {
            let mark = u32::from(vertex.accepting);
            write_row3(page, number(v), mark, number(vertex.owner));
        }
        page.bytes(b"from to\n");
        for &Edge { from, to } in self.edges.iter() {
            write_row2(page, number(from), number(to));
        }
    }
}

// A number as a row has it: of 32 bits, the greatest of these where it is greater.
fn number(n: usize) -> u32 {
    u32::try_from(n).unwrap_or(u32::MAX)
}

// Bytes that are put at a time.
const XS: &str = "xxxxxxxxxxxxxxxxxxxxxxxxxxxxxxxxxxxxxxxxxxxxxxxxxxxxxxxxxxxxxxxx";

// A text with so many bytes x after it that it is this long.
pub fn padded(alloc: Global, text: &str, length: usize) -> Result<String, AllocError> {
    let mut out = String::from_str(alloc, text)?;
    let missing = length.saturating_sub(text.len());
    for _ in 0..missing / XS.len() {
        out.push_str(XS)?;
    }
    for _ in 0..missing % XS.len() {
        out.push('x')?;
    }
    Ok(out)
}
