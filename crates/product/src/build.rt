// The product as a case file, out of the tables into which a chart and a claim were read. Contracts cite specs/Written.antt.
ghost use Rattle.std.specs.Prelude.{◌≡◌, ◌≤◌, length};
ghost use Rattle.text.specs.Writing.{Puts};
ghost use Rattle.model.specs.Graph.{table_of};
ghost use Rattle.model.specs.Case.{most_edges, most_workers};
ghost use Rattle.model.specs.CaseText.{case_file};
ghost use Rattle.model.specs.Product.{remainder_by};
ghost use Rattle.product.specs.Tables.{edges_of};
ghost use Rattle.product.specs.Written.{MarksAsk, StartsMarked, case_by};

use crate::case::write_case;
use crate::edges::Product;
use crate::table::{Edges, Ends};
use casefile::{Case, put};
use text::write::Writer;

// The mark of its claim state for each vertex that an edge leaves. "Accepting 0 for a product vertex with no edge": the others
// keep the 0 that they have.
fn mark_starts(edges: &[Ends], states: usize, cells: &[u32], marks: &mut [u32])
    requires { MarksAsk states cells.now marks.old }
    ensures { StartsMarked states cells.now (edges_of edges.now) marks.new }
{
    for edge in edges {
        let v = edge.from as usize;
        put(marks, v, cells[v % states]);
    }
}

// The owner of each vertex.
fn fill_owners(workers: usize, owners: &mut [u32])
    requires { (1 ≤ workers) × (workers ≤ most_workers) }
    ensures { owners.new ≡ table_of (remainder_by workers) (length owners.old) 0 }
{
    for (v, owner) in owners.iter_mut().enumerate() {
        *owner = (v % workers) as u32;
    }
}

impl Product<'_> {
    // The case file of the product, which has these edges.
    pub(crate) fn write(&self, page: &mut Writer, workers: usize, edges: &Edges)
        requires { (1 ≤ workers) × (workers ≤ most_workers) }
        ensures same { page.new.output.ghost_name ≡ page.old.output.ghost_name }
        ensures file { Puts (case_file (case_by self.now.sizes workers self.now.cells.now edges.now)) page.old page.new }
        ensures few { length edges.now ≤ most_edges }
    {
        let mut marks = [0u32; Case::MOST_VERTICES];
        let mut owners = [0u32; Case::MOST_VERTICES];
        let vertices = self.sizes.modes * self.sizes.states;
        let edges = edges.as_slice();
        mark_starts(edges, self.sizes.states, self.cells, &mut marks);
        fill_owners(workers, &mut owners[..vertices]);
        write_case(
            page,
            self.sizes.source as u32,
            workers as u32,
            &marks[..vertices],
            &owners[..vertices],
            edges,
        );
    }
}
