// The table of a product's edges. Contracts cite specs/Tables.antt.
ghost use Rattle.std.specs.Prelude.{◌≡◌, List, [], ◌∷◌, ◌≤◌, length, take};
ghost use Rattle.model.specs.Graph.{Edge};
ghost use Rattle.model.specs.Case.{most_edges};
ghost use Rattle.product.specs.Tables.{edge_of, edges_of, end_of, Added};

use casefile::Case;
use model::Refusal;
use std::marker::Model;

// An edge.
#[derive(Clone, Copy)]
pub(crate) struct Ends {
    pub from: u32,
    pub to: u32,
}

// The edges found so far, as many as a case file may have.
#[derive(Drop)]
pub(crate) struct Edges {
    ends: [Ends; Case::MOST_EDGES],
    count: usize,
}

impl Model for Edges {
    ghost Value = { List Edge };

    ghost view = { λ s. edges_of (take s.count s.ends) };

    ghost invariant = { λ s. s.count ≤ most_edges };
}

impl Edges {
    pub(crate) fn new() -> Edges
        ensures { result ≡ [] }
    {
        Edges {
            ends: [Ends { from: 0, to: 0 }; Case::MOST_EDGES],
            count: 0,
        }
    }

    // One edge more, if a case file may have it.
    pub(crate) fn push(&mut self, edge: Ends) -> Result<(), Refusal>
        ensures { Added (edge_of edge ∷ []) self.old result self.new }
    {
        if self.count == Case::MOST_EDGES {
            return Err(Refusal::TooManyEdges);
        }
        self.ends[self.count] = edge;
        self.count += 1;
        Ok(())
    }

    pub(crate) fn as_slice(&self) -> &[Ends]
        ensures ends { edges_of result.now ≡ self.now }
        ensures few { length result.now ≤ most_edges }
    {
        &self.ends[..self.count]
    }

    // Where edge e leads from v: one past the table is a rest loop.
    pub(crate) fn end_of(&self, e: usize, v: usize) -> usize
        ensures { result ≡ end_of self.now e v }
    {
        match self.as_slice().get(e) {
            Some(edge) => edge.to as usize,
            None => v,
        }
    }
}
