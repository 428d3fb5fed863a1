// The product's edges, in the order of a case file. For each vertex a row of masks is filled, one for each mode, and its edges
// are read off. Contracts cite specs/Edges.antt.
ghost use Rattle.std.specs.Prelude.{◌≡◌, [], ◌+◌, ◌*◌, ◌^◌, ◌≤◌, ◌<◌, length};
ghost use Rattle.model.specs.ClaimGrammar.{most_states};
ghost use Rattle.model.specs.Chart.{most_modes};
ghost use Rattle.product.specs.Edges.{Asks, MaskAdds, RowAdds, RowAsks, RowFilled, VertexAdds, EdgesFound};

use crate::table::{Edges, Ends};
use chart::Chart;
use claim::Counts;
use model::Refusal;

// The modes of a chart, the states of a claim, the combinations of flags; and the product's source.
#[derive(Clone, Copy)]
pub(crate) struct Sizes {
    pub modes: usize,
    pub states: usize,
    pub count: usize,
    pub source: usize,
}

// The product of a chart and a claim, in the tables into which these were read.
#[derive(Clone, Copy)]
pub(crate) struct Product<'a> {
    pub sizes: Sizes,
    pub follow: &'a [u8],
    pub cells: &'a [u32],
    ghost asks: { Asks sizes follow.now cells.now },
    ghost near: { sizes.source < 2 ^ 32 },
}

// For each combination of flags, where the claim can go together with the chart's next mode, by the entries of a vertex's mode
// and the masks of its state. By index: a zip of both takes 5 % longer.
fn fill_row(row: &mut [u32], entries: &[u8], masks: &[u32])
    requires { RowAsks row.old entries.now masks.now }
    ensures { RowFilled entries.now masks.now row.new }
{
    for f in 0..entries.len() {
        row[(entries[f] - Chart::ONE_RULE) as usize] |= masks[f];
    }
}

// The edges from a vertex by the mask of one mode, whose first vertex is `to`. Most masks have no bit.
fn add_mask(mask: u32, from: u32, to: u32, states: u32, edges: &mut Edges) -> Result<(), Refusal>
    requires { (states ≤ most_states) × (to + states < 2 ^ 32) }
    ensures { MaskAdds mask from to states edges.old result edges.new }
{
    if mask == 0 {
        return Ok(());
    }
    for t in 0..states {
        if mask >> t & 1 == 1 {
            edges.push(Ends { from, to: to + t })?;
        }
    }
    Ok(())
}

// The edges that leave a vertex, by the masks of its modes.
fn add_row(row: &[u32], from: u32, states: u32, edges: &mut Edges) -> Result<(), Refusal>
    requires { (length row.now ≤ most_modes) × (states ≤ most_states) }
    ensures { RowAdds row.now from states edges.old result edges.new }
{
    let mut to: u32 = 0;
    for mask in row {
        add_mask(*mask, from, to, states, edges)?;
        to += states;
    }
    Ok(())
}

impl Product<'_> {
    // The edges that leave vertex v.
    fn add_vertex(&self, v: usize, edges: &mut Edges) -> Result<(), Refusal>
        requires { v < self.now.sizes.modes * self.now.sizes.states }
        ensures { VertexAdds v self.now.sizes self.now.follow.now self.now.cells.now edges.old result edges.new }
    {
        let mut row = [0u32; Chart::MOST_MODES];
        let Sizes {
            modes,
            states,
            count,
            ..
        } = self.sizes;
        let at = v / states * count;
        let from = Counts::MOVES + Counts::MOST_VALUES * (v % states);
        fill_row(
            &mut row,
            &self.follow[at..at + count],
            &self.cells[from..from + count],
        );
        add_row(&row[..modes], v as u32, states as u32, edges)
    }

    // All edges, if a case file may have so many, into a table of the caller's: a table in the result would be moved, and take
    // more of the stack than the header says.
    pub(crate) fn find_edges(&self, edges: &mut Edges) -> Result<(), Refusal>
        requires { edges.old ≡ [] }
        ensures { EdgesFound self.now.sizes self.now.follow.now self.now.cells.now result edges.new }
    {
        for v in 0..self.sizes.modes * self.sizes.states {
            self.add_vertex(v, edges)?;
        }
        Ok(())
    }
}
