// The listing of a lasso's steps: for each edge of the answer a line of the mode and the claim state that it leaves. Contracts
// cite specs/Names.antt.
ghost use Rattle.std.specs.Prelude.{◌≡◌, [], ◌∷◌, ◌≤◌, ◌<◌, length};
ghost use Rattle.text.specs.Lines.{text};
ghost use Rattle.text.specs.Writing.{Puts};
ghost use Rattle.model.specs.ClaimGrammar.{most_states};
ghost use Rattle.claim.specs.Cells.{claim_cells};

use crate::names::{Place, name_at};
use crate::table::Edges;
use claim::Counts;
use text::read::numbers_row;
use text::write::Writer;

// What the vertices of a product are named by: both texts, where the modes' names stand, and the claim's cells.
#[derive(Clone, Copy)]
pub(crate) struct Names<'a> {
    pub chart: &'a [u8],
    pub claim: &'a [u8],
    pub places: &'a [usize],
    pub cells: &'a [u32],
    pub states: usize,
    ghost some: { 1 ≤ states },
    ghost few: { states ≤ most_states },
    ghost roomy: { claim_cells ≤ length cells.now },
}

impl Names<'_> {
    ghost use Rattle.product.specs.Names.{state_text, named_row, StepsWritten};

    // Claim state s: its name, or its number where it has none. Place 0 says so in the claim's cells, which the C interface hands
    // out.
    fn write_state(&self, page: &mut Writer, s: usize)
        requires { s < most_states }
        ensures same { page.new.output.ghost_name ≡ page.old.output.ghost_name }
        ensures name { Puts (state_text self.now.claim.now self.now.cells.now s) page.old page.new }
    {
        let place = self.cells[Counts::NAMES + s] as usize;
        // place 0 is no name in a claim's cells, as in the C interface's result
        if place == 0 {
            page.number(s as u32);
            return;
        }
        let many = self.cells[Counts::LENGTHS + s] as usize;
        page.bytes(name_at(self.chart, self.claim, Place::State(place, many)));
    }

    // The line of vertex v.
    fn write_step(&self, page: &mut Writer, v: usize)
        ensures same { page.new.output.ghost_name ≡ page.old.output.ghost_name }
        ensures line { Puts (text (named_row self.now v ∷ [])) page.old page.new }
    {
        let place = self.places.get(v / self.states).copied().unwrap_or(0);
        page.bytes(name_at(self.chart, self.claim, Place::Mode(place)));
        page.byte(b' ');
        self.write_state(page, v % self.states);
        page.byte(b'\n');
    }

    // The lines of the edges that stand in the answer from `at` on, a walk from v.
    pub(crate) fn write_steps(
        &self,
        page: &mut Writer,
        answer: &[u8],
        at: usize,
        v: usize,
        edges: &Edges,
    )
        ensures same { page.new.output.ghost_name ≡ page.old.output.ghost_name }
        ensures lines { StepsWritten (named_row self.now) answer.now at v edges.now page.old page.new }
    {
        let mut here = at;
        let mut w = v;
        while here < answer.len() {
            let Some(row) = numbers_row::<1>(answer, here) else {
                return;
            };
            let [e] = row.numbers;
            self.write_step(page, w);
            w = edges.end_of(e as usize, w);
            here = row.next;
        }
    }
}
