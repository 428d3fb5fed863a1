// Names of modes and of claim states, as parts of the lent texts. Contracts cite specs/Names.antt.
ghost use Rattle.product.specs.Names.{Piece, NameIs, PlacesFilled};

use text::read::{field, next_line, past_head};

// Where a name stands: a mode's in the chart, up to its line's end; a state's in the claim, from a place on, so many bytes.
#[derive(Clone, Copy)]
pub(crate) enum Place {
    Mode(usize),
    State(usize, usize),
}

// So many bytes from a place on: that very part of the text, cut at its end.
fn part(text: &[u8], at: usize, many: usize) -> &[u8]
    ensures { Piece text.entry at many result }
{
    let start = at.min(text.len());
    let end = start + many.min(text.len() - start);
    &text[start..end]
}

// The name at a place: that very part of the chart, or of the claim.
pub(crate) fn name_at<'a>(chart: &'a [u8], claim: &'a [u8], place: Place) -> &'a [u8]
    ensures { NameIs chart.entry claim.entry place result }
{
    match place {
        Place::Mode(at) => field(chart, at),
        Place::State(at, many) => part(claim, at, many),
    }
}

// Where the name of each mode stands: in the lines from the fourth on. The places past the last mode's are of other lines.
pub(crate) fn fill_places(chart: &[u8], places: &mut [usize])
    ensures { PlacesFilled chart.now places.new }
{
    let mut at = past_head(chart);
    for place in places.iter_mut() {
        *place = at;
        at = next_line(chart, at);
    }
}
