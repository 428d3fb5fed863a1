// A chart and a claim, read into tables: their refusals in order, or the counts of the product. Contracts cite specs/Both.antt.
ghost use Rattle.product.specs.Both.{BothAsks, BothSays};

use crate::edges::Sizes;
use crate::refused::Refused;
use chart::{combinations, read_chart};
use claim::read_claim;
use model::Refusal;

// "Chart faults come before claim faults"; then their counts are compared: "Proposition i is flag i".
pub(crate) fn read_both(
    chart: &[u8],
    claim: &[u8],
    follow: &mut [u8],
    cells: &mut [u32],
) -> Result<Sizes, Refused>
    requires { BothAsks follow.old cells.old }
    ensures { BothSays chart.now claim.now result follow.new cells.new }
{
    let chart = read_chart(chart, follow)?;
    let claim = read_claim(claim, cells)?;
    if claim.propositions as usize != chart.flags {
        return Err(Refused::from(Refusal::CountsDiffer));
    }
    let states = claim.states as usize;
    Ok(Sizes {
        modes: chart.modes,
        states,
        count: combinations(chart.flags),
        source: chart.start * states + claim.start as usize,
    })
}
