// Why nothing is written, and what an entry returns. Contracts cite specs/Refused.antt.
ghost use Rattle.std.specs.Prelude.{◌≡◌};
ghost use Rattle.product.specs.Refused.{refused_by, refused_chart, built_as};

use chart::NoChart;
use model::{Built, Refusal};

// A refusal's number, as the C interface has it in `Charted` and `Checked` too; of a chart's 18 and 19 with its first bad pair,
// else with 0 and 0.
#[derive(Clone, Copy)]
pub(crate) struct Refused {
    pub refusal: u32,
    pub mode: u32,
    pub combination: u32,
}

impl From<Refusal> for Refused {
    ghost from_gives = { λ k r. r ≡ refused_by k };

    fn from(refusal: Refusal) -> Refused {
        Refused {
            refusal: refusal.number(),
            mode: 0,
            combination: 0,
        }
    }
}

impl From<NoChart> for Refused {
    ghost from_gives = { λ n r. r ≡ refused_chart n };

    fn from(why: NoChart) -> Refused {
        match why {
            NoChart::Fault => Refused::from(Refusal::ChartFault),
            NoChart::Bad(_, said) => Refused {
                refusal: said.refusal,
                mode: said.mode,
                combination: said.combination,
            },
        }
    }
}

// What is returned where so many bytes are written, or none.
pub(crate) fn built(said: Result<u32, Refused>) -> Built
    ensures { result ≡ built_as said }
{
    match said {
        Ok(written) => Built {
            refusal: 0,
            mode: 0,
            combination: 0,
            written,
        },
        Err(refused) => Built {
            refusal: refused.refusal,
            mode: refused.mode,
            combination: refused.combination,
            written: 0,
        },
    }
}
