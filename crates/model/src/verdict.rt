// What a finished run finds, and what an answer says.
ghost use Rattle.std.specs.Prelude.{◌≡◌};
ghost use Rattle.model.specs.Refusals.{verdict_number, checked_as};

use crate::{Checked, Outcome, Refusal};

#[derive(Clone, Copy, Debug, PartialEq, Eq)]
pub enum Verdict {
    Lasso = 1,
    Empty = 2,
}

impl Verdict {
    pub fn number(self) -> u32
        ensures { result ≡ verdict_number self }
    {
        self as u32
    }
}

impl From<Result<Verdict, Refusal>> for Checked {
    ghost from_gives = { λ r c. c ≡ checked_as r };

    fn from(r: Result<Verdict, Refusal>) -> Checked {
        match r {
            Ok(verdict) => Checked {
                refusal: 0,
                verdict: verdict.number(),
            },
            Err(refusal) => Checked {
                refusal: refusal.number(),
                verdict: Outcome::NONE,
            },
        }
    }
}
