// The judges for bench/, each on its own: the refusal of a case file and that of a claim. A number, 0 where there is none: bench/
// calls them as C would.
#![tactic(auto)]

ghost use Rattle.std.specs.Prelude.{◌≡◌};
ghost use Rattle.model.specs.CaseFile.{case_refusal};
ghost use Rattle.model.specs.ClaimTable.{claim_refusal};

use casefile::judge;
use claim::{Counts, read_claim};

#[unsafe(no_mangle)]
pub extern "C" fn rezkundo_judge(text: &[u8]) -> u32
    ensures { result ≡ case_refusal text.now }
{
    match judge(text) {
        Err(refusal) => refusal.number(),
        Ok(_) => 0,
    }
}

// The claim is read into cells of its own.
#[unsafe(no_mangle)]
pub extern "C" fn rezkundo_judge_claim(text: &[u8]) -> u32
    ensures { result ≡ claim_refusal text.now }
{
    let mut cells = [0u32; Counts::CELLS];
    match read_claim(text, &mut cells) {
        Err(refusal) => refusal.number(),
        Ok(_) => 0,
    }
}
