// The reader of claims in the Hanoi format: refusals 14 to 16 or the claim, in one pass over the lent text. The claim goes
// into cells of the caller's. Contracts cite specs/Judging.antt and specs/Cells.antt.
#![tactic(auto)]

ghost use Rattle.std.specs.Prelude.{◌≡◌, true, ◌≤◌, length, replicate};
ghost use Rattle.model.specs.ClaimTokens.{opens};
ghost use Rattle.model.specs.ClaimEntry.{ClaimSays, MovesSay};
ghost use Rattle.claim.specs.Cells.{claim_cells};
ghost use Rattle.claim.specs.Judging.{VersionSays, OpeningSays, TextRead, IntoSays, ClaimRead};

mod body;
mod header;
mod labels;
mod tokens;

use crate::body::read_body;
use crate::header::header_at;
use crate::tokens::{Seen, Token, fault, token_at, word};
use model::{Claimed, Refusal};

// The counts of a claim.
#[derive(Clone, Copy, Debug, PartialEq, Eq)]
pub struct Counts {
    pub states: u32,
    pub start: u32,
    pub propositions: u32,
}

impl Counts {
    // "To 16,384 bytes. Taken: at most 15 states, 8 propositions"
    pub const LONGEST: usize = 16384;

    pub const MOST_STATES: u32 = 15;

    pub const MOST_PROPOSITIONS: u32 = 8;
    // Flag values of so many propositions.
    pub const MOST_VALUES: usize = 256;
    // How many cells a claim takes, and where its parts begin: of each state its mark, its name's place and length, and a
    // bit for each state that its edges lead to; then of each state and flag values a bit for each state that it moves to.
    pub const CELLS: usize = 3900;

    pub const NAMES: usize = 15;

    pub const LENGTHS: usize = 30;

    pub const LEADS: usize = 45;

    pub const MOVES: usize = 60;
}

// Past the name v1 at `at`.
fn version(text: &[u8], at: usize, limit: usize) -> Result<usize, Refusal>
    ensures { VersionSays text.now limit at result }
{
    let Seen { token, next } = token_at(text, at, limit);
    match token {
        Token::Name(a, e) => {
            if word(text, a, e, b"v1") {
                return Ok(next);
            }
            Err(Refusal::ClaimGrammar)
        }
        _ => Err(fault(token)),
    }
}

// Past the tokens `HOA:` and v1, of a text of which `limit` bytes are looked at.
fn opening(text: &[u8], limit: usize) -> Result<usize, Refusal>
    ensures { OpeningSays text.now limit result }
{
    let Seen { token, next } = token_at(text, 0, limit);
    match token {
        Token::Header(a, e) => {
            if word(text, a, e, b"HOA") {
                return version(text, next, limit);
            }
            Err(Refusal::ClaimGrammar)
        }
        _ => Err(fault(token)),
    }
}

// Reads a text that opens rightly into cells that are all zeros.
fn read_opened(text: &[u8], cells: &mut [u32]) -> Result<Counts, Refusal>
    requires text_value { opens text.now ≡ true }
    requires claim_cells_in_bounds { claim_cells ≤ length cells.old }
    ensures { TextRead text.now result cells.old cells.new }
{
    let items = opening(text, Counts::LONGEST)?;
    let (counts, lines) = header_at(text, items)?;
    read_body(text, lines, counts.states, counts.propositions, cells)?;
    Ok(counts)
}

// The same of any text: "14, the text does not open with the tokens `HOA:` and v1", however long it is.
fn read_text(text: &[u8], cells: &mut [u32]) -> Result<Counts, Refusal>
    requires { claim_cells ≤ length cells.old }
    ensures { TextRead text.now result cells.old cells.new }
{
    match opening(text, text.len()) {
        Err(_) => Err(Refusal::NoClaim),
        Ok(_) => read_opened(text, cells),
    }
}

// Reads into cells that have room, all zeros before; after a refusal they are so again.
fn read_into(text: &[u8], cells: &mut [u32]) -> Result<Counts, Refusal>
    requires claim_cells_in_bounds { claim_cells ≤ length cells.old }
    requires cells_value { cells.old ≡ replicate (length cells.old) 0 }
    ensures { IntoSays text.now result cells.new }
{
    let judged = read_text(text, cells);
    if judged.is_err() {
        cells.fill(0);
    }
    judged
}

// Judges a whole text as a claim, and puts the claim into the first cells, if they have room for it; the rest are zeros.
pub fn read_claim(text: &[u8], cells: &mut [u32]) -> Result<Counts, Refusal>
    ensures { ClaimRead text.now result cells.old cells.new }
{
    cells.fill(0);
    if cells.len() < Counts::CELLS {
        let mut own = [0u32; Counts::CELLS];
        return read_into(text, &mut own);
    }
    read_into(text, &mut cells[..Counts::CELLS])
}

// A text as a claim: its refusal or its counts, and of each state its mark and its name's place and length.
pub fn describe_claim(text: &[u8]) -> Claimed
    ensures { ClaimSays text.now result }
{
    let mut cells = [0u32; Counts::CELLS];
    let mut accepting = [0u32; 15];
    let mut name_at = [0u32; 15];
    let mut name_length = [0u32; 15];
    let judged = read_into(text, &mut cells);
    accepting.copy_from_slice(&cells[..Counts::NAMES]);
    name_at.copy_from_slice(&cells[Counts::NAMES..Counts::LENGTHS]);
    name_length.copy_from_slice(&cells[Counts::LENGTHS..Counts::LEADS]);
    let described = Claimed {
        refusal: 0,
        states: 0,
        start: 0,
        propositions: 0,
        accepting,
        name_at,
        name_length,
    };
    match judged {
        Err(refusal) => Claimed {
            refusal: refusal.number(),
            ..described
        },
        Ok(counts) => Claimed {
            states: counts.states,
            start: counts.start,
            propositions: counts.propositions,
            ..described
        },
    }
}

// Where a state of a claim may move on flag values, a bit for each state: nowhere where the text is refused, or the state
// or the values are out of range.
pub fn claim_moves(text: &[u8], state: u32, values: u32) -> u32
    ensures { MovesSay text.now state values result }
{
    let mut cells = [0u32; Counts::CELLS];
    match read_into(text, &mut cells) {
        Err(_) => 0,
        Ok(c) => {
            if c.states <= state {
                return 0;
            }
            if 1 << c.propositions <= values {
                return 0;
            }
            cells[Counts::MOVES + Counts::MOST_VALUES * state as usize + values as usize]
        }
    }
}
