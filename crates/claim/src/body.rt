// The body of a claim, a state line at a time, into cells of the caller's: of each state its mark, the place and length of
// its name, the states that its edges lead to, and those that it may move to on each flag values.
ghost use Rattle.std.specs.Prelude.{◌≡◌, false, ◌&&◌, not, ℕ, ◌+◌, ◌<◌, ◌≤◌, ltb, length};
ghost use Rattle.std.proofs.Math.Option.{some};
ghost use Rattle.model.specs.ClaimLabels.{bit};
ghost use Rattle.model.specs.ClaimGrammar.{title_fits, most_states, most_propositions};
ghost use Rattle.claim.specs.LabelSays.{most_values, all_bits};
ghost use Rattle.claim.specs.Reads.{part};
ghost use Rattle.claim.specs.Cells.{claim_cells, moves_from, word_moves, set_moves, Added, Gathered, Led};
ghost use Rattle.claim.specs.BodySays.{TitleSays, MarksSay, MarkSays, EdgeSays, EdgesSay, NumberRead, RestSays, LineSays, EndSays, DueSays, BodySays};

use crate::Counts;
use crate::header::number_at;
use crate::labels::{ALL, NOTHING, Values, label};
use crate::tokens::{
    Parsed, Seen, Token, byte_at, claim_token, fault, is_symbol, past_blanks, word,
};
use model::Refusal;

const LONGEST_TITLE: usize = 32;

// Whether the bytes from `a` to `e` can be a state's name.
fn title_fits(text: &[u8], a: usize, e: usize) -> bool
    requires a_le_e { a ≤ e }
    requires e_in_bounds { e ≤ length text.now }
    ensures { result ≡ title_fits (some (part text.now a e)) }
{
    if LONGEST_TITLE < e - a {
        return false;
    }
    !text[a..e].contains(&b'\n')
}

// The name of state c, if one is at `at`; else the place past the blanks there.
fn title(text: &[u8], at: usize, c: usize, cells: &mut [u32]) -> Result<usize, Refusal>
    requires c_lt_most_states { c < most_states }
    requires claim_cells_in_bounds { claim_cells ≤ length cells.old }
    ensures { TitleSays text.now c at result cells.old cells.new }
{
    let here = past_blanks(text, at);
    let Seen { token, next } = claim_token(text, here);
    let Token::Text(a, e) = token else {
        return Ok(here);
    };
    if !title_fits(text, a, e) {
        return Err(Refusal::ClaimGrammar);
    }
    cells[Counts::NAMES + c] = a as u32;
    cells[Counts::LENGTHS + c] = (e - a) as u32;
    Ok(next)
}

// Whether a mark has numbers, from `at` on, past the {; and the place past its }.
fn marks_end(text: &[u8], at: usize) -> Parsed<bool>
    ensures { MarksSay text.now at result }
{
    let mut any = false;
    let mut here = at;
    loop {
        let Seen { token, next } = claim_token(text, here);
        let Token::Number(v) = token else {
            if is_symbol(token, b'}') {
                return Ok((any, next));
            }
            return Err(fault(token));
        };
        if v != 0 {
            return Err(Refusal::ClaimGrammar);
        }
        any = true;
        here = next;
    }
}

// The mark of state c, if one is at `at`.
fn mark(text: &[u8], at: usize, c: usize, cells: &mut [u32]) -> Result<usize, Refusal>
    requires c_lt_most_states { c < most_states }
    requires claim_cells_in_bounds { claim_cells ≤ length cells.old }
    ensures { MarkSays text.now c at result cells.old cells.new }
{
    let here = past_blanks(text, at);
    if byte_at(text, here) != Some(b'{') {
        return Ok(here);
    }
    let (any, past) = marks_end(text, here + 1)?;
    cells[c] = u32::from(any);
    Ok(past)
}

// One more target, d, for 64 cells from `first` on.
// Beside `add_word`, not one loop with it: with a bit tested for each cell, edges `[t]` take longer (docs/DECISIONS.md).
fn add_all(cells: &mut [u32], first: usize, d: u32)
    requires d_bound { d < 32 }
    requires first_in_bounds { first + 64 ≤ length cells.old }
    ensures { Added first 64 (word_moves d all_bits) cells.old cells.new }
{
    for i in 0..64 {
        cells[first + i] |= 1 << d;
    }
}

// One more target, d, for the cells from `first` on where the word has a bit. The words of `[t]` have every bit, and need no
// test.
fn add_word(cells: &mut [u32], first: usize, d: u32, word: u64)
    requires d_bound { d < 32 }
    requires first_in_bounds { first + 64 ≤ length cells.old }
    ensures { Added first 64 (word_moves d word) cells.old cells.new }
{
    if word == 0 {
        return;
    }
    if word == ALL {
        add_all(cells, first, d);
        return;
    }
    for i in 0..64 {
        cells[first + i] |= (((word >> i) % 2) as u32) << d;
    }
}

// State c moves to d too, on the flag values of the set.
fn add_moves(cells: &mut [u32], c: usize, d: u32, w: Values)
    requires c_lt_most_states { c < most_states }
    requires d_bound { d < 32 }
    requires claim_cells_in_bounds { claim_cells ≤ length cells.old }
    ensures { Added (moves_from c) most_values (set_moves d w) cells.old cells.new }
{
    let first = Counts::MOVES + Counts::MOST_VALUES * c;
    let words = w.words;
    for k in 0..4 {
        add_word(cells, first + 64 * k, d, words[k]);
    }
}

// The values of w are in the set of target d too.
fn add_values(sets: &mut [Values], d: usize, w: Values)
    requires d_lt_most_states { d < most_states }
    requires sets_in_bounds { most_states ≤ length sets.old }
    ensures { Gathered d w sets.old sets.new }
{
    sets[d] = sets[d] | w;
}

// Edges lead from state c to the states of `leads`, to each on the flag values of its set.
fn add_edges(cells: &mut [u32], c: usize, leads: u32, sets: &[Values])
    requires c_lt_most_states { c < most_states }
    requires claim_cells_in_bounds { claim_cells ≤ length cells.old }
    requires sets_in_bounds { most_states ≤ length sets.now }
    requires by_index { (d : ℕ) → most_states ≤ d → bit leads d ≡ false }
    ensures { Led c leads sets.now cells.old cells.new }
{
    for d in 0..Counts::MOST_STATES {
        if (leads >> d) % 2 != 1 {
            continue;
        }
        add_moves(cells, c, d, sets[d as usize]);
    }
    cells[Counts::LEADS + c] |= leads;
}

// An edge, past its [: its target and the place past that and blanks. Its label's flag values go into the target's set.
fn edge(text: &[u8], at: usize, states: u32, count: u32, sets: &mut [Values]) -> Parsed<u32>
    requires states_le_most_states { states ≤ most_states }
    requires count_le_most_propositions { count ≤ most_propositions }
    requires sets_in_bounds { most_states ≤ length sets.old }
    ensures { EdgeSays text.now states count at result sets.old sets.new }
{
    let (w, end) = label(text, at, count)?;
    let (d, past) = number_at(text, end)?;
    if states <= d {
        return Err(Refusal::ClaimGrammar);
    }
    let next = past_blanks(text, past);
    if byte_at(text, next) == Some(b'{') {
        return Err(Refusal::NotTaken);
    }
    add_values(sets, d as usize, w);
    Ok((d, next))
}

// The edges of state c from `at` on.
fn edges(
    text: &[u8],
    at: usize,
    states: u32,
    count: u32,
    c: usize,
    cells: &mut [u32],
) -> Result<usize, Refusal>
    requires states_le_most_states { states ≤ most_states }
    requires count_le_most_propositions { count ≤ most_propositions }
    requires c_lt_most_states { c < most_states }
    requires claim_cells_in_bounds { claim_cells ≤ length cells.old }
    ensures { EdgesSay text.now states count c at result cells.old cells.new }
{
    let mut sets = [NOTHING; Counts::NAMES];
    let mut leads: u32 = 0;
    let mut here = past_blanks(text, at);
    while byte_at(text, here) == Some(b'[') {
        let (d, end) = edge(text, here + 1, states, count, &mut sets)?;
        leads |= 1 << d;
        here = end;
    }
    add_edges(cells, c, leads, &sets);
    Ok(here)
}

// Whether c is a state that is not listed.
fn unlisted(c: u32, states: u32, listed: u32) -> bool
    requires { states ≤ most_states }
    ensures { result ≡ (ltb c states && not (bit listed c)) }
{
    if states <= c {
        return false;
    }
    (listed >> c) % 2 != 1
}

// The number of a state line, past its `State:`.
fn line_number(text: &[u8], at: usize, states: u32, listed: u32) -> Parsed<u32>
    requires { states ≤ most_states }
    ensures { NumberRead text.now states listed at result }
{
    let Seen { token, next } = claim_token(text, at);
    match token {
        Token::Number(c) => {
            if unlisted(c, states, listed) {
                return Ok((c, next));
            }
            Err(Refusal::ClaimGrammar)
        }
        _ => {
            if is_symbol(token, b'[') {
                return Err(Refusal::NotTaken);
            }
            Err(fault(token))
        }
    }
}

// What follows the number of state c: its name, its mark, its edges.
fn line_rest(
    text: &[u8],
    at: usize,
    states: u32,
    count: u32,
    c: usize,
    cells: &mut [u32],
) -> Result<usize, Refusal>
    requires states_le_most_states { states ≤ most_states }
    requires count_le_most_propositions { count ≤ most_propositions }
    requires c_lt_most_states { c < most_states }
    requires claim_cells_in_bounds { claim_cells ≤ length cells.old }
    ensures { RestSays text.now states count c at result cells.old cells.new }
{
    let named = title(text, at, c, cells)?;
    let marked = mark(text, named, c, cells)?;
    edges(text, marked, states, count, c, cells)
}

// A state line, past its `State:`: its state's number and the place past it.
fn line(
    text: &[u8],
    at: usize,
    states: u32,
    count: u32,
    listed: u32,
    cells: &mut [u32],
) -> Parsed<u32>
    requires states_le_most_states { states ≤ most_states }
    requires count_le_most_propositions { count ≤ most_propositions }
    requires claim_cells_in_bounds { claim_cells ≤ length cells.old }
    ensures { LineSays text.now states count listed at result cells.old cells.new }
{
    let (c, next) = line_number(text, at, states, listed)?;
    let end = line_rest(text, next, states, count, c as usize, cells)?;
    Ok((c, end))
}

// Past the claim's end: nothing follows it.
fn end_on(text: &[u8], at: usize) -> Result<(), Refusal>
    ensures { EndSays text.now at result }
{
    match claim_token(text, at).token {
        Token::Done => Ok(()),
        other => Err(fault(other)),
    }
}

// What is due after so many lines: one more, past its `State:`, or none, since the claim is whole.
fn due_at(text: &[u8], at: usize, states: u32, lines: u32) -> Result<Option<usize>, Refusal>
    requires { lines ≤ states }
    ensures { DueSays text.now states lines at result }
{
    let Seen { token, next } = claim_token(text, at);
    match token {
        Token::Header(a, e) => {
            if lines < states {
                if word(text, a, e, b"State") {
                    return Ok(Some(next));
                }
            }
            Err(Refusal::ClaimGrammar)
        }
        Token::End => {
            if lines < states {
                return Err(Refusal::ClaimGrammar);
            }
            end_on(text, next)?;
            Ok(None)
        }
        _ => Err(fault(token)),
    }
}

// The body from `at` on, past its --BODY--: what the cells then hold.
pub(crate) fn read_body(
    text: &[u8],
    at: usize,
    states: u32,
    count: u32,
    cells: &mut [u32],
) -> Result<(), Refusal>
    requires states_le_most_states { states ≤ most_states }
    requires count_le_most_propositions { count ≤ most_propositions }
    requires claim_cells_in_bounds { claim_cells ≤ length cells.old }
    ensures { BodySays text.now states count at result cells.old cells.new }
{
    let mut here = at;
    let mut listed: u32 = 0;
    let mut lines: u32 = 0;
    while let Some(next) = due_at(text, here, states, lines)? {
        let (c, end) = line(text, next, states, count, listed, cells)?;
        listed |= 1 << c;
        lines += 1;
        here = end;
    }
    Ok(())
}
