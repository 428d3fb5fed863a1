// Labels, each read once for all flag values, by a reader for each level; they call each other, at most 16 brackets and
// negations deep. Signs are told by their bytes; the place that a reader gives is past blanks.
ghost use Rattle.std.specs.Prelude.{◌≡◌, false, ℕ, ◌<◌, ◌≤◌};
ghost use Rattle.model.specs.ClaimLabels.{proposition, not_byte, open_byte};
ghost use Rattle.model.specs.ClaimGrammar.{most_propositions};
ghost use Rattle.claim.specs.LabelSays.{TruthOf, complement_of, intersection_of, union_of};
ghost use Rattle.claim.specs.Reads.{claim_tokens, Sign, starts, AtomRead, AndRead, OrRead, negated_of, Closed, LabelSays, constant_if, PropositionRead, no_atom_of};

use crate::tokens::{
    Parsed, Seen, Token, byte_at, claim_token, fault, lone_digit, lone_letter, past_blanks, word,
};
use model::Refusal;
use std::ops::{BitAnd, BitOr, Not};

// A set of flag values, 0 to 255: value v is bit v % 64 of word v / 64.
#[derive(Clone, Copy)]
pub struct Values {
    pub words: [u64; 4],
}

// A word with every bit.
pub(crate) const ALL: u64 = 0xFFFF_FFFF_FFFF_FFFF;

const DEEPEST: usize = 16;

// No flag value, and each.
pub(crate) const NOTHING: Values = Values { words: [0; 4] };

const EVERYTHING: Values = Values { words: [ALL; 4] };

impl Not for Values {
    type Output = Values;

    ghost not_gives = { λ w r. r ≡ complement_of w };

    fn not(self) -> Values {
        let [a, b, c, d] = self.words;
        Values {
            words: [a ^ ALL, b ^ ALL, c ^ ALL, d ^ ALL],
        }
    }
}

impl BitAnd for Values {
    type Output = Values;

    ghost bitand_gives = { λ v w r. r ≡ intersection_of v w };

    fn bitand(self, w: Values) -> Values {
        let [a, b, c, d] = self.words;
        let [e, f, g, h] = w.words;
        Values {
            words: [a & e, b & f, c & g, d & h],
        }
    }
}

impl BitOr for Values {
    type Output = Values;

    ghost bitor_gives = { λ v w r. r ≡ union_of v w };

    fn bitor(self, w: Values) -> Values {
        let [a, b, c, d] = self.words;
        let [e, f, g, h] = w.words;
        Values {
            words: [a | e, b | f, c | g, d | h],
        }
    }
}

// The values with the flag `i`. Up to 5 a flag comes and goes within 64 values; 6 and 7 take words without any or with all.
// Read from a table: with a branch by the flag, labels with brackets take longer (docs/BENCH.md).
fn flagged(i: u32) -> Values
    requires { i < 8 }
    ensures { TruthOf (proposition i) result }
{
    let words = [
        0xAAAA_AAAA_AAAA_AAAA,
        0xCCCC_CCCC_CCCC_CCCC,
        0xF0F0_F0F0_F0F0_F0F0,
        0xFF00_FF00_FF00_FF00,
        0xFFFF_0000_FFFF_0000,
        0xFFFF_FFFF_0000_0000,
        0,
        ALL,
    ];
    let k = i as usize;
    let six = k / 6;
    let seven = k / 7;
    Values {
        words: [
            words[k - seven],
            words[k + six - 2 * seven],
            words[k],
            words[k + six - seven],
        ],
    }
}

// A piece of a label after negations, whether they are odd in number.
fn negated(l: Parsed<Values>, odd: bool) -> Parsed<Values>
    ensures { result ≡ negated_of odd l }
{
    let (w, n) = l?;
    if odd {
        return Ok((!w, n));
    }
    Ok((w, n))
}

// What the inside of a bracket or a label comes to, once its end, `b`, is looked at.
fn closed(text: &[u8], l: Parsed<Values>, b: u8) -> Parsed<Values>
    requires { Sign b }
    ensures { Closed text.now b l result }
{
    let (w, e) = l?;
    if byte_at(text, e) == Some(b) {
        return Ok((w, past_blanks(text, e + 1)));
    }
    Err(fault(claim_token(text, e).token))
}

// A name as an atom: t, f or none.
fn constant(always: bool, never: bool, next: usize) -> Parsed<Values>
    ensures { result ≡ constant_if always never next }
{
    if always {
        return Ok((EVERYTHING, next));
    }
    if never {
        return Ok((NOTHING, next));
    }
    Err(Refusal::ClaimGrammar)
}

// The proposition `i`.
fn proposition(i: u32, count: u32, next: usize) -> Parsed<Values>
    requires { count ≤ most_propositions }
    ensures { PropositionRead i count next result }
{
    if i < count {
        return Ok((flagged(i), next));
    }
    Err(Refusal::ClaimGrammar)
}

// The refusal for a token that begins no atom.
fn no_atom(t: Token) -> Refusal
    ensures { result ≡ no_atom_of t }
{
    match t {
        Token::Alias | Token::Comment => Refusal::NotTaken,
        _ => Refusal::ClaimGrammar,
    }
}

// The atom at `at`, where neither a negation nor a bracket begins.
fn leaf(text: &[u8], at: usize, count: u32) -> Parsed<Values>
    requires count_le_most_propositions { count ≤ most_propositions }
    requires at_value { starts not_byte (claim_tokens text.now at) ≡ false }
    requires at_value_2 { starts open_byte (claim_tokens text.now at) ≡ false }
    ensures { (deep : ℕ) → AtomRead text.now count deep at result }
{
    if let Some(i) = lone_digit(text, at) {
        return proposition(i, count, past_blanks(text, at + 1));
    }
    if let Some(b) = lone_letter(text, at) {
        return constant(b == b't', b == b'f', past_blanks(text, at + 1));
    }
    let Seen { token, next } = claim_token(text, at);
    let past = past_blanks(text, next);
    match token {
        Token::Name(a, e) => constant(word(text, a, e, b"t"), word(text, a, e, b"f"), past),
        Token::Number(i) => proposition(i, count, past),
        _ => Err(no_atom(token)),
    }
}

#[cycle(and_level_atom_or_level)]
fn atom(text: &[u8], at: usize, deep: usize, count: u32) -> Parsed<Values>
    requires { count ≤ most_propositions }
    ensures { AtomRead text.now count deep at result }
{
    let mut here = past_blanks(text, at);
    let mut down = deep;
    let mut odd = false;
    while byte_at(text, here) == Some(b'!') {
        if DEEPEST <= down {
            return Err(Refusal::ClaimGrammar);
        }
        here = past_blanks(text, here + 1);
        down += 1;
        odd = !odd;
    }
    if byte_at(text, here) != Some(b'(') {
        return negated(leaf(text, here, count), odd);
    }
    if DEEPEST <= down {
        return Err(Refusal::ClaimGrammar);
    }
    let inside = or_level(text, here + 1, down + 1, count);
    negated(closed(text, inside, b')'), odd)
}

// Beside `or_level` and not one with it: a reader for each level is asked for, and a level passed in would hide how deep a
// call goes.
#[cycle(and_level_atom_or_level)]
fn and_level(text: &[u8], at: usize, deep: usize, count: u32) -> Parsed<Values>
    requires { count ≤ most_propositions }
    ensures { AndRead text.now count deep at result }
{
    let mut values = EVERYTHING;
    let mut here = at;
    loop {
        let (w, e) = atom(text, here, deep, count)?;
        values = values & w;
        if byte_at(text, e) != Some(b'&') {
            return Ok((values, e));
        }
        here = e + 1;
    }
}

#[cycle(and_level_atom_or_level)]
fn or_level(text: &[u8], at: usize, deep: usize, count: u32) -> Parsed<Values>
    requires { count ≤ most_propositions }
    ensures { OrRead text.now count deep at result }
{
    let mut values = NOTHING;
    let mut here = at;
    loop {
        let (w, e) = and_level(text, here, deep, count)?;
        values = values | w;
        if byte_at(text, e) != Some(b'|') {
            return Ok((values, e));
        }
        here = e + 1;
    }
}

// The label from `at` on, past its [, and the place past its ] and the blanks there.
pub(crate) fn label(text: &[u8], at: usize, count: u32) -> Parsed<Values>
    requires { count ≤ most_propositions }
    ensures { LabelSays text.now count at result }
{
    closed(text, or_level(text, at, 0, count), b']')
}
