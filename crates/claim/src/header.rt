// The header of a claim, an item at a time.
ghost use Rattle.std.specs.Prelude.{◌≡◌, false, [], ◌≤◌, get_or, is_some};
ghost use Rattle.model.specs.ClaimGrammar.{most_propositions};
ghost use Rattle.model.specs.ClaimTable.{wants_count, wants_start, wants_propositions, wants_sets, wants_inf, wants_set, named, go, whole, after_start, after_acceptance};
ghost use Rattle.claim.specs.Reads.{part};
ghost use Rattle.claim.specs.HeaderSays.{NumberSays, SignSays, StringSays, ItemSays, ItemOn, StepSays, Skips, accepted, starts_below, counted, passed_of, no_kind, kind_of, continues, items_end, KindSays, HeaderSays};

use crate::Counts;
use crate::tokens::{
    Parsed, Seen, Token, claim_token, fault, is_symbol, lone_digit, name_or_token, word,
};
use model::Refusal;

// The number at `at`.
pub(crate) fn number_at(text: &[u8], at: usize) -> Parsed<u32>
    ensures { NumberSays text.now at result }
{
    if let Some(v) = lone_digit(text, at) {
        return Ok((v, at + 1));
    }
    let Seen { token, next } = claim_token(text, at);
    match token {
        Token::Number(v) => Ok((v, next)),
        _ => Err(fault(token)),
    }
}

// What the header gives so far.
#[derive(Clone, Copy)]
pub struct Given {
    pub states: Option<u32>,
    pub start: Option<u32>,
    pub propositions: Option<u32>,
    pub acceptance: bool,
}

// Whether the start, if one is given, is below the count.
fn starts_below(start: Option<u32>, count: u32) -> bool
    ensures { result ≡ starts_below start count }
{
    match start {
        Some(state) => state < count,
        None => true,
    }
}

// After States: the count.
fn states_item(text: &[u8], at: usize, g: Given) -> Parsed<Given>
    requires { is_some g.states ≡ false }
    ensures { ItemSays text.now wants_count whole at g result }
{
    let (n, next) = number_at(text, at)?;
    if (1 <= n) & (n <= Counts::MOST_STATES) & starts_below(g.start, n) {
        return Ok((
            Given {
                states: Some(n),
                ..g
            },
            next,
        ));
    }
    Err(Refusal::ClaimGrammar)
}

// After Start: the state.
fn start_item(text: &[u8], at: usize, g: Given) -> Parsed<Given>
    requires { is_some g.start ≡ false }
    ensures { ItemSays text.now wants_start after_start at g result }
{
    let (n, next) = number_at(text, at)?;
    if n < g.states.unwrap_or(Counts::MOST_STATES) {
        return Ok((
            Given {
                start: Some(n),
                ..g
            },
            next,
        ));
    }
    Err(Refusal::ClaimGrammar)
}

// Past the sign `b` at `at`.
fn sign_at(text: &[u8], at: usize, b: u8) -> Result<usize, Refusal>
    ensures { SignSays text.now b at result }
{
    let Seen { token, next } = claim_token(text, at);
    if is_symbol(token, b) {
        return Ok(next);
    }
    Err(fault(token))
}

// After Acceptance: 1 Inf( the set 0 and the closing bracket.
fn set_on(text: &[u8], at: usize) -> Result<usize, Refusal>
    ensures { StepSays text.now wants_set accepted at result }
{
    let Seen { token, next } = claim_token(text, at);
    match token {
        Token::Number(v) => {
            if v == 0 {
                return sign_at(text, next, b')');
            }
            Err(Refusal::NotTaken)
        }
        _ => {
            if is_symbol(token, b'!') {
                return Err(Refusal::NotTaken);
            }
            Err(fault(token))
        }
    }
}

// After Acceptance: 1 the name Inf, the opening bracket, and on.
fn inf_on(text: &[u8], at: usize) -> Result<usize, Refusal>
    ensures { StepSays text.now wants_inf accepted at result }
{
    let Seen { token, next } = claim_token(text, at);
    match token {
        Token::Name(a, e) => {
            if word(text, a, e, b"Inf") {
                return set_on(text, sign_at(text, next, b'(')?);
            }
            Err(Refusal::NotTaken)
        }
        _ => {
            if is_symbol(token, b'(') {
                return Err(Refusal::NotTaken);
            }
            Err(fault(token))
        }
    }
}

// After Acceptance: the number of sets, 1, and on.
fn sets_on(text: &[u8], at: usize) -> Result<usize, Refusal>
    ensures { StepSays text.now wants_sets accepted at result }
{
    let (n, next) = number_at(text, at)?;
    if n == 1 {
        return inf_on(text, next);
    }
    Err(Refusal::NotTaken)
}

// After Acceptance: what is taken, 1 Inf(0).
fn acceptance_item(text: &[u8], at: usize, g: Given) -> Parsed<Given>
    ensures { ItemSays text.now wants_sets after_acceptance at g result }
{
    let next = sets_on(text, at)?;
    Ok((
        Given {
            acceptance: true,
            ..g
        },
        next,
    ))
}

// Past the string at `at`.
fn string_at(text: &[u8], at: usize) -> Result<usize, Refusal>
    ensures { StringSays text.now at result }
{
    let Seen { token, next } = claim_token(text, at);
    match token {
        Token::Text(_, _) => Ok(next),
        _ => Err(fault(token)),
    }
}

// After AP: and the count, the names.
fn names_on(text: &[u8], at: usize, count: u32, g: Given) -> Parsed<Given>
    requires count_le_most_propositions { count ≤ most_propositions }
    requires named_value { is_some g.propositions ≡ false }
    ensures { ItemOn text.now (λ is. go (named is count [])) whole at g result }
{
    let mut here = at;
    for _ in 0..count {
        here = string_at(text, here)?;
    }
    Ok((
        Given {
            propositions: Some(count),
            ..g
        },
        here,
    ))
}

// After AP: the count and the names.
fn propositions_item(text: &[u8], at: usize, g: Given) -> Parsed<Given>
    requires { is_some g.propositions ≡ false }
    ensures { ItemSays text.now wants_propositions whole at g result }
{
    let (n, next) = number_at(text, at)?;
    if n <= Counts::MOST_PROPOSITIONS {
        return names_on(text, next, n, g);
    }
    Err(Refusal::ClaimGrammar)
}

// What a header's name asks for.
#[derive(Clone, Copy)]
pub enum Kind {
    States,
    Start,
    Propositions,
    Acceptance,
    Skipped,
}

// The byte at `a`, 0 if that is not before `e`: only letters are looked for, and 0 is none, so no test needs a case for that.
fn first_byte(text: &[u8], a: usize, e: usize) -> u8
    ensures { result ≡ get_or (part text.now a e) 0 0 }
{
    if a < e {
        if a < text.len() {
            return text[a];
        }
    }
    0
}

// Whether a token is passed over from a skipped header on: a plain one, or the name of another such header.
fn is_passed(text: &[u8], t: Token) -> bool
    ensures { result ≡ passed_of text.now t }
{
    match t {
        Token::Name(_, _) | Token::Number(_) | Token::Text(_, _) => true,
        Token::Header(a, e) => first_byte(text, a, e).is_ascii_lowercase(),
        _ => false,
    }
}

// The place past a skipped header, whose name ends at `at`, and those that follow it.
fn skipped_end(text: &[u8], at: usize) -> usize
    ensures { Skips text.now at result }
{
    let mut here = at;
    loop {
        let Seen { token, next } = name_or_token(text, here);
        if !is_passed(text, token) {
            return here;
        }
        here = next;
    }
}

// The refusal for a name that is none of the format's, by its first byte, no small letter.
fn no_kind(b: u8) -> Refusal
    ensures { result ≡ no_kind b }
{
    if b.is_ascii_uppercase() {
        Refusal::NotTaken
    } else {
        Refusal::ClaimGrammar
    }
}

// Small letters first: no name of the format's begins with one.
fn kind_of(text: &[u8], a: usize, e: usize) -> Result<Kind, Refusal>
    ensures { result ≡ kind_of (part text.now a e) }
{
    let b = first_byte(text, a, e);
    if b.is_ascii_lowercase() {
        return Ok(Kind::Skipped);
    }
    if word(text, a, e, b"HOA") {
        return Err(Refusal::ClaimGrammar);
    }
    if word(text, a, e, b"States") {
        return Ok(Kind::States);
    }
    if word(text, a, e, b"Start") {
        return Ok(Kind::Start);
    }
    if word(text, a, e, b"AP") {
        return Ok(Kind::Propositions);
    }
    if word(text, a, e, b"Acceptance") {
        return Ok(Kind::Acceptance);
    }
    Err(no_kind(b))
}

// After a header's name, what it asks for: once, unless it is skipped.
fn item(text: &[u8], at: usize, g: Given, kind: Kind) -> Parsed<Given>
    ensures { KindSays text.now kind at g result }
{
    match kind {
        Kind::States => {
            if g.states.is_some() {
                return Err(Refusal::ClaimGrammar);
            }
            states_item(text, at, g)
        }
        Kind::Start => {
            if g.start.is_some() {
                return Err(Refusal::NotTaken);
            }
            start_item(text, at, g)
        }
        Kind::Propositions => {
            if g.propositions.is_some() {
                return Err(Refusal::ClaimGrammar);
            }
            propositions_item(text, at, g)
        }
        Kind::Acceptance => {
            if g.acceptance {
                return Err(Refusal::ClaimGrammar);
            }
            acceptance_item(text, at, g)
        }
        Kind::Skipped => Ok((g, skipped_end(text, at))),
    }
}

// Whether a token goes on with the item before it: a start by &, an acceptance by & or |.
fn continues(last: Kind, t: Token) -> bool
    ensures { result ≡ continues last t }
{
    match last {
        Kind::Start => is_symbol(t, b'&'),
        Kind::Acceptance => is_symbol(t, b'&') | is_symbol(t, b'|'),
        _ => false,
    }
}

// The counts that the items give, if they are whole.
fn counted(g: Given) -> Result<Counts, Refusal>
    ensures { result ≡ counted g }
{
    let states = g.states.ok_or(Refusal::ClaimGrammar)?;
    let start = g.start.ok_or(Refusal::ClaimGrammar)?;
    if !g.acceptance {
        return Err(Refusal::ClaimGrammar);
    }
    Ok(Counts {
        states,
        start,
        propositions: g.propositions.unwrap_or(0),
    })
}

// What the items come to at a token that begins no other.
fn items_end(t: Token, next: usize, g: Given, last: Kind) -> Parsed<Counts>
    ensures { result ≡ items_end t next g last }
{
    match t {
        Token::Body => Ok((counted(g)?, next)),
        _ => {
            if continues(last, t) {
                return Err(Refusal::NotTaken);
            }
            Err(fault(t))
        }
    }
}

// The header from `at` on, past the version, up to past --BODY--.
pub(crate) fn header_at(text: &[u8], at: usize) -> Parsed<Counts>
    ensures { HeaderSays text.now at result }
{
    let mut g = Given {
        states: None,
        start: None,
        propositions: None,
        acceptance: false,
    };
    // as after a skipped header: no sign goes on with it
    let mut last = Kind::Skipped;
    let mut here = at;
    loop {
        let Seen { token, next } = claim_token(text, here);
        let Token::Header(a, e) = token else {
            return items_end(token, next, g, last);
        };
        last = kind_of(text, a, e)?;
        (g, here) = item(text, next, g, last)?;
    }
}
