// The tokens of a claim, one at a time: `token_at` reads the one at a place of a text of which `limit` bytes are looked at.
ghost use Rattle.std.specs.Prelude.{◌≡◌, true, false, [], ◌+◌, ◌-◌, ◌<◌, length, get_or};
ghost use Rattle.text.specs.Lines.{equal};
ghost use Rattle.text.specs.Numbers.{is_digit};
ghost use Rattle.model.specs.ClaimTokens.{longest_claim, is_blank, is_letter, is_name_byte, is_symbol, at_sign, slash, in_name, in_number, in_string, in_mark};
ghost use Rattle.claim.specs.Reads.{part, lexed, tokens_at, claim_tokens, byte_of, LoneDigit, LoneLetter, BlanksEnd, NameEnd, Sees, is_symbol_of, fault_of, pair_of};

use crate::Counts;
use model::Refusal;

// A token: names, headers and strings by where their bytes begin and end. Done is the text's end.
#[derive(Clone, Copy)]
pub enum Token {
    Name(usize, usize),
    Header(usize, usize),
    Number(u32),
    Text(usize, usize),
    Symbol(u8),
    Body,
    End,
    Alias,
    Comment,
    Stray,
    Done,
}

// A token and the place past it.
#[derive(Clone, Copy)]
pub struct Seen {
    pub token: Token,
    pub next: usize,
}

// What was read and the place past it; or the refusal.
pub(crate) type Parsed<T> = Result<(T, usize), Refusal>;

const NUMBER_END: u64 = 2147483648;

fn blank(b: u8) -> bool
    ensures { result ≡ is_blank b }
{
    matches!(b, b' ' | 9..=13)
}

// Small letters first: most bytes of a name are. By `is_ascii_alphabetic` long headers took a sixth longer.
fn letter(b: u8) -> bool
    ensures { result ≡ is_letter b }
{
    b.is_ascii_lowercase() || (b.is_ascii_uppercase() | (b == b'_'))
}

fn name_byte(b: u8) -> bool
    ensures { result ≡ is_name_byte b }
{
    letter(b) || (b.is_ascii_digit() | (b == b'-'))
}

fn symbol(b: u8) -> bool
    ensures { result ≡ is_symbol b }
{
    matches!(
        b,
        b'[' | b']' | b'(' | b')' | b'{' | b'}' | b'!' | b'&' | b'|'
    )
}

// The place of the first byte from `at` on that is no blank.
fn blanks_end(text: &[u8], at: usize, limit: usize) -> usize
    ensures { BlanksEnd text.now limit at result }
{
    let stop = limit.min(text.len());
    let mut e = at;
    // Over `for e in at..stop` blanks take half as long again.
    while e < stop {
        if !blank(text[e]) {
            return e;
        }
        e += 1;
    }
    e
}

// Where the name that begins at `at` ends.
fn name_end(text: &[u8], at: usize, limit: usize) -> usize
    requires { at < length text.now }
    ensures { NameEnd text.now limit at result }
{
    let stop = limit.min(text.len());
    let mut e = at + 1;
    // Over `for e in at + 1..stop` long names of capitals, digits or minus signs take up to twice as long.
    while e < stop {
        if name_byte(text[e]) {
            e += 1;
        } else {
            return e;
        }
    }
    e
}

// The name that begins at `at`, or a header's name.
fn name_from(text: &[u8], at: usize, limit: usize) -> Seen
    requires { at < length text.now }
    ensures { Sees text.now limit at (lexed text.now limit (in_name (part text.now at (at + 1))) (at + 1)) result }
{
    let e = name_end(text, at, limit);
    if text.len() <= e {
        return Seen {
            token: Token::Name(at, e),
            next: e,
        };
    }
    if limit <= e {
        return Seen {
            token: Token::Stray,
            next: e,
        };
    }
    if text[e] == b':' {
        return Seen {
            token: Token::Header(at, e),
            next: e + 1,
        };
    }
    Seen {
        token: Token::Name(at, e),
        next: e,
    }
}

// The number whose first digit is at `at`.
fn number_from(text: &[u8], at: usize, limit: usize) -> Seen
    requires at_in_bounds { at < length text.now }
    requires at_value { is_digit (get_or text.now at 0) ≡ true }
    ensures { Sees text.now limit at (lexed text.now limit (in_number (get_or text.now at 0 - 48)) (at + 1)) result }
{
    let stop = limit.min(text.len());
    let mut v = u64::from(text[at] - b'0');
    for e in at + 1..stop {
        let b = text[e];
        if !b.is_ascii_digit() {
            return Seen {
                token: Token::Number(v as u32),
                next: e,
            };
        }
        let w = 10 * v + u64::from(b - b'0');
        if (v == 0) | (NUMBER_END <= w) {
            return Seen {
                token: Token::Stray,
                next: e,
            };
        }
        v = w;
    }
    let next = stop.max(at + 1);
    if next < text.len() {
        return Seen {
            token: Token::Stray,
            next,
        };
    }
    Seen {
        token: Token::Number(v as u32),
        next,
    }
}

// The string whose first quote is at `at`.
fn string_from(text: &[u8], at: usize, limit: usize) -> Seen
    requires { at < length text.now }
    ensures { Sees text.now limit at (lexed text.now limit (in_string []) (at + 1)) result }
{
    let stop = limit.min(text.len());
    let mut e = at + 1;
    while e < stop {
        let b = text[e];
        if b == b'"' {
            return Seen {
                token: Token::Text(at + 1, e),
                next: e + 1,
            };
        }
        if b == b'\\' {
            // past the end, perhaps: the string is torn there too
            e += 2;
            continue;
        }
        e += 1;
    }
    Seen {
        token: Token::Stray,
        next: e,
    }
}

// The mark at `at`, of the body or the end.
fn mark_from(text: &[u8], at: usize, limit: usize) -> Seen
    requires at_in_bounds { at < length text.now }
    requires at_lt_limit { at < limit }
    ensures { Sees text.now limit at (lexed text.now limit (in_mark []) at) result }
{
    let rest = &text[at..limit.min(text.len())];
    if rest.starts_with(b"--BODY--") {
        return Seen {
            token: Token::Body,
            next: at + 8,
        };
    }
    if rest.starts_with(b"--END--") {
        return Seen {
            token: Token::End,
            next: at + 7,
        };
    }
    Seen {
        token: Token::Stray,
        next: at,
    }
}

// A sign and the byte after it, at `next`, once that is looked at: the token, if it fits.
fn paired(next: usize, fits: bool, token: Token) -> Seen
    ensures { result ≡ pair_of next fits token }
{
    Seen {
        token: if fits { token } else { Token::Stray },
        next,
    }
}

// The alias whose @ is at `at`.
fn alias_from(text: &[u8], at: usize, limit: usize) -> Seen
    requires { at < length text.now }
    ensures { Sees text.now limit at (lexed text.now limit at_sign (at + 1)) result }
{
    let e = at + 1;
    let fits = (e < limit.min(text.len())) && name_byte(text[e]);
    paired(e, fits, Token::Alias)
}

// The comment whose slash is at `at`.
fn comment_from(text: &[u8], at: usize, limit: usize) -> Seen
    requires { at < length text.now }
    ensures { Sees text.now limit at (lexed text.now limit slash (at + 1)) result }
{
    let e = at + 1;
    let fits = (e < limit.min(text.len())) && (text[e] == b'*');
    paired(e, fits, Token::Comment)
}

// The token that begins with the byte at `at`, which is no blank.
fn token_from(text: &[u8], at: usize, limit: usize) -> Seen
    requires at_in_bounds { at < length text.now }
    requires at_lt_limit { at < limit }
    requires at_value { is_blank (get_or text.now at 0) ≡ false }
    ensures { Sees text.now limit at (tokens_at text.now limit at) result }
{
    let b = text[at];
    if b.is_ascii_digit() {
        return number_from(text, at, limit);
    }
    if letter(b) {
        return name_from(text, at, limit);
    }
    if symbol(b) {
        return Seen {
            token: Token::Symbol(b),
            next: at + 1,
        };
    }
    if b == b'"' {
        return string_from(text, at, limit);
    }
    if b == b'-' {
        return mark_from(text, at, limit);
    }
    if b == b'@' {
        return alias_from(text, at, limit);
    }
    if b == b'/' {
        return comment_from(text, at, limit);
    }
    Seen {
        token: Token::Stray,
        next: at,
    }
}

// The token at `at`, after the blanks there, in a text of which `limit` bytes are looked at.
pub(crate) fn token_at(text: &[u8], at: usize, limit: usize) -> Seen
    ensures { Sees text.now limit at (tokens_at text.now limit at) result }
{
    let e = blanks_end(text, at, limit);
    if text.len() <= e {
        return Seen {
            token: Token::Done,
            next: e,
        };
    }
    if limit <= e {
        return Seen {
            token: Token::Stray,
            next: e,
        };
    }
    token_from(text, e, limit)
}

// The token at `at` of a claim.
pub(crate) fn claim_token(text: &[u8], at: usize) -> Seen
    ensures { Sees text.now longest_claim at (claim_tokens text.now at) result }
{
    token_at(text, at, Counts::LONGEST)
}

// The place of the first byte of a claim from `at` on that is no blank.
pub(crate) fn past_blanks(text: &[u8], at: usize) -> usize
    ensures { BlanksEnd text.now longest_claim at result }
{
    blanks_end(text, at, Counts::LONGEST)
}

// The byte at `at` of a claim, where one is looked at.
pub(crate) fn byte_at(text: &[u8], at: usize) -> Option<u8>
    ensures { result ≡ byte_of text.now at }
{
    if at < Counts::LONGEST.min(text.len()) {
        Some(text[at])
    } else {
        None
    }
}

// The token at `at` of a claim, as `claim_token` tells it; a name is read without a call, for a loop over many.
pub(crate) fn name_or_token(text: &[u8], at: usize) -> Seen
    ensures { Sees text.now longest_claim at (claim_tokens text.now at) result }
{
    let e = past_blanks(text, at);
    if let Some(b) = byte_at(text, e) {
        if letter(b) {
            return name_from(text, e, Counts::LONGEST);
        }
    }
    claim_token(text, e)
}

// The number at `at` of a claim, where it has one digit and a byte follows it; `None` says nothing.
pub(crate) fn lone_digit(text: &[u8], at: usize) -> Option<u32>
    ensures { LoneDigit text.now at result }
{
    let b = byte_at(text, at)?;
    if !b.is_ascii_digit() {
        return None;
    }
    let next = byte_at(text, at + 1)?;
    if next.is_ascii_digit() {
        return None;
    }
    Some(u32::from(b - b'0'))
}

// The name at `at` of a claim, where it has one letter and a byte follows it; `None` says nothing.
pub(crate) fn lone_letter(text: &[u8], at: usize) -> Option<u8>
    ensures { LoneLetter text.now at result }
{
    let b = byte_at(text, at)?;
    if !letter(b) {
        return None;
    }
    let next = byte_at(text, at + 1)?;
    if (next == b':') | name_byte(next) {
        return None;
    }
    Some(b)
}

// Whether a token is this symbol.
pub(crate) fn is_symbol(t: Token, b: u8) -> bool
    ensures { result ≡ is_symbol_of t b }
{
    match t {
        Token::Symbol(c) => c == b,
        _ => false,
    }
}

// The refusal for a token that is not taken.
pub(crate) fn fault(t: Token) -> Refusal
    ensures { result ≡ fault_of t }
{
    match t {
        Token::Comment => Refusal::NotTaken,
        _ => Refusal::ClaimGrammar,
    }
}

// Whether the bytes from `a` to `e` are `w`.
pub(crate) fn word(text: &[u8], a: usize, e: usize, w: &[u8]) -> bool
    requires { 0 < length w.now }
    ensures { result ≡ equal (part text.now a e) w.now }
{
    let stop = e.min(text.len());
    (a <= stop) && (&text[a..stop] == w)
}
