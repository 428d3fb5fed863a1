// Readers of a text at a place: lines, fields, rows of numbers. Each reads where it stands, once, and answers at any
// place, past the text's end too. Text and place stay two parameters here: `Reader` carries both, and calls these.
ghost use Rattle.std.specs.Prelude.{◌≡◌, true, ◌+◌, length, drop};
ghost use Rattle.text.specs.Lines.{equal, begins};
ghost use Rattle.text.specs.Numbers.{has_minus};
ghost use Rattle.text.specs.Reading.{past_line, skip, field_here, Part, is_separator, DigitsRead, number_in, named_here, digits_here, number_before, leading_here, row_here, signed_last, signed_row_here};

const LINE_FEED: u8 = b'\n';

const SPACE: u8 = b' ';

const MINUS: u8 = b'-';

const DIGIT_0: u8 = b'0';

const MOST_DIGITS: usize = 9;

// The place past the line at `at`.
pub fn next_line(text: &[u8], at: usize) -> usize
    ensures { result ≡ past_line text.now at }
{
    for e in at..text.len() {
        if text[e] == LINE_FEED {
            return e + 1;
        }
    }
    at.max(text.len())
}

// The place past the three lines that case file, answer and chart begin with: names, values, names.
pub fn past_head(text: &[u8]) -> usize
    ensures { result ≡ skip 3 text.now 0 }
{
    let second = next_line(text, 0);
    let third = next_line(text, second);
    next_line(text, third)
}

// Whether a byte ends a field.
fn separates(b: u8) -> bool
    ensures { result ≡ is_separator b }
{
    b == SPACE || b == LINE_FEED
}

// Where the field at `at` ends: at a space, a line feed or the text's end.
fn field_end(text: &[u8], at: usize) -> usize
    ensures { result ≡ at + length (field_here text.now at) }
{
    for e in at..text.len() {
        if separates(text[e]) {
            return e;
        }
    }
    at.max(text.len())
}

// The field at `at`: that very part of the text.
pub fn field(text: &[u8], at: usize) -> &[u8]
    ensures { Part text.entry at result }
{
    if text.len() < at {
        let end = text.len();
        return &text[end..];
    }
    let e = field_end(text, at);
    &text[at..e]
}

// Numbers that were read, and the place past them.
#[derive(Clone, Copy, Debug, PartialEq, Eq)]
pub struct Row<const N: usize> {
    pub numbers: [u32; N],
    pub next: usize,
}

// What the digits from `at` to `e`, of the value `v`, say: none at all are no number, nor are several after a zero.
fn whole(text: &[u8], at: usize, e: usize, v: u32) -> Option<Row<1>>
    requires { DigitsRead text.now at e v }
    ensures { result ≡ digits_here text.now at }
{
    if e == at {
        return None;
    }
    if e - at == 1 {
        return Some(Row {
            numbers: [v],
            next: e,
        });
    }
    if text[at] == DIGIT_0 {
        return None;
    }
    Some(Row {
        numbers: [v],
        next: e,
    })
}

// The number that the digits at `at` are, nine at most, and the place where they end, whatever follows.
fn digits_at(text: &[u8], at: usize) -> Option<Row<1>>
    ensures { result ≡ digits_here text.now at }
{
    let last = at.saturating_add(MOST_DIGITS).min(text.len());
    let mut v: u32 = 0;
    for e in at..last {
        let b = text[e];
        if !b.is_ascii_digit() {
            return whole(text, at, e, v);
        }
        v = 10 * v + u32::from(b - DIGIT_0);
    }
    whole(text, at, at.max(last), v)
}

// A whole part of a text as a number.
pub fn number_in(part: &[u8]) -> Option<u32>
    ensures { result ≡ number_in part.now }
{
    let row = digits_at(part, 0)?;
    if row.next < part.len() {
        return None;
    }
    let [v] = row.numbers;
    Some(v)
}

// Whether `front` stands at `at`.
pub fn begins_at(text: &[u8], at: usize, front: &[u8]) -> bool
    ensures { result ≡ begins front.now (drop at text.now) }
{
    text[at.min(text.len())..].starts_with(front)
}

// Whether two texts are the same.
pub fn same(a: &[u8], b: &[u8]) -> bool
    ensures { result ≡ equal a.now b.now }
{
    a == b
}

// The place past the line at `at`, if that is `names`.
pub fn name_line(text: &[u8], at: usize, names: &[u8]) -> Option<usize>
    ensures { result ≡ named_here text.now at names.now }
{
    if !begins_at(text, at, names) {
        return None;
    }
    let e = at + names.len();
    if e < text.len() && text[e] == LINE_FEED {
        return Some(e + 1);
    }
    None
}

// The number at `at`, where `stop`, a space or a line feed, ends it, and the place past `stop`.
fn number_before(text: &[u8], at: usize, stop: u8) -> Option<Row<1>>
    requires { is_separator stop ≡ true }
    ensures { result ≡ number_before text.now at stop }
{
    let row = digits_at(text, at)?;
    let end = row.next;
    if end < text.len() && text[end] == stop {
        let [v] = row.numbers;
        return Some(Row {
            numbers: [v],
            next: end + 1,
        });
    }
    None
}

// The number in the first field of a longer line, and the place past its space.
pub fn leading_number(text: &[u8], at: usize) -> Option<Row<1>>
    ensures { result ≡ leading_here text.now at }
{
    number_before(text, at, SPACE)
}

// The numbers of a line of so many, and the place past the line.
pub fn numbers_row<const N: usize>(text: &[u8], at: usize) -> Option<Row<N>>
    ensures { result ≡ row_here N text.now at }
{
    let last = N.checked_sub(1)?;
    let mut numbers = [0; N];
    let mut here = at;
    for i in 0..last {
        let row = number_before(text, here, SPACE)?;
        let [v] = row.numbers;
        numbers[i] = v;
        here = row.next;
    }
    let row = number_before(text, here, LINE_FEED)?;
    let [v] = row.numbers;
    numbers[last] = v;
    let next = row.next;
    Some(Row { numbers, next })
}

// Whether the field at `at` begins with a minus sign.
fn minus_at(text: &[u8], at: usize) -> bool
    ensures { result ≡ has_minus (field_here text.now at) }
{
    at < text.len() && text[at] == MINUS
}

// A number after a minus sign, or without one.
#[derive(Clone, Copy, Debug, PartialEq, Eq)]
pub enum Signed {
    Plus(u32),
    Minus(u32),
}

// A number and a signed one, and the place past their line.
#[derive(Clone, Copy, Debug, PartialEq, Eq)]
pub struct SignedRow {
    pub number: u32,
    pub signed: Signed,
    pub next: usize,
}

// A row of one number, perhaps after a minus sign.
fn signed_last(text: &[u8], at: usize) -> Option<(Signed, usize)>
    ensures { result ≡ signed_last text.now at }
{
    if minus_at(text, at) {
        let row = numbers_row::<1>(text, at + 1)?;
        let [v] = row.numbers;
        return Some((Signed::Minus(v), row.next));
    }
    let row = numbers_row::<1>(text, at)?;
    let [v] = row.numbers;
    Some((Signed::Plus(v), row.next))
}

// A row of a number and a signed one, and the place past the line.
pub fn signed_row(text: &[u8], at: usize) -> Option<SignedRow>
    ensures { result ≡ signed_row_here text.now at }
{
    let row = number_before(text, at, SPACE)?;
    let [number] = row.numbers;
    let (signed, next) = signed_last(text, row.next)?;
    Some(SignedRow {
        number,
        signed,
        next,
    })
}
