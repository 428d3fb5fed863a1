// The case file's reader: refusals 1 to 8 or the case, judged in one pass over the lent text. What it reads on the way goes
// into tables of the caller's, as far as they have room. Contracts cite specs/Judging.antt and specs/Tables.antt.
#![tactic(auto)]

ghost use Rattle.std.specs.Prelude.{◌≡◌, ◌&&◌, ltb, eqb, drop, set};
ghost use Rattle.std.proofs.Math.Option.{none};
ghost use Rattle.text.specs.Lines.{lines};
ghost use Rattle.model.specs.CaseFile.{other_version, rises, vertices_refusal, edges_refusal};
ghost use Rattle.casefile.specs.Judging.{counts_in_range, edge_before, head_says, judged};
ghost use Rattle.casefile.specs.Tables.{BlockRead, CaseRead, SameTables};

use model::Refusal;
use text::read::{begins_at, name_line, number_in, numbers_row};
use text::reader::second_line_field;

// The counts of an accepted case.
#[derive(Clone, Copy, Debug, PartialEq, Eq)]
pub struct Case {
    pub vertices: usize,
    pub edges: usize,
    pub source: usize,
    pub workers: usize,
}

impl Case {
    // "Vertices 1 to 500, edges 0 to 2,000, workers 1 to 16"
    pub const MOST_VERTICES: usize = 500;

    pub const MOST_EDGES: usize = 2000;
    // With rest loops: one more for each vertex at most.
    pub const MOST_RUN_EDGES: usize = Case::MOST_EDGES + Case::MOST_VERTICES;

    pub const MOST_WORKERS: usize = 16;
    // "over 65,536 bytes"
    pub const LONGEST_FILE: usize = 65536;
    // "output under 8,192 bytes, or work under 16,384 signed 32-bit cells"
    pub const LEAST_OUTPUT: usize = 8192;

    pub const LEAST_WORK: usize = 16384;
    // Of an answer: "a count above 500, a distance outside −500 to 500"
    pub const MOST_LISTED: usize = 500;

    pub const FARTHEST: u32 = 500;
    // The version of case files.
    pub const VERSION: u32 = 1;
    // The version of the answers that are written, and the newest that is read.
    pub const ANSWER_VERSION: u32 = 2;
}

// Where a case's marks and owners go, by vertex, and both ends of its edges, by edge.
#[derive(Drop)]
pub struct CaseTables<'a> {
    pub marks: &'a mut [u32],
    pub owners: &'a mut [u32],
    pub froms: &'a mut [u32],
    pub tos: &'a mut [u32],
}

// Whether line 2's first field is a number other than the known versions, 1 to the newest: refusal 3, also of an answer
// file.
pub fn other_version(text: &[u8], newest: u32) -> bool
    ensures { result ≡ other_version newest (lines text.now) }
{
    number_in(second_line_field(text)).is_some_and(|v| v < 1 || newest < v)
}

// Whether the counts and the source are in range.
#[tactic(auto, unfolding(crate::specs::Judging::counts_in_range))]
fn in_range(case: Case) -> bool
    ensures { result ≡ counts_in_range case.vertices case.edges case.source case.workers }
{
    (1..=Case::MOST_VERTICES).contains(&case.vertices)
        && case.edges <= Case::MOST_EDGES
        && case.source < case.vertices
        && (1..=Case::MOST_WORKERS).contains(&case.workers)
}

// Lines 1 to 3: the counts, and the place past these lines.
fn read_head(text: &[u8]) -> Result<(Case, usize), Refusal>
    ensures { result ≡ head_says text.now }
{
    if Case::LONGEST_FILE < text.len() {
        return Err(Refusal::LongFile);
    }
    if !begins_at(text, 0, b"version ") {
        return Err(Refusal::NoVersion);
    }
    if other_version(text, Case::VERSION) {
        return Err(Refusal::OtherVersion);
    }
    let names = b"version vertices edges source workers";
    let second = name_line(text, 0, names).ok_or(Refusal::CaseLayout)?;
    let row = numbers_row::<5>(text, second).ok_or(Refusal::CaseLayout)?;
    let [_, vertices, edges, source, workers] = row.numbers;
    let case = Case {
        vertices: vertices as usize,
        edges: edges as usize,
        source: source as usize,
        workers: workers as usize,
    };
    if !in_range(case) {
        return Err(Refusal::OutOfRange);
    }
    let rows = name_line(text, row.next, b"vertex accepting owner").ok_or(Refusal::CaseLayout)?;
    Ok((case, rows))
}

// Puts a value into a table that has room for it.
pub fn put(table: &mut [u32], i: usize, value: u32)
    ensures { table.new ≡ set table.old i value }
{
    if i < table.len() {
        table[i] = value;
    }
}

// Whether a vertex line's values are those of vertex v.
fn vertex_right(v: usize, workers: usize, vertex: u32, mark: u32, owner: u32) -> bool
    ensures { result ≡ (eqb vertex v && (ltb mark 2 && ltb owner workers)) }
{
    vertex as usize == v && mark < 2 && (owner as usize) < workers
}

// The vertex lines from `at` on, and their marks and owners: the place past them.
fn vertex_block(
    text: &[u8],
    at: usize,
    case: Case,
    marks: &mut [u32],
    owners: &mut [u32],
) -> Result<usize, Refusal>
    ensures { BlockRead (λ k. vertices_refusal k 0 case.workers (lines (drop at text.now))) case.vertices text.now at 1 2 result marks.old marks.new owners.old owners.new }
{
    let mut here = at;
    for v in 0..case.vertices {
        let row = numbers_row::<3>(text, here).ok_or(Refusal::CaseLayout)?;
        let [vertex, mark, owner] = row.numbers;
        if !vertex_right(v, case.workers, vertex, mark, owner) {
            return Err(Refusal::VertexLine);
        }
        put(marks, v, mark);
        put(owners, v, owner);
        here = row.next;
    }
    Ok(here)
}

// Whether an edge comes after the one before it, if there is one.
fn rising(before: Option<(u32, u32)>, from: u32, to: u32) -> bool
    ensures { result ≡ rises (edge_before before) (record { from = from; to = to }) }
{
    before < Some((from, to))
}

// The edge lines from `at` on, and their two ends: the place past them. Not one function with `vertex_block`: they differ
// in the row's width, the test and what it remembers, and three parameters for these are longer than a second loop.
fn edge_block(
    text: &[u8],
    at: usize,
    case: Case,
    froms: &mut [u32],
    tos: &mut [u32],
) -> Result<usize, Refusal>
    ensures { BlockRead (λ k. edges_refusal k case.vertices none (lines (drop at text.now))) case.edges text.now at 0 1 result froms.old froms.new tos.old tos.new }
{
    let mut here = at;
    let mut before = None;
    for e in 0..case.edges {
        let row = numbers_row::<2>(text, here).ok_or(Refusal::CaseLayout)?;
        let [from, to] = row.numbers;
        if case.vertices <= from as usize || case.vertices <= to as usize {
            return Err(Refusal::EdgeEnd);
        }
        if !rising(before, from, to) {
            return Err(Refusal::EdgeOrder);
        }
        put(froms, e, from);
        put(tos, e, to);
        before = Some((from, to));
        here = row.next;
    }
    Ok(here)
}

// Judges a whole text as a case file, and puts what its lines say into the tables.
pub fn read_case(text: &[u8], tables: &mut CaseTables) -> Result<Case, Refusal>
    ensures read { CaseRead text.now result tables.old tables.new }
    ensures same { SameTables tables.old tables.new }
{
    let (case, rows) = read_head(text)?;
    let names = vertex_block(text, rows, case, tables.marks, tables.owners)?;
    let edge_rows = name_line(text, names, b"from to").ok_or(Refusal::CaseLayout)?;
    let end = edge_block(text, edge_rows, case, tables.froms, tables.tos)?;
    if end < text.len() {
        return Err(Refusal::CaseLayout);
    }
    Ok(case)
}

// Judges a whole text as a case file; tables without room keep nothing of it.
pub fn judge(text: &[u8]) -> Result<Case, Refusal>
    ensures { result ≡ judged text.now }
{
    let mut nowhere = CaseTables {
        marks: &mut [],
        owners: &mut [],
        froms: &mut [],
        tos: &mut [],
    };
    read_case(text, &mut nowhere)
}
