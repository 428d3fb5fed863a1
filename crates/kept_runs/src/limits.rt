// Runs at the limits, and one past them: vertices, edges, workers, bytes, and the lent buffers.
use crate::kept::{K4, K4_LASSO, ONE_REACHED};
use crate::line::{Lines, Run, Wanted};
use crate::sizes::{full, full_answer, ring, ring_answer, round_ring};
use bench_kit::answer;
use bench_kit::buffers::front;
use bench_kit::graph::padded;
use model::Refusal;
use std::io;

// An act that is past the limit of every case that is tried with it.
const PAST: [u32; 1] = [5];

// Both buffers at their least, and one byte or one cell too few. 11 goes before every other refusal, by both entries.
pub(crate) fn buffers<R: Print + Eprint + AllocGlobal>(lines: &mut Lines<'_, R>) -> io::Result<()> {
    let short = Wanted::refused(Refusal::ShortBuffer);
    let least = Run::by_rounds(
        "8,192 bytes and 16,384 cells",
        K4,
        Wanted::lasso(2),
        K4_LASSO,
    );
    let output = Run::by_rounds("8,191 bytes", K4, short, "");
    let work = Run::by_rounds("16,383 cells", K4, short, "");
    let empty = Run::by_rounds("8,191 bytes, empty file", "", short, "");
    let list = Run::by_list("8,191 bytes, empty file, by a list", "", &PAST, short, "");
    lines.run_in(&least, 8192, 16384)?;
    lines.run_in(&output, 8191, 16384)?;
    lines.run_in(&work, 8192, 16383)?;
    lines.run_in(&empty, 8191, 16384)?;
    lines.run_in(&list, 8191, 16384)
}

// Twice round a ring of 500 to the end, a turn for each vertex; owned by 16, each step takes a turn and a delivery. By a list
// that is just long enough, and one act too short.
fn rings<R: Print + Eprint + AllocGlobal>(lines: &mut Lines<'_, R>) -> io::Result<()> {
    let alone = ring(lines.alloc(), 1)?;
    let owned = ring(lines.alloc(), 16)?;
    let answer = ring_answer(lines.alloc())?;
    let list = round_ring(lines.alloc(), 2000)?;
    let busy = Wanted::lasso(2000).tallied(1000, 1000, 0);
    let one_waits = Wanted::cut_short(1999).tallied(1000, 999, 0);
    lines.runs(&[
        Run::by_rounds("500 vertices", &alone, Wanted::lasso(1000), &answer),
        Run::by_rounds("16 workers, 500 vertices", &owned, busy, &answer),
        Run::by_list("the same, 2,000 acts", &owned, &list, busy, &answer),
        Run::by_list(
            "the same, 1,999 acts",
            &owned,
            front(&list, 1999),
            one_waits,
            "",
        ),
    ])
}

// 2,000 edges on 500 vertices leave 0 to 3, and the other 496 rest. None is accepting: every vertex takes a turn. With 16
// workers the owner of each of the vertices 0 to 3 owns 32, so that each sends to 468, and each message takes a delivery.
fn full_empty<R: Print + Eprint + AllocGlobal>(lines: &mut Lines<'_, R>) -> io::Result<()> {
    let alone = full(lines.alloc(), 500, 2000, 1, 0..0)?;
    let owned = full(lines.alloc(), 500, 2000, 16, 0..0)?;
    let answer = full_answer(lines.alloc())?;
    let busy = Wanted::empty(2372).tallied(1872, 1872, 0);
    lines.runs(&[
        Run::by_rounds("2,000 edges", &alone, Wanted::empty(500), &answer),
        Run::by_rounds("16 workers, 2,000 edges", &owned, busy, &answer),
    ])
}

// The same with an accepting source, which the first edge leads back to: a turn, 468 deliveries, and the next turn.
fn full_lasso<R: Print + Eprint + AllocGlobal>(lines: &mut Lines<'_, R>) -> io::Result<()> {
    let owned = full(lines.alloc(), 500, 2000, 16, 0..1)?;
    let busy = Wanted::lasso(470).tallied(468, 468, 0);
    lines.runs(&[Run::by_rounds("2,000 edges, accepting source", &owned, busy, K4_LASSO)])
}

// The same with only the last vertex accepting, whose rest loop has the highest number: once all have had their turn, it
// takes one more.
fn full_rest<R: Print + Eprint + AllocGlobal>(lines: &mut Lines<'_, R>) -> io::Result<()> {
    let alone = full(lines.alloc(), 500, 2000, 1, 499..500)?;
    let owned = full(lines.alloc(), 500, 2000, 16, 499..500)?;
    let answer = answer!("2 lasso 1 1 0\nedge\n499\n2495\n");
    let busy = Wanted::lasso(2373).tallied(1872, 1872, 0);
    lines.runs(&[
        Run::by_rounds(
            "2,000 edges, lasso by edge 2,495",
            &alone,
            Wanted::lasso(501),
            answer,
        ),
        Run::by_rounds("16 workers, lasso by edge 2,495", &owned, busy, answer),
    ])
}

// 500 rest loops and no other edge. The source goes down by one at each turn: with 500 accepting vertices it breaks the
// floor at its 501st.
fn no_edges<R: Print + Eprint + AllocGlobal>(lines: &mut Lines<'_, R>) -> io::Result<()> {
    let none = full(lines.alloc(), 500, 0, 1, 0..0)?;
    let all = full(lines.alloc(), 500, 0, 1, 0..500)?;
    lines.runs(&[
        Run::by_rounds(
            "500 vertices, no edge",
            &none,
            Wanted::empty(1),
            ONE_REACHED,
        ),
        Run::by_rounds(
            "the same, all accepting",
            &all,
            Wanted::lasso(501),
            K4_LASSO,
        ),
    ])
}

pub(crate) fn counts<R: Print + Eprint + AllocGlobal>(lines: &mut Lines<'_, R>) -> io::Result<()> {
    rings(lines)?;
    full_empty(lines)?;
    full_lasso(lines)?;
    full_rest(lines)?;
    no_edges(lines)
}

// One past a limit.
pub(crate) fn past_counts<R: Print + Eprint + AllocGlobal>(
    lines: &mut Lines<'_, R>,
) -> io::Result<()> {
    let vertices = full(lines.alloc(), 501, 0, 1, 0..0)?;
    let edges = full(lines.alloc(), 500, 2001, 1, 0..0)?;
    let workers = full(lines.alloc(), 500, 2000, 17, 0..0)?;
    let past = Wanted::refused(Refusal::OutOfRange);
    lines.runs(&[
        Run::by_rounds("501 vertices", &vertices, past, ""),
        Run::by_rounds("2,001 edges", &edges, past, ""),
        Run::by_rounds("17 workers", &workers, past, ""),
    ])
}

// No right case is longer than some 21,000 bytes, so at 65,536 it is the bytes after K4's last line that are refused. A
// refusal of the file goes before 9.
pub(crate) fn lengths<R: Print + Eprint + AllocGlobal>(lines: &mut Lines<'_, R>) -> io::Result<()> {
    let longest = padded(lines.alloc(), K4, 65536)?;
    let long = padded(lines.alloc(), K4, 65537)?;
    let no_line = padded(lines.alloc(), "", 65536)?;
    let long_line = padded(lines.alloc(), "", 65537)?;
    let layout = Wanted::refused(Refusal::CaseLayout);
    let no_version = Wanted::refused(Refusal::NoVersion);
    let too_long = Wanted::refused(Refusal::LongFile);
    lines.runs(&[
        Run::by_rounds("65,536 bytes", &longest, layout, ""),
        Run::by_rounds("65,537 bytes", &long, too_long, ""),
        Run::by_list("65,536 bytes, by a list", &no_line, &PAST, no_version, ""),
        Run::by_list("65,537 bytes, by a list", &long_line, &PAST, too_long, ""),
        Run::by_rounds("empty file", "", no_version, ""),
        Run::by_list("empty file, by a list", "", &PAST, no_version, ""),
    ])
}
