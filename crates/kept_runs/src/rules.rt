// Runs that no table names: a list of whole rounds, lists that are refused or run out, refused lines, and the shortcuts
// that would spoil a finding.
use crate::kept::{K1, K1_LASSO};
use crate::line::{Lines, Run, Wanted};
use crate::sizes::rounds_of_k1;
use bench_kit::buffers::front;
use bench_kit::{answer, case};
use model::Refusal;
use std::io;

fn refused_lines<R: Print + Eprint + AllocGlobal>(lines: &mut Lines<'_, R>) -> io::Result<()> {
    lines.runs(&[
        Run::by_rounds(
            "K1, owner 2",
            case!(
                "1 3 3 0 2\nvertex accepting owner\n0 0 0\n1 1 2\n2 0 0\nfrom to\n0 1\n1 2\n2 1\n"
            ),
            Wanted::refused(Refusal::VertexLine),
            "",
        ),
        Run::by_rounds(
            "K1, edge to 3",
            case!(
                "1 3 3 0 2\nvertex accepting owner\n0 0 0\n1 1 1\n2 0 0\nfrom to\n0 1\n1 3\n2 1\n"
            ),
            Wanted::refused(Refusal::EdgeEnd),
            "",
        ),
    ])
}

// K1 by acts of whole rounds: the 8th act that does something is the 19th in all, act 3 of the fourth round.
fn by_whole_rounds<R: Print + Eprint + AllocGlobal>(lines: &mut Lines<'_, R>) -> io::Result<()> {
    let list = rounds_of_k1(lines.alloc(), 30)?;
    let whole = Wanted::lasso(8).tallied(4, 4, 0);
    let three = Wanted::cut_short(6).tallied(3, 3, 0);
    let one_waits = Wanted::cut_short(7).tallied(4, 3, 0);
    lines.runs(&[
        Run::by_list("K1, six whole rounds", K1, &list, whole, K1_LASSO),
        Run::by_list("K1, three whole rounds", K1, front(&list, 15), three, ""),
        Run::by_list("K1, 18 acts of rounds", K1, front(&list, 18), one_waits, ""),
        Run::by_list(
            "K1, 19 acts of rounds",
            K1,
            front(&list, 19),
            whole,
            K1_LASSO,
        ),
    ])
}

// 9 at P + m and not below, for the whole list, also after the run's end; 10 while all queues are empty and a message waits.
fn by_one_act<R: Print + Eprint + AllocGlobal>(lines: &mut Lines<'_, R>) -> io::Result<()> {
    let mut late = rounds_of_k1(lines.alloc(), 30)?;
    late.push(5)?;
    let past = Wanted::refused(Refusal::ActRange);
    let one_waits = Wanted::cut_short(1).tallied(1, 0, 0);
    lines.runs(&[
        Run::by_list("K1, the one act 4", K1, &[4], Wanted::cut_short(0), ""),
        Run::by_list("K1, the one act 5", K1, &[5], past, ""),
        Run::by_list("K1, act 5 after the end", K1, &late, past, ""),
        Run::by_list("K1, the one act 0", K1, &[0], one_waits, ""),
    ])
}

const MET: &str = case!(
    "1 4 4 0 2\nvertex accepting owner\n0 0 0\n1 0 0\n2 1 0\n3 0 1\nfrom to\n0 1\n0 2\n1 3\n2 1\n"
);

const MET_EMPTY: &str = answer!("2 empty 0 0 4\nvertex distance\n0 0\n1 -1\n2 0\n3 -1\n");

// Delivered after a lower one has been taken; and vertex 1 scanned again before its first message is delivered. By rounds
// the two are delivered one by one.
fn offers<R: Print + Eprint + AllocGlobal>(lines: &mut Lines<'_, R>) -> io::Result<()> {
    lines.runs(&[
        Run::by_list(
            "late higher offer",
            case!(
                "1 3 3 0 2\nvertex accepting owner\n0 0 0\n1 1 0\n2 0 1\nfrom to\n0 1\n0 2\n1 2\n"
            ),
            &[0, 0, 4, 3, 1],
            Wanted::empty(5).tallied(2, 2, 0),
            answer!("2 empty 0 0 3\nvertex distance\n0 0\n1 0\n2 -1\n"),
        ),
        Run::by_list(
            "offer that meets a waiting one",
            MET,
            &[0, 0, 0, 0, 4, 1],
            Wanted::empty(6).tallied(2, 1, 1),
            MET_EMPTY,
        ),
        Run::by_rounds(
            "the same by rounds",
            MET,
            Wanted::empty(8).tallied(2, 2, 0),
            MET_EMPTY,
        ),
    ])
}

// In the second the cycle starts past the source, which is on it.
fn stems<R: Print + Eprint + AllocGlobal>(lines: &mut Lines<'_, R>) -> io::Result<()> {
    lines.runs(&[
        Run::by_rounds(
            "accepting on the stem only",
            case!("1 2 2 0 1\nvertex accepting owner\n0 1 0\n1 0 0\nfrom to\n0 1\n1 1\n"),
            Wanted::empty(2),
            answer!("2 empty 0 0 2\nvertex distance\n0 0\n1 -1\n"),
        ),
        Run::by_rounds(
            "source with a parent",
            case!("1 2 2 0 1\nvertex accepting owner\n0 1 0\n1 0 0\nfrom to\n0 1\n1 0\n"),
            Wanted::lasso(3),
            answer!("2 lasso 1 2 0\nedge\n0\n1\n0\n"),
        ),
    ])
}

pub(crate) fn refusals_and_lists<R: Print + Eprint + AllocGlobal>(
    lines: &mut Lines<'_, R>,
) -> io::Result<()> {
    refused_lines(lines)?;
    by_whole_rounds(lines)?;
    by_one_act(lines)
}

pub(crate) fn shortcuts<R: Print + Eprint + AllocGlobal>(
    lines: &mut Lines<'_, R>,
) -> io::Result<()> {
    offers(lines)?;
    stems(lines)
}
