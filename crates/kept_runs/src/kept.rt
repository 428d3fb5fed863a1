// The table of kept runs: K1 to K11, one in which a message joins, and D.
use crate::line::{Lines, Run, Wanted};
use bench_kit::{answer, case};
use model::Refusal;
use std::io;

pub(crate) const K1: &str = case!(
    "1 3 3 0 2\nvertex accepting owner\n0 0 0\n1 1 1\n2 0 0\nfrom to\n0 1\n1 2\n2 1\n"
);

pub(crate) const K1_LASSO: &str = answer!("2 lasso 1 2 0\nedge\n0\n1\n2\n");

// The one edge of K4 is a rest loop.
pub(crate) const K4: &str = case!("1 1 0 0 1\nvertex accepting owner\n0 1 0\nfrom to\n");

pub(crate) const K4_LASSO: &str = answer!("2 lasso 0 1 0\nedge\n0\n");

// Of a case whose source rests, or goes round, and nothing else is reached.
pub(crate) const ONE_REACHED: &str = answer!("2 empty 0 0 1\nvertex distance\n0 0\n");

// Vertex 1 alone has an edge, edge 0; the rest loops of 0, 2 and 3 are edges 1 to 3.
pub(crate) const D: &str = case!(
    "1 4 1 1 1\nvertex accepting owner\n0 0 0\n1 0 0\n2 1 0\n3 0 0\nfrom to\n1 2\n"
);

pub(crate) const D_LASSO: &str = answer!("2 lasso 1 1 0\nedge\n0\n2\n");

fn k1_to_k3<R: Print + Eprint + AllocGlobal>(lines: &mut Lines<'_, R>) -> io::Result<()> {
    lines.runs(&[
        Run::by_rounds("K1", K1, Wanted::lasso(8).tallied(4, 4, 0), K1_LASSO),
        Run::by_rounds(
            "K2",
            case!(
                "1 3 3 0 2\nvertex accepting owner\n0 1 0\n1 0 1\n2 0 0\nfrom to\n0 1\n1 2\n2 1\n"
            ),
            Wanted::empty(6).tallied(3, 3, 0),
            answer!("2 empty 0 0 3\nvertex distance\n0 0\n1 -1\n2 -1\n"),
        ),
        Run::by_rounds(
            "K3",
            case!("1 1 1 0 1\nvertex accepting owner\n0 1 0\nfrom to\n0 0\n"),
            Wanted::lasso(2),
            answer!("2 lasso 0 1 0\nedge\n0\n"),
        ),
    ])
}

// Edge 1 of K6 is a rest loop.
fn k4_to_k6<R: Print + Eprint + AllocGlobal>(lines: &mut Lines<'_, R>) -> io::Result<()> {
    lines.runs(&[
        Run::by_rounds("K4", K4, Wanted::lasso(2), K4_LASSO),
        Run::by_rounds(
            "K5",
            case!("1 1 1 0 1\nvertex accepting owner\n0 0 0\nfrom to\n0 0\n"),
            Wanted::empty(1),
            ONE_REACHED,
        ),
        Run::by_rounds(
            "K6",
            case!("1 2 1 0 1\nvertex accepting owner\n0 0 0\n1 1 0\nfrom to\n1 1\n"),
            Wanted::empty(1),
            ONE_REACHED,
        ),
    ])
}

fn k7_to_k9<R: Print + Eprint + AllocGlobal>(lines: &mut Lines<'_, R>) -> io::Result<()> {
    lines.runs(&[
        Run::by_list("K7", K1, &[], Wanted::cut_short(0), ""),
        Run::by_rounds(
            "K8",
            case!(
                "1 3 3 0 1\nvertex accepting owner\n0 0 0\n1 1 0\n2 0 0\nfrom to\n0 1\n1 2\n2 1\n"
            ),
            Wanted::lasso(4),
            K1_LASSO,
        ),
        Run::by_list("K9", K1, &[2], Wanted::cut_short(0), ""),
    ])
}

fn k10_and_k11<R: Print + Eprint + AllocGlobal>(lines: &mut Lines<'_, R>) -> io::Result<()> {
    lines.runs(&[
        Run::by_rounds(
            "K10",
            case!(
                "2 3 3 0 2\nvertex accepting owner\n0 0 0\n1 1 1\n2 0 0\nfrom to\n0 1\n1 2\n2 1\n"
            ),
            Wanted::refused(Refusal::OtherVersion),
            "",
        ),
        Run::by_rounds(
            "K11",
            case!(
                "1 3 4 0 2\nvertex accepting owner\n0 0 0\n1 1 1\n2 0 0\nfrom to\n0 1\n1 2\n1 2\n2 1\n"
            ),
            Wanted::refused(Refusal::EdgeOrder),
            "",
        ),
    ])
}

// In the first, vertex 0 is scanned again before its message to 2 is delivered.
fn joined_and_d<R: Print + Eprint + AllocGlobal>(lines: &mut Lines<'_, R>) -> io::Result<()> {
    lines.runs(&[
        Run::by_list(
            "a message joins and three wait",
            case!(
                "1 3 4 0 3\nvertex accepting owner\n0 0 0\n1 1 1\n2 0 2\nfrom to\n0 1\n0 2\n1 0\n1 2\n"
            ),
            &[0, 3, 1, 5, 0],
            Wanted::cut_short(5).tallied(6, 2, 1),
            "",
        ),
        Run::by_rounds("D", D, Wanted::lasso(3), D_LASSO),
    ])
}

// The whole table.
pub(crate) fn table<R: Print + Eprint + AllocGlobal>(lines: &mut Lines<'_, R>) -> io::Result<()> {
    k1_to_k3(lines)?;
    k4_to_k6(lines)?;
    k7_to_k9(lines)?;
    k10_and_k11(lines)?;
    joined_and_d(lines)
}
