// Runs over vertices that no edge of the file leaves, each of which rests there for ever.
use crate::kept::{D, D_LASSO, ONE_REACHED};
use crate::line::{Lines, Run, Wanted};
use bench_kit::{answer, case};
use model::Refusal;
use std::io;

// No act delivers on a rest loop: 9 from P + m on, with the file's m. At its first turn vertex 2 goes down to -1 only.
fn lists_of_d<R: Print + Eprint + AllocGlobal>(lines: &mut Lines<'_, R>) -> io::Result<()> {
    lines.runs(&[
        Run::by_list(
            "D, the one act 2",
            D,
            &[2],
            Wanted::refused(Refusal::ActRange),
            "",
        ),
        Run::by_list("D, acts 1 0", D, &[1, 0], Wanted::cut_short(1), ""),
        Run::by_list("D, two turns", D, &[0, 0], Wanted::cut_short(2), ""),
    ])
}

// Where vertex 2 has another owner it is reached by a message, and needs none to stay. Where the file has the loops, it is
// the same run with other edge numbers. And where the accepting vertex is out of reach, its loop is never scanned.
fn like_d<R: Print + Eprint + AllocGlobal>(lines: &mut Lines<'_, R>) -> io::Result<()> {
    lines.runs(&[
        Run::by_rounds(
            "D, two workers",
            case!("1 4 1 1 2\nvertex accepting owner\n0 0 0\n1 0 0\n2 1 1\n3 0 0\nfrom to\n1 2\n"),
            Wanted::lasso(4).tallied(1, 1, 0),
            D_LASSO,
        ),
        Run::by_rounds(
            "D, its loops in the file",
            case!(
                "1 4 4 1 1\nvertex accepting owner\n0 0 0\n1 0 0\n2 1 0\n3 0 0\nfrom to\n0 0\n1 2\n2 2\n3 3\n"
            ),
            Wanted::lasso(3),
            answer!("2 lasso 1 1 0\nedge\n1\n2\n"),
        ),
        Run::by_rounds(
            "D, only 3 accepting",
            case!("1 4 1 1 1\nvertex accepting owner\n0 0 0\n1 0 0\n2 0 0\n3 1 0\nfrom to\n1 2\n"),
            Wanted::empty(2),
            answer!("2 empty 0 0 2\nvertex distance\n1 0\n2 0\n"),
        ),
    ])
}

// A rest loop offers what its vertex has, unless that is accepting. In the second, vertex 0 goes round by edge 0 and lowers
// 1 twice, which then is the first below the floor, by its rest loop.
fn at_rest<R: Print + Eprint + AllocGlobal>(lines: &mut Lines<'_, R>) -> io::Result<()> {
    lines.runs(&[
        Run::by_rounds(
            "K4, not accepting",
            case!("1 1 0 0 1\nvertex accepting owner\n0 0 0\nfrom to\n"),
            Wanted::empty(1),
            ONE_REACHED,
        ),
        Run::by_rounds(
            "a cycle and an accepting dead end",
            case!("1 2 2 0 1\nvertex accepting owner\n0 1 0\n1 1 0\nfrom to\n0 0\n0 1\n"),
            Wanted::lasso(3),
            answer!("2 lasso 1 1 0\nedge\n1\n2\n"),
        ),
    ])
}

pub(crate) fn dead_ends<R: Print + Eprint + AllocGlobal>(
    lines: &mut Lines<'_, R>,
) -> io::Result<()> {
    lists_of_d(lines)?;
    like_d(lines)?;
    at_rest(lines)
}
