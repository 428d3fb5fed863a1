// Answers of both versions put to the checker: 2 means the graph with its rest loops, 1 the graph as the file has it.
use crate::kept::{D, D_LASSO, K1, K1_LASSO, K4, K4_LASSO, ONE_REACHED};
use crate::line::Lines;
use bench_kit::{answer, case};
use model::Refusal;
use model::Verdict::{Empty, Lasso};

// Of K1 both versions mean the same graph: each vertex has an edge. Its lasso with a version: 3 for a number other than 1 and
// 2, 12 for what is no number; and the answers of other kept runs.
fn versions_of_k1<R: Print + Eprint + AllocGlobal>(lines: &mut Lines<'_, R>) {
    let one = answer!("1 lasso 1 2 0\nedge\n0\n1\n2\n");
    let zero = answer!("0 lasso 1 2 0\nedge\n0\n1\n2\n");
    let three = answer!("3 lasso 1 2 0\nedge\n0\n1\n2\n");
    let padded = answer!("02 lasso 1 2 0\nedge\n0\n1\n2\n");
    let k2 = answer!("2 empty 0 0 3\nvertex distance\n0 0\n1 -1\n2 -1\n");
    let k3 = answer!("2 lasso 0 1 0\nedge\n0\n");
    lines.checks(
        K1,
        &[
            ("check K1, its lasso", K1_LASSO, Ok(Lasso)),
            ("check K1, version 1", one, Ok(Lasso)),
            ("check K1, version 0", zero, Err(Refusal::OtherVersion)),
            ("check K1, version 3", three, Err(Refusal::OtherVersion)),
            ("check K1, version 02", padded, Err(Refusal::AnswerLayout)),
            ("check K1, K2's answer", k2, Err(Refusal::NotShown)),
            ("check K1, K3's answer", k3, Err(Refusal::NotShown)),
        ],
    );
}

// The one edge of K4 is a rest loop.
fn versions_of_k4<R: Print + Eprint + AllocGlobal>(lines: &mut Lines<'_, R>) {
    let old_lasso = answer!("1 lasso 0 1 0\nedge\n0\n");
    let old_empty = answer!("1 empty 0 0 1\nvertex distance\n0 0\n");
    lines.checks(
        K4,
        &[
            ("check K4, its lasso", K4_LASSO, Ok(Lasso)),
            ("check K4, version 1", old_lasso, Err(Refusal::NotShown)),
            ("check K4, empty", ONE_REACHED, Err(Refusal::NotShown)),
            ("check K4, empty, version 1", old_empty, Ok(Empty)),
        ],
    );
}

// The edges of D are 0 and, with the rest loops of 0, 2 and 3, 1 to 3.
fn versions_of_d<R: Print + Eprint + AllocGlobal>(lines: &mut Lines<'_, R>) {
    let old_lasso = answer!("1 lasso 1 1 0\nedge\n0\n2\n");
    let loop_of_3 = answer!("2 lasso 1 1 0\nedge\n0\n3\n");
    let no_edge = answer!("2 lasso 1 1 0\nedge\n0\n4\n");
    let empty = answer!("2 empty 0 0 2\nvertex distance\n1 0\n2 0\n");
    let old_empty = answer!("1 empty 0 0 2\nvertex distance\n1 0\n2 0\n");
    lines.checks(
        D,
        &[
            ("check D, its lasso", D_LASSO, Ok(Lasso)),
            ("check D, version 1", old_lasso, Err(Refusal::NotShown)),
            ("check D, the loop of 3", loop_of_3, Err(Refusal::NotShown)),
            ("check D, edge 4", no_edge, Err(Refusal::NotShown)),
            ("check D, empty", empty, Err(Refusal::NotShown)),
            ("check D, empty, version 1", old_empty, Ok(Empty)),
        ],
    );
}

// No walk reaches the accepting dead end. Listed without need, it must lead right all the same, and no number does.
fn versions_of_apart<R: Print + Eprint + AllocGlobal>(lines: &mut Lines<'_, R>) {
    let long = answer!("2 empty 0 0 2\nvertex distance\n0 0\n1 0\n");
    let old_long = answer!("1 empty 0 0 2\nvertex distance\n0 0\n1 0\n");
    lines.checks(
        case!("1 2 1 0 1\nvertex accepting owner\n0 0 0\n1 1 0\nfrom to\n0 0\n"),
        &[
            ("check, dead end out of reach", ONE_REACHED, Ok(Empty)),
            ("check, the same listed", long, Err(Refusal::NotShown)),
            ("check, listed, version 1", old_long, Ok(Empty)),
        ],
    );
}

pub(crate) fn by_version<R: Print + Eprint + AllocGlobal>(lines: &mut Lines<'_, R>) {
    versions_of_k1(lines);
    versions_of_k4(lines);
    versions_of_d(lines);
    versions_of_apart(lines);
}
