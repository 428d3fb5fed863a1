// Tries the checker on answers by other tools that must pass, on each way of 12 and 13, and on what the versions mean, and
// writes what it says.
#![tactic(auto)]

use bench_kit::{answer, case};
use checker::check_answer;
use model::{Checked, Outcome};
use std::{fmt, io};

const K1: &str = case!(
    "1 3 3 0 2\nvertex accepting owner\n0 0 0\n1 1 1\n2 0 0\nfrom to\n0 1\n1 2\n2 1\n"
);

// One edge, from the source 1 to the accepting 2. In version 2 edges 1 to 3 are the rest loops of 0, 2 and 3.
const D: &str = case!(
    "1 4 1 1 1\nvertex accepting owner\n0 0 0\n1 0 0\n2 1 0\n3 0 0\nfrom to\n1 2\n"
);

// One edge, from the accepting source to 1, and 2 that no walk reaches.
const ONE_EDGE: &str = case!(
    "1 3 1 0 1\nvertex accepting owner\n0 1 0\n1 0 0\n2 0 0\nfrom to\n0 1\n"
);

// A loop of the source, and a dead end that no walk reaches: not accepting, and accepting.
const ONE_LOOP: &str = case!("1 2 1 0 1\nvertex accepting owner\n0 0 0\n1 0 0\nfrom to\n0 0\n");

const APART: &str = case!("1 2 1 0 1\nvertex accepting owner\n0 0 0\n1 1 0\nfrom to\n0 0\n");

// What a check said, by its numbers, as C gets them: a line's end.
#[derive(Clone, Copy)]
struct Said(Checked);

impl fmt::Display for Said {
    fn fmt<W: fmt::Write>(&self, f: &mut fmt::Formatter<W>) -> fmt::Result {
        match self.0.verdict {
            Outcome::LASSO => write!(f, "pass lasso"),
            Outcome::EMPTY => write!(f, "pass empty"),
            _ => {
                let refusal = self.0.refusal;
                write!(f, "{refusal}")
            }
        }
    }
}

// Tries answers to a case, each behind its name; where standard output takes nothing, the trials go on.
fn check(rt: &impl Print, case: &str, answers: &[(&str, &str)]) {
    for &(name, answer) in answers {
        let said = Said(check_answer(case.as_bytes(), answer.as_bytes()));
        let _ = println!(rt; "{name}: {said}");
    }
}

// Lassos that pass, also with edges that come again.
fn pass_lasso(rt: &impl Print) {
    check(
        rt,
        K1,
        &[
            ("lasso of K1", answer!("1 lasso 1 2 0\nedge\n0\n1\n2\n")),
            (
                "edges again",
                answer!("1 lasso 3 4 0\nedge\n0\n1\n2\n1\n2\n1\n2\n"),
            ),
            (
                "cycle from its other vertex",
                answer!("1 lasso 2 2 0\nedge\n0\n1\n2\n1\n"),
            ),
        ],
    )
}

// Lines 1 to 3: 3 and 12.
fn torn_front(rt: &impl Print) {
    check(
        rt,
        K1,
        &[
            ("no file", ""),
            ("another file", "answer 1"),
            ("another version", answer!("3 lasso 1 2 0\nedge\n")),
            ("version alone", "version \n0"),
            ("leading zero", answer!("01 lasso 1 2 0\nedge\n0\n1\n2\n")),
            (
                "leading zero before 2",
                answer!("02 lasso 1 2 0\nedge\n0\n1\n2\n"),
            ),
        ],
    )
}

// Counts and names: 12.
fn torn_head(rt: &impl Print) {
    check(
        rt,
        K1,
        &[
            ("another verdict", answer!("1 open 1 2 0\nedge\n0\n1\n2\n")),
            ("no cycle", answer!("1 lasso 1 0 0\nedge\n0\n")),
            (
                "lasso that reached",
                answer!("1 lasso 1 2 1\nedge\n0\n1\n2\n"),
            ),
            ("count above the most", answer!("1 lasso 501 2 0\nedge\n")),
            (
                "names of the other verdict",
                answer!("1 lasso 1 2 0\nvertex distance\n0\n1\n2\n"),
            ),
        ],
    )
}

// Lines and what follows them: 12.
fn torn_lines(rt: &impl Print) {
    check(
        rt,
        K1,
        &[
            ("last line open", answer!("1 lasso 1 2 0\nedge\n0\n1\n2")),
            (
                "line too many",
                answer!("1 lasso 1 2 0\nedge\n0\n1\n1\n0\n"),
            ),
            ("line too few", answer!("1 lasso 1 2 0\nedge\n0\n1\n")),
            (
                "nothing reached",
                answer!("1 empty 0 0 0\nvertex distance\n"),
            ),
            (
                "empty with a stem",
                answer!("1 empty 1 0 1\nvertex distance\n0 0\n"),
            ),
        ],
    )
}

// Distances: 12.
fn torn_numbers(rt: &impl Print) {
    check(
        rt,
        K1,
        &[
            (
                "minus zero",
                answer!("1 empty 0 0 1\nvertex distance\n0 -0\n"),
            ),
            (
                "too far",
                answer!("1 empty 0 0 1\nvertex distance\n0 501\n"),
            ),
            (
                "too far below",
                answer!("1 empty 0 0 1\nvertex distance\n0 -501\n"),
            ),
            (
                "two signs",
                answer!("1 empty 0 0 1\nvertex distance\n0 --1\n"),
            ),
            (
                "bytes after the end",
                answer!("1 empty 0 0 1\nvertex distance\n0 0\n\n"),
            ),
        ],
    )
}

// Lassos that do not pass: 13.
fn wrong_walks(rt: &impl Print) {
    check(
        rt,
        K1,
        &[
            ("edge out of range", answer!("1 lasso 1 2 0\nedge\n0\n3\nx")),
            (
                "edge that does not follow",
                answer!("1 lasso 1 2 0\nedge\n0\n1\n1\n"),
            ),
            (
                "not from the source",
                answer!("1 lasso 0 2 0\nedge\n1\n2\n"),
            ),
            ("cycle not closed", answer!("1 lasso 1 1 0\nedge\n0\n1\n")),
        ],
    )
}

// Listings that do not pass: 13.
fn wrong_lists(rt: &impl Print) {
    check(
        rt,
        K1,
        &[
            (
                "vertex out of range",
                answer!("1 empty 0 0 1\nvertex distance\n9 -0\n"),
            ),
            (
                "vertices not rising",
                answer!("1 empty 0 0 2\nvertex distance\n1 0\n0 0\n"),
            ),
            (
                "source not listed",
                answer!("1 empty 0 0 1\nvertex distance\n1 0\n"),
            ),
            (
                "target not listed",
                answer!("1 empty 0 0 1\nvertex distance\n0 0\n"),
            ),
            (
                "number too high",
                answer!("1 empty 0 0 3\nvertex distance\n0 0\n1 0\n2 -1\n"),
            ),
        ],
    )
}

// Other cases: numbers above 0, the source off 0, vertices that no walk reaches.
fn other_cases(rt: &impl Print) {
    check(
        rt,
        ONE_EDGE,
        &[
            (
                "least numbers",
                answer!("1 empty 0 0 2\nvertex distance\n0 0\n1 -1\n"),
            ),
            (
                "numbers of another tool",
                answer!("1 empty 0 0 3\nvertex distance\n0 500\n1 499\n2 -500\n"),
            ),
            (
                "lower than need be",
                answer!("1 empty 0 0 2\nvertex distance\n0 7\n1 -3\n"),
            ),
            (
                "one too high",
                answer!("1 empty 0 0 2\nvertex distance\n0 7\n1 7\n"),
            ),
        ],
    );
    check(
        rt,
        ONE_LOOP,
        &[(
            "no accepting vertex on the cycle",
            answer!("1 lasso 0 1 0\nedge\n0\n"),
        )],
    )
}

// Version 2 on a graph without dead ends, where it means what version 1 does.
fn version_2(rt: &impl Print) {
    check(
        rt,
        K1,
        &[
            ("version 2", answer!("2 lasso 1 2 0\nedge\n0\n1\n2\n")),
            ("version 2, no lines", answer!("2 lasso 1 2 0\nedge\n")),
            (
                "version 2, edge out of range",
                answer!("2 lasso 1 2 0\nedge\n0\n3\nx"),
            ),
            (
                "version 2, number too high",
                answer!("2 empty 0 0 3\nvertex distance\n0 0\n1 0\n2 -1\n"),
            ),
        ],
    )
}

fn rest_loops(rt: &impl Print) {
    check(
        rt,
        D,
        &[
            ("rest loop", answer!("2 lasso 1 1 0\nedge\n0\n2\n")),
            (
                "rest loop again",
                answer!("2 lasso 2 3 0\nedge\n0\n2\n2\n2\n2\n"),
            ),
            (
                "rest loop in version 1",
                answer!("1 lasso 1 1 0\nedge\n0\n2\n"),
            ),
            (
                "rest loop of another vertex",
                answer!("2 lasso 1 1 0\nedge\n0\n3\n"),
            ),
            (
                "rest loop past the last",
                answer!("2 lasso 1 1 0\nedge\n0\n4\n"),
            ),
            (
                "rest loop, not from the source",
                answer!("2 lasso 0 1 0\nedge\n2\n"),
            ),
        ],
    )
}

// A listed dead end must lead right by its rest loop, which only an accepting one does not.
fn resting_lists(rt: &impl Print) {
    check(
        rt,
        D,
        &[
            (
                "accepting dead end",
                answer!("2 empty 0 0 2\nvertex distance\n1 0\n2 0\n"),
            ),
            (
                "accepting dead end in version 1",
                answer!("1 empty 0 0 2\nvertex distance\n1 0\n2 0\n"),
            ),
        ],
    );
    check(
        rt,
        ONE_EDGE,
        &[(
            "dead ends that do not accept",
            answer!("2 empty 0 0 3\nvertex distance\n0 500\n1 499\n2 -500\n"),
        )],
    );
    check(
        rt,
        APART,
        &[
            (
                "accepting dead end out of reach",
                answer!("2 empty 0 0 1\nvertex distance\n0 0\n"),
            ),
            (
                "accepting dead end listed without need",
                answer!("2 empty 0 0 2\nvertex distance\n0 0\n1 -500\n"),
            ),
        ],
    )
}

fn main(rt: HostRuntime) {
    pass_lasso(&rt);
    torn_front(&rt);
    torn_head(&rt);
    torn_lines(&rt);
    torn_numbers(&rt);
    wrong_walks(&rt);
    wrong_lists(&rt);
    other_cases(&rt);
    version_2(&rt);
    rest_loops(&rt);
    resting_lists(&rt)
}
