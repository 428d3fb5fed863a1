// Answers put to the checker: files at the limits of length and of edge numbers, and empty ones.
use crate::kept::K4;
use crate::line::Lines;
use crate::sizes::full;
use bench_kit::answer;
use bench_kit::graph::padded;
use model::Refusal;
use std::io;

// The checker judges the whole case before the answer.
pub(crate) fn checker_cases<R: Print + Eprint + AllocGlobal>(
    lines: &mut Lines<'_, R>,
) -> io::Result<()> {
    let longest = padded(lines.alloc(), K4, 65536)?;
    let long = padded(lines.alloc(), K4, 65537)?;
    let answer = padded(lines.alloc(), "", 65537)?;
    lines.check(
        "check, case of 65,536 bytes",
        &longest,
        &answer,
        Err(Refusal::CaseLayout),
    );
    lines.check(
        "check, case of 65,537 bytes",
        &long,
        &answer,
        Err(Refusal::LongFile),
    );
    lines.check("check, empty case", "", &answer, Err(Refusal::NoVersion));
    Ok(())
}

// 12 for what such an answer holds, unless it is too long.
pub(crate) fn checker_lengths<R: Print + Eprint + AllocGlobal>(
    lines: &mut Lines<'_, R>,
) -> io::Result<()> {
    let longest = padded(lines.alloc(), "", 65536)?;
    let long = padded(lines.alloc(), "", 65537)?;
    lines.checks(
        K4,
        &[
            (
                "check, answer of 65,536 bytes",
                &longest,
                Err(Refusal::AnswerLayout),
            ),
            (
                "check, answer of 65,537 bytes",
                &long,
                Err(Refusal::LongFile),
            ),
            ("check, empty answer", "", Err(Refusal::AnswerLayout)),
        ],
    );
    Ok(())
}

// Edge numbers are below 2,496 in version 2 and below 2,000 in version 1: of 2,000 edges and 496 rest loops the last is that
// of the accepting vertex. Neither answer names an edge.
pub(crate) fn checker_edges<R: Print + Eprint + AllocGlobal>(
    lines: &mut Lines<'_, R>,
) -> io::Result<()> {
    let case = full(lines.alloc(), 500, 2000, 1, 499..500)?;
    lines.checks(
        &case,
        &[
            (
                "check, edge 2,496",
                answer!("2 lasso 1 1 0\nedge\n499\n2496\n"),
                Err(Refusal::NotShown),
            ),
            (
                "check, edge 2,495, version 1",
                answer!("1 lasso 1 1 0\nedge\n499\n2495\n"),
                Err(Refusal::NotShown),
            ),
        ],
    );
    Ok(())
}
