// Tries the case file's reader by running it: the limits from both sides, and each reason of each refusal. It prints a
// line for each text, with the refusal or 0; the file stdout has what must come.
#![tactic(auto)]

use bench_kit::case;
use bench_kit::graph::{Graph, padded};
use casefile::{Case, CaseTables, judge, read_case};
use model::Refusal;
use std::io;

const K1: &str = case!(
    "1 3 3 0 2\nvertex accepting owner\n0 0 0\n1 1 1\n2 0 0\nfrom to\n0 1\n1 2\n2 1\n"
);

// Prints what was tried and the refusal; where standard output takes nothing, the trials go on.
fn show_judged(rt: &impl Print, name: &str, judged: Result<Case, Refusal>) {
    let refusal = judged.err().map_or(0, Refusal::number);
    let _ = println!(rt; "{name}: {refusal}");
}

fn show(rt: &impl Print, name: &str, text: &str) {
    show_judged(rt, name, judge(text.as_bytes()));
}

// Texts, each behind its name.
fn show_all(rt: &impl Print, texts: &[(&str, &str)]) {
    for &(name, text) in texts {
        show(rt, name, text);
    }
}

// Each size from both sides of its limit.
fn try_sizes(rt: &(impl Print + AllocGlobal)) -> io::Result<()> {
    for (name, n, m, workers) in [
        ("500 vertices", 500, 0, 1),
        ("501 vertices", 501, 0, 1),
        ("2,000 edges", 500, 2000, 1),
        ("2,001 edges", 500, 2001, 1),
        ("16 workers", 500, 2000, 16),
        ("17 workers", 500, 2000, 17),
    ] {
        let graph = Graph::complete(rt.alloc(), n, m, workers)?;
        show(rt, name, &graph.text(rt.alloc())?);
    }
    Ok(())
}

// A right case with so many bytes after it that the file is this long.
fn try_lengths(rt: &(impl Print + AllocGlobal)) -> io::Result<()> {
    let case = case!("1 1 0 0 1\nvertex accepting owner\n0 0 0\nfrom to\n");
    for (name, length) in [("65,536 bytes", 65536), ("65,537 bytes", 65537)] {
        show(rt, name, &padded(rt.alloc(), case, length)?);
    }
    Ok(())
}

// 2, 3 and the version's part of 4.
fn try_versions(rt: &impl Print) {
    show_all(
        rt,
        &[
            ("an empty file", ""),
            ("torn in its first word", "versio"),
            ("another first word", "versions 1\n"),
            ("version 0", "version x\n0"),
            ("version 2 in a torn file", "version x\n2"),
            ("version 2 before a bad line 1", "version 2\n2 x\n"),
            ("version 2 and no line 2", "version 2"),
            ("version 01", "version x\n01"),
            ("a version of ten digits", "version x\n1000000000"),
            ("version 2 with a carriage return", "version x\n2\r\n"),
        ],
    );
}

// 4 on the first two lines.
fn try_layouts(rt: &impl Print) {
    show_all(
        rt,
        &[
            ("K1", K1),
            (
                "another name on line 1",
                "version vertices edges sources workers\n1 1 0 0 1\n",
            ),
            ("four counts", case!("1 1 0 0\n")),
            ("two spaces", case!("1 1  0 0 1\n")),
            ("a count with a leading zero", case!("1 1 00 0 1\n")),
            ("a torn line 2 out of range", case!("1 1 0 0 99")),
        ],
    );
}

// 5, and 4 on line 3.
fn try_counts(rt: &impl Print) {
    show_all(
        rt,
        &[
            ("no vertex", case!("1 0 0 0 1\n")),
            ("no worker", case!("1 1 0 0 0\n")),
            ("the source not below vertices", case!("1 1 0 1 1\n")),
            ("5 before a torn line 3", case!("1 0 0 0 1\nvertex acc")),
            (
                "another name on line 3",
                case!("1 1 0 0 1\nvertex marked owner\n0 0 0\nfrom to\n"),
            ),
        ],
    );
}

// 6, and 4 on the lines up to the edge names.
fn try_vertex_lines(rt: &impl Print) {
    show_all(
        rt,
        &[
            (
                "a vertex out of order",
                case!("1 1 0 0 1\nvertex accepting owner\n1 0 0\nfrom to\n"),
            ),
            (
                "a wrong mark",
                case!("1 1 0 0 1\nvertex accepting owner\n0 2 0\nfrom to\n"),
            ),
            (
                "an owner too large",
                case!("1 1 0 0 1\nvertex accepting owner\n0 0 1\nfrom to\n"),
            ),
            (
                "6 before a missing line",
                case!("1 2 0 0 1\nvertex accepting owner\n0 0 1\n"),
            ),
            (
                "no edge names",
                case!("1 1 0 0 1\nvertex accepting owner\n0 0 0\n"),
            ),
        ],
    );
}

// 7, 8, and 4 on the lines after them.
fn try_edge_lines(rt: &impl Print) {
    show_all(
        rt,
        &[
            (
                "an end not below vertices",
                case!("1 1 1 0 1\nvertex accepting owner\n0 0 0\nfrom to\n0 1\n"),
            ),
            (
                "7 before 8",
                case!("1 2 2 0 1\nvertex accepting owner\n0 0 0\n1 0 0\nfrom to\n1 0\n0 2\n"),
            ),
            (
                "the same edge twice",
                case!("1 1 2 0 1\nvertex accepting owner\n0 0 0\nfrom to\n0 0\n0 0\n"),
            ),
            (
                "a falling edge",
                case!("1 2 2 0 1\nvertex accepting owner\n0 0 0\n1 0 0\nfrom to\n0 1\n0 0\n"),
            ),
            (
                "a torn last line out of range",
                case!("1 1 1 0 1\nvertex accepting owner\n0 0 0\nfrom to\n0 9"),
            ),
            (
                "an edge line too few",
                case!("1 1 1 0 1\nvertex accepting owner\n0 0 0\nfrom to\n"),
            ),
            (
                "a line after the last",
                case!("1 1 0 0 1\nvertex accepting owner\n0 0 0\nfrom to\n\n"),
            ),
        ],
    );
}

fn show_table(rt: &impl Print, name: &str, table: &[u32]) {
    let _ = print!(rt; "  {name}");
    for entry in table {
        let _ = print!(rt; " {entry}");
    }
    let _ = println!(rt; "");
}

// What a text puts into tables of four entries, all 9 before, and of two for the vertices that edges leave.
fn show_tables(rt: &impl Print, name: &str, text: &str) {
    let mut marks = [9; 4];
    let mut owners = [9; 4];
    let mut froms = [9; 2];
    let mut tos = [9; 4];
    let mut tables = CaseTables {
        marks: &mut marks,
        owners: &mut owners,
        froms: &mut froms,
        tos: &mut tos,
    };
    let judged = read_case(text.as_bytes(), &mut tables);
    show_judged(rt, name, judged);
    show_table(rt, "accepting", &marks);
    show_table(rt, "owner", &owners);
    show_table(rt, "from", &froms);
    show_table(rt, "to", &tos);
}

// Tables up to the first fault, and as far as they have room.
fn try_tables(rt: &impl Print) {
    for (name, text) in [
        ("K1 in tables", K1),
        (
            "K1 in tables, with a wrong mark on its second vertex line",
            case!(
                "1 3 3 0 2\nvertex accepting owner\n0 0 0\n1 2 1\n2 0 0\nfrom to\n0 1\n1 2\n2 1\n"
            ),
        ),
        (
            "K1 in tables, with its last edge before the others",
            case!(
                "1 3 3 0 2\nvertex accepting owner\n0 0 0\n1 1 1\n2 0 0\nfrom to\n2 1\n0 1\n1 2\n"
            ),
        ),
    ] {
        show_tables(rt, name, text);
    }
}

fn main(rt: HostRuntime) -> io::Result<()> {
    try_sizes(&rt)?;
    try_lengths(&rt)?;
    try_versions(&rt);
    try_layouts(&rt);
    try_counts(&rt);
    try_vertex_lines(&rt);
    try_edge_lines(&rt);
    try_tables(&rt);
    Ok(())
}
