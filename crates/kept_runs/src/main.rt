// The bench runs that the rules keep, by program, and what stands beside them: a line for each run, with what came back
// and whether it is what must come. The file stdout has what must come.
//
// The rules' words, and the lines that run them:
//   the table, "K3 to K6 have one worker and source 0"    K1 to K11
//   "runs go by rounds where no acts are named"           the same; whole rounds as a list: K1, .. rounds
//   "500 and 501 vertices"        500 vertices; 16 workers, 500 vertices; the same, ..; 501 vertices
//   "2,000 and 2,001 edges"       2,000 edges ..; 16 workers, 2,000 edges; 2,001 edges
//   "16 and 17 workers"           16 workers, ..; 17 workers
//   "65,536 and 65,537 bytes"     65,536 bytes ..; 65,537 bytes ..; check, case of ..; check, answer of ..
//   "an empty file (2)"           empty file ..; check, empty case; an empty answer (12)
//   "Who can cause which number"  beside these 6: K1, owner 2; 7: K1, edge to 3; 9: K1, .. act 5 ..; 10: K7, K9,
//                                 K1, the one act 0; 11: 8,191 bytes ..; 16,383 cells; 13: check K1, K2's answer
//   "Shortcuts that spoil a finding"   K2; K1, the one act 0; late higher offer; accepting on the stem only; source
//                                 with a parent
//   "each vertex with no outgoing edge gets a loop to itself, numbered after the file's edges in vertex order"
//                                 K4; K6; D ..; a cycle and an accepting dead end; 2,000 edges ..; 500 vertices, no edge ..
//   "Act numbers still cover file edges only"             D, the one act 2
//   "the checker judges version 1 answers by the old meaning"   check K4, ..; check D, ..; check, dead end out of reach ..
#![tactic(auto)]

mod answers;
mod kept;
mod limits;
mod line;
mod rests;
mod rules;
mod sizes;
mod versions;

use line::Lines;
use std::fmt::Write;
use std::io;

fn main(rt: HostRuntime) -> io::Result<()> {
    let mut lines = Lines::new(&rt);
    kept::table(&mut lines)?;
    rules::refusals_and_lists(&mut lines)?;
    rules::shortcuts(&mut lines)?;
    rests::dead_ends(&mut lines)?;
    limits::buffers(&mut lines)?;
    limits::counts(&mut lines)?;
    limits::past_counts(&mut lines)?;
    limits::lengths(&mut lines)?;
    answers::checker_cases(&mut lines)?;
    answers::checker_lengths(&mut lines)?;
    answers::checker_edges(&mut lines)?;
    versions::by_version(&mut lines);
    let _ = write!(lines.out(), "wrong runs: {}\n", lines.wrong);
    Ok(())
}
