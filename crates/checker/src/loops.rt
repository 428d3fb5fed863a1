// Rest loops: "each vertex with no outgoing edge gets a loop to itself, numbered after the file's edges in vertex order".
ghost use Rattle.std.specs.Prelude.{◌≤◌, length};
ghost use Rattle.checker.specs.Checking.{Room, Unmarked, Starts, RestedSays, MeantSays};

use crate::tables::cell;
use casefile::{Case, put};

// Marks each vertex that one of m edges leaves, as far as the table has room.
fn mark_starts(m: usize, froms: &[u32], starts: &mut [bool])
    requires { Unmarked starts.old }
    ensures { Starts m froms.now starts.new }
{
    for e in 0..m {
        let from = cell(froms, e);
        if from < starts.len() {
            starts[from] = true;
        }
    }
}

// Puts the loop of each vertex that is not marked behind the edges: how many there are then.
fn add_loops(case: Case, starts: &[bool], froms: &mut [u32], tos: &mut [u32]) -> usize
    requires { Room case.vertices case.edges froms.old tos.old × Starts case.edges froms.old starts.now × (case.vertices ≤ length starts.now) }
    ensures { RestedSays case.vertices case.edges froms.old froms.new tos.old tos.new result }
{
    let mut k = case.edges;
    for v in 0..case.vertices {
        if starts[v] {
            continue;
        }
        put(froms, k, v as u32);
        put(tos, k, v as u32);
        k += 1;
    }
    k
}

// Puts the rest loops of a case behind its edges: how many there are then.
fn rest_loops(case: Case, froms: &mut [u32], tos: &mut [u32]) -> usize
    requires { Room case.vertices case.edges froms.old tos.old }
    ensures { RestedSays case.vertices case.edges froms.old froms.new tos.old tos.new result }
{
    let mut starts = [false; Case::MOST_VERTICES];
    mark_starts(case.edges, froms, &mut starts);
    add_loops(case, &starts, froms, tos)
}

// The case that an answer of this version is judged against: "the checker judges version 1 answers by the old meaning".
pub(crate) fn meant(version: u32, case: Case, froms: &mut [u32], tos: &mut [u32]) -> Case
    requires { Room case.vertices case.edges froms.old tos.old }
    ensures { MeantSays version case froms.old froms.new tos.old tos.new result }
{
    if version != Case::ANSWER_VERSION {
        return case;
    }
    Case {
        edges: rest_loops(case, froms, tos),
        ..case
    }
}
