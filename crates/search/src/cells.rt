// The lent work cells: where each table stands, and loads and stores of single cells. All casts between cells and
// indices are here. Contracts cite specs/Cells.antt.
ghost use Rattle.std.specs.Prelude.{◌≡◌, ◌+◌, ◌<◌, ◌≤◌, ◌^◌, pos, length, get_or, set};
ghost use Rattle.search.specs.Cells.{Below, Filled};
ghost use Rattle.model.specs.Entry.{zeros};

use casefile::Case;

// The case, written once: by vertex its mark and owner; by edge its ends, rest loops included; by vertex its first file
// edge, and one more for the end; by vertex the number of its rest loop, if it has one.
pub(crate) const ACCEPTING: usize = 0;

pub(crate) const OWNER: usize = ACCEPTING + Case::MOST_VERTICES;

pub(crate) const FROM: usize = OWNER + Case::MOST_VERTICES;

pub(crate) const TO: usize = FROM + Case::MOST_RUN_EDGES;

pub(crate) const FIRST: usize = TO + Case::MOST_RUN_EDGES;

pub(crate) const REST: usize = FIRST + Case::MOST_VERTICES + 1;

// The run: by vertex its distance, parent edge and queue link; by file edge its message; by worker its queue's head and
// tail.
pub(crate) const DISTANCE: usize = REST + Case::MOST_VERTICES;

pub(crate) const PARENT: usize = DISTANCE + Case::MOST_VERTICES;

pub(crate) const LINK: usize = PARENT + Case::MOST_VERTICES;

pub(crate) const MESSAGE: usize = LINK + Case::MOST_VERTICES;

pub(crate) const HEAD: usize = MESSAGE + Case::MOST_EDGES;

pub(crate) const TAIL: usize = HEAD + Case::MOST_WORKERS;

// Scratch: the breadth-first search's first edges and its queue; stem and cycle.
pub(crate) const FOUND: usize = TAIL + Case::MOST_WORKERS;

pub(crate) const QUEUE: usize = FOUND + Case::MOST_VERTICES;

pub(crate) const STEM: usize = QUEUE + Case::MOST_VERTICES;

pub(crate) const CYCLE: usize = STEM + Case::MOST_VERTICES;

// How the lent cells, which are signed numbers for every caller, code what may be missing (specs/Cells.antt,
// specs/Rep.antt). A distance or a message that is not there is above every one that is.
pub(crate) const NO_DISTANCE: usize = 1;

// A parent edge: NONE, or its number and SOME.
pub(crate) const NONE: usize = 0;

pub(crate) const SOME: usize = 1;

// A vertex's link: NOT_QUEUED, or QUEUE_END, or the next vertex and QUEUED. A worker's head: QUEUE_END, or the first
// vertex and QUEUED.
pub(crate) const NOT_QUEUED: usize = 0;

pub(crate) const QUEUE_END: usize = 1;

pub(crate) const QUEUED: usize = 2;

// How the search for the stem found a vertex: NOT_FOUND, or AT_SOURCE, or the edge that found it and BY_EDGE.
pub(crate) const NOT_FOUND: usize = 0;

pub(crate) const AT_SOURCE: usize = 1;

pub(crate) const BY_EDGE: usize = 2;

// The signed number in a cell.
pub(crate) fn load(work: &[i32], i: usize) -> i32
    requires { i < length work.now }
    ensures { result ≡ get_or work.now i (pos 0) }
{
    work[i]
}

// The number in a cell that is known to hold one below a limit.
pub(crate) fn load_below(work: &[i32], i: usize, limit: usize) -> usize
    requires { (i < length work.now) × Below limit (get_or work.now i (pos 0)) }
    ensures { (get_or work.now i (pos 0) ≡ pos result) × (result < limit) }
{
    work[i] as usize
}

// Puts a signed number into a cell.
pub(crate) fn store(work: &mut [i32], i: usize, z: i32)
    requires { i < length work.old }
    ensures { work.new ≡ set work.old i z }
{
    work[i] = z;
}

// Puts a number into a cell, below a limit, which a signed number needs none of. Over a trait the two would be a trait, two impls
// and this function.
pub(crate) fn store_number(work: &mut [i32], i: usize, v: usize)
    requires { (i < length work.old) × (v < 2 ^ 31) }
    ensures { work.new ≡ set work.old i (pos v) }
{
    work[i] = v as i32;
}

// Puts one number into each of `count` cells from `at` on.
pub(crate) fn fill(work: &mut [i32], at: usize, count: usize, v: usize)
    requires { (at + count ≤ length work.old) × (v < 2 ^ 31) }
    ensures { Filled at count (pos v) work.old work.new }
{
    work[at..at + count].fill(v as i32);
}

// Makes every cell 0.
pub(crate) fn clear(work: &mut [i32])
    ensures { work.new ≡ zeros work.old }
{
    work.fill(0);
}
