// The edges of a vertex: those of the file, or its rest loop where the file has none. Contracts cite specs/Asks.antt.
ghost use Rattle.search.specs.Asks.{RangeAsks, RangeSays};

use super::cells::{self, load_below};
use casefile::Case;
use std::ops::Range;

pub(crate) fn edges_of(work: &[i32], v: usize) -> Range<usize>
    requires { RangeAsks v work.now }
    ensures { RangeSays v result work.now }
{
    let first = load_below(work, cells::FIRST + v, Case::MOST_EDGES + 1);
    let end = load_below(work, cells::FIRST + (v + 1), Case::MOST_EDGES + 1);
    if first < end {
        return first..end;
    }
    let rest = load_below(work, cells::REST + v, Case::MOST_RUN_EDGES);
    rest..rest + 1
}
