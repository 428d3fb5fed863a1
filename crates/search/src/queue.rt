// The workers' queues of vertices, by links between cells: a vertex joins at the tail, the head leaves. How the links
// are coded is in specs/Rep.antt.
ghost use Rattle.search.specs.Asks.{PushAsks, PushSays, PopAsks, PopSays, QueuesAsk, QueuesSay};

use super::cells::{self, NOT_QUEUED, QUEUE_END, QUEUED, load_below, store_number};
use casefile::Case;

// A vertex joins the tail of its owner's queue unless it is there.
pub(crate) fn push(work: &mut [i32], v: usize)
    requires { PushAsks v work.old }
    ensures { PushSays v work.old work.new }
{
    let next = load_below(work, cells::LINK + v, Case::MOST_VERTICES + QUEUED);
    if next != NOT_QUEUED {
        return;
    }
    let p = load_below(work, cells::OWNER + v, Case::MOST_WORKERS);
    let head = load_below(work, cells::HEAD + p, Case::MOST_VERTICES + QUEUED);
    if head == QUEUE_END {
        store_number(work, cells::LINK + v, QUEUE_END);
        store_number(work, cells::HEAD + p, v + QUEUED);
        store_number(work, cells::TAIL + p, v);
        return;
    }
    let tail = load_below(work, cells::TAIL + p, Case::MOST_VERTICES);
    store_number(work, cells::LINK + tail, v + QUEUED);
    store_number(work, cells::LINK + v, QUEUE_END);
    store_number(work, cells::TAIL + p, v);
}

// The head v of the queue of worker p leaves it.
pub(crate) fn pop(work: &mut [i32], p: usize, v: usize)
    requires { PopAsks p v work.old }
    ensures { PopSays p v work.old work.new }
{
    let next = load_below(work, cells::LINK + v, Case::MOST_VERTICES + QUEUED);
    store_number(work, cells::HEAD + p, next);
    store_number(work, cells::LINK + v, NOT_QUEUED);
}

// Whether no queue of P workers has a vertex.
pub(crate) fn none_queued(work: &[i32], p: usize) -> bool
    requires { QueuesAsk p work.now }
    ensures { QueuesSay p result work.now }
{
    for w in 0..p {
        let head = load_below(work, cells::HEAD + w, Case::MOST_VERTICES + QUEUED);
        if head != QUEUE_END {
            return false;
        }
    }
    true
}
