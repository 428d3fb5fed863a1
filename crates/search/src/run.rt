// A run of the search in the lent cells: offers, scans, turns, deliveries and acts. A distance is its signed number; each
// function keeps the cells and the counters equal to a run of the model (specs/Rep.antt).
ghost use Rattle.std.specs.Prelude.{◌≡◌, ◌+◌, ◌<◌, ◌≤◌, ◌^◌, pos, neg_ℤ, length};
ghost use Rattle.std.specs.Int.Signed.{lt_z};
ghost use Rattle.model.specs.Case.{most_vertices, least_work};
ghost use Rattle.search.specs.Cells.{message_at};
ghost use Rattle.search.specs.Asks.{PutSays, OfferAsks, SendAsks, SendSays, RelaxSays, EdgeSays, ScanAsks, ScanSays, none_waits, OverAsks, OverSays, TurnAsks, TurnSays, DeliverAsks, DeliverSays, ActAsks, ActSays, LengthIs, OfferedAsks, OfferedIs, BlankSays, FreshAsks, FreshSays, ListAsks, ListDone};

use super::cells::{
    self, NO_DISTANCE, NONE, NOT_QUEUED, QUEUE_END, QUEUED, SOME, fill, load, load_below, store,
    store_number,
};
use super::edges::edges_of;
use super::queue::{none_queued, pop, push};
use casefile::Case;

// What a run counts: turns of a worker that had a vertex; offers put into cells, messages delivered, offers that joined a
// waiting message; accepting vertices; and the vertex that broke the floor. What these and the cells tell has no
// counter: acts are turns and deliveries, the tallies tell how many cells have a message (`none_full`),
// and a run has ended as "empty" when nothing waits (`is_over`).
#[derive(Clone, Copy)]
pub(crate) struct Run {
    pub turns: u64,
    pub sent: u32,
    pub delivered: u32,
    pub joined: u32,
    pub marks: u32,
    pub broken: Option<u32>,
}

impl Run {
    // The fresh run of a case that stands in the cells: the source has distance 0 and waits in its owner's queue; all else is
    // without distance, parent or message.
    pub(crate) fn fresh(work: &mut [i32], source: usize, marks: usize) -> Run
        requires { FreshAsks source marks work.old }
        ensures { FreshSays source marks result work.old work.new }
    {
        blank(work);
        store_number(work, cells::DISTANCE + source, 0);
        push(work, source);
        Run {
            turns: 0,
            sent: 0,
            delivered: 0,
            joined: 0,
            marks: marks as u32,
            broken: None,
        }
    }

    // Sends an offer along an edge: it is counted, and so is whether it joins.
    fn send(&mut self, work: &mut [i32], e: usize, d: i32)
        requires { SendAsks e d self.old work.old }
        ensures { SendSays e d self.old self.new work.old work.new }
    {
        let joined = put_offer(work, e, d);
        self.sent += 1;
        if joined {
            self.joined += 1;
        }
    }

    // The target of an edge takes an offer that is lower than its distance.
    fn relax(&mut self, work: &mut [i32], e: usize, d: i32)
        requires { OfferAsks e d self.old work.old }
        ensures { RelaxSays e d self.old self.new work.old work.new }
    {
        let v = load_below(work, cells::TO + e, Case::MOST_VERTICES);
        let old = load(work, cells::DISTANCE + v);
        if lower(d, old) {
            store(work, cells::DISTANCE + v, d);
            store_number(work, cells::PARENT + v, e + SOME);
            push(work, v);
            if below_floor(d, self.marks as usize) {
                self.broken = Some(v as u32);
            }
        }
    }

    // One edge of a scan: an edge to the same owner is relaxed on the spot, any other gets a message.
    fn scan_edge(&mut self, work: &mut [i32], e: usize, own: usize, d: i32)
        requires { SendAsks e d self.old work.old }
        ensures { EdgeSays e own d self.old self.new work.old work.new }
    {
        let to = load_below(work, cells::TO + e, Case::MOST_VERTICES);
        let other = load_below(work, cells::OWNER + to, Case::MOST_WORKERS);
        if other == own {
            self.relax(work, e, d);
            return;
        }
        self.send(work, e, d);
    }

    // The edges of a vertex in number order, each offering the distance read at the start; nothing once the floor is broken.
    fn scan(&mut self, work: &mut [i32], v: usize, d: i32)
        requires { ScanAsks v d self.old work.old }
        ensures { ScanSays v d self.old self.new work.old work.new }
    {
        let own = load_below(work, cells::OWNER + v, Case::MOST_WORKERS);
        let offer = offered(work, v, d);
        let edges = edges_of(work, v);
        for e in edges.start..edges.end {
            if self.broken.is_some() {
                return;
            }
            self.scan_edge(work, e, own, offer);
        }
    }

    // Whether no cell has a message: each offer sent was delivered or joined another.
    pub(crate) fn none_full(self) -> bool
        requires { self.delivered ≤ self.sent }
        ensures { result ≡ none_waits self }
    {
        self.sent - self.delivered == self.joined
    }

    // How many acts did something: each was a turn or a delivery.
    pub(crate) fn acts_done(self) -> u64
        requires { self.turns + self.delivered < 2 ^ 64 }
        ensures { result ≡ self.turns + self.delivered }
    {
        self.turns + self.delivered as u64
    }

    // Whether a run has ended: as "lasso" once the floor is broken, as "empty" when nothing waits.
    pub(crate) fn is_over(self, work: &[i32], p: usize) -> bool
        requires { OverAsks p self work.now }
        ensures { OverSays p self result work.now }
    {
        if self.broken.is_some() {
            return true;
        }
        self.none_full() && none_queued(work, p)
    }

    // A turn of worker p: the head of its queue is taken off and scanned.
    fn turn(&mut self, work: &mut [i32], p: usize)
        requires { TurnAsks p self.old work.old }
        ensures { TurnSays p self.old self.new work.old work.new }
    {
        let head = load_below(work, cells::HEAD + p, Case::MOST_VERTICES + QUEUED);
        if head == QUEUE_END {
            return;
        }
        let v = head - QUEUED;
        pop(work, p, v);
        let d = load(work, cells::DISTANCE + v);
        self.scan(work, v, d);
        self.turns += 1;
    }

    // A delivery on edge e: its cell is emptied and the offer relaxed.
    pub(crate) fn deliver(&mut self, work: &mut [i32], e: usize)
        requires { DeliverAsks e self.old work.old }
        ensures { DeliverSays e self.old self.new work.old work.new }
    {
        let d = load(work, cells::MESSAGE + e);
        if missing(d) {
            return;
        }
        store_number(work, cells::MESSAGE + e, NO_DISTANCE);
        self.delivered += 1;
        self.relax(work, e, d);
    }

    // An act: turns by worker number, then deliveries by edge number. Nothing is done after the end: once the floor is
    // broken by this test, and in a run that ended as "empty" because every act is idle.
    pub(crate) fn act(&mut self, work: &mut [i32], a: usize, p: usize)
        requires { ActAsks a p self.old work.old }
        ensures { ActSays a p self.old self.new work.old work.new }
    {
        if self.broken.is_some() {
            return;
        }
        if a < p {
            self.turn(work, a);
            return;
        }
        self.deliver(work, a - p);
    }

    // A list of acts, each below P + m; those after the end are not done.
    pub(crate) fn act_list(&mut self, work: &mut [i32], acts: &[u32], p: usize)
        requires { ListAsks p acts.now self.old work.old }
        ensures { ListDone p acts.now self.old self.new work.old work.new }
    {
        for a in acts {
            self.act(work, *a as usize, p);
        }
    }
}

// Cells of a run without any distance, parent, place in a queue or message.
pub(crate) fn blank(work: &mut [i32])
    requires { least_work ≤ length work.old }
    ensures { BlankSays work.old work.new }
{
    fill(work, cells::DISTANCE, Case::MOST_VERTICES, NO_DISTANCE);
    fill(work, cells::PARENT, Case::MOST_VERTICES, NONE);
    fill(work, cells::LINK, Case::MOST_VERTICES, NOT_QUEUED);
    fill(work, cells::MESSAGE, Case::MOST_EDGES, NO_DISTANCE);
    fill(work, cells::HEAD, Case::MOST_WORKERS, QUEUE_END);
    fill(work, cells::TAIL, Case::MOST_WORKERS, 0);
}

// Whether a distance is below another. A function, since must-fail/late_offer_overwrites.edit spoils its call.
pub(crate) fn lower(a: i32, b: i32) -> bool
    ensures { result ≡ lt_z a b }
{
    a < b
}

// So far below 0.
pub(crate) fn negated(n: usize) -> i32
    requires { n ≤ most_vertices }
    ensures { result ≡ neg_ℤ (pos n) }
{
    -(n as i32)
}

// Whether a distance is below −A. A function, since must-fail/floor_at_A.edit spoils it.
pub(crate) fn below_floor(d: i32, marks: usize) -> bool
    requires { marks ≤ most_vertices }
    ensures { result ≡ lt_z d (neg_ℤ (pos marks)) }
{
    d < negated(marks)
}

// The length of an edge by the mark of the vertex that it leaves: −1 where that is accepting, else 0.
pub(crate) fn edge_length(mark: usize) -> i32
    requires { mark < 2 }
    ensures { LengthIs mark result }
{
    negated(mark)
}

// Whether a cell has no distance or message. A function, since must-fail/joined_for_fresh.edit spoils its call.
pub(crate) fn missing(d: i32) -> bool
    ensures { result ≡ lt_z (pos 0) d }
{
    0 < d
}

// Puts an offer into the cell of an edge: the lower of two remains. Whether it joined a message that waited there.
pub(crate) fn put_offer(work: &mut [i32], e: usize, d: i32) -> bool
    requires { message_at + e < length work.old }
    ensures { PutSays e d result work.old work.new }
{
    let waiting = load(work, cells::MESSAGE + e);
    store(work, cells::MESSAGE + e, waiting.min(d));
    !missing(waiting)
}

// What a vertex at this distance offers along each of its edges: that distance plus the edge's length.
pub(crate) fn offered(work: &[i32], v: usize, d: i32) -> i32
    requires { OfferedAsks v d work.now }
    ensures { OfferedIs v d result work.now }
{
    let length = edge_length(load_below(work, cells::ACCEPTING + v, 2));
    d + length
}
