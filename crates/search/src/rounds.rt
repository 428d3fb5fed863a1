// Runs by rounds. When a round begins no cell has a message, so only the edges of the vertices scanned in it can get one:
// a round does every turn, then the deliveries on the edges of these vertices, in number order.
ghost use Rattle.std.specs.Prelude.{◌<◌, length};
ghost use Rattle.search.specs.Asks.{Inserted, TurnsAsk, TurnsSay, EdgesAsk, EdgesSay, SweepAsks, SweepSays, RoundSays, RoundsAsk, RoundsDone, ByRoundsAsks, ByRoundsSays};

use super::cells::{self, QUEUE_END, QUEUED, load_below};
use super::run::Run;
use casefile::Case;

// Puts h into its place among the first `many` numbers of a list, which rise; those behind it move up by one.
pub(crate) fn insert(list: &mut [usize], many: usize, h: usize)
    requires { many < length list.old }
    ensures { Inserted many h list.old list.new }
{
    for i in (0..many).rev() {
        if list[i] < h {
            list[i + 1] = h;
            return;
        }
        list[i + 1] = list[i];
    }
    list[0] = h;
}

impl Run {
    // Every turn by worker number. The vertices that are scanned, coded as a queue's head, stand in rising order at the
    // front of `heads`. Gives how many they are.
    fn turns(&mut self, work: &mut [i32], p: usize, heads: &mut [usize]) -> usize
        requires { TurnsAsk p self.old work.old (length heads.old) }
        ensures { TurnsSay p self.old self.new result work.old work.new heads.new }
    {
        let mut scanned: usize = 0;
        for w in 0..p {
            let head = load_below(work, cells::HEAD + w, Case::MOST_VERTICES + QUEUED);
            if head == QUEUE_END {
                continue;
            }
            self.act(work, w, p);
            insert(heads, scanned, head);
            scanned += 1;
        }
        scanned
    }

    // Every delivery on the edges of a vertex, by edge number.
    fn deliver_edges(&mut self, work: &mut [i32], v: usize, p: usize)
        requires { EdgesAsk v p self.old work.old }
        ensures { EdgesSay v p self.old self.new work.old work.new }
    {
        let end = load_below(work, cells::FIRST + (v + 1), Case::MOST_EDGES + 1);
        let first = load_below(work, cells::FIRST + v, Case::MOST_EDGES + 1);
        for e in first..end {
            if self.broken.is_some() {
                return;
            }
            self.deliver(work, e);
        }
    }

    // Every delivery by edge number, where only edges of the vertices in `heads` have messages: those vertices in rising
    // order, until no cell has a message.
    fn sweep(&mut self, work: &mut [i32], p: usize, heads: &[usize])
        requires { SweepAsks p heads.now self.old work.old }
        ensures { SweepSays p heads.now self.old self.new work.old work.new }
    {
        for head in heads {
            if self.none_full() {
                return;
            }
            self.deliver_edges(work, *head - QUEUED, p);
        }
    }

    // A round. The list for the vertices that it scans is lent. Gives how many they are.
    fn round(&mut self, work: &mut [i32], p: usize, heads: &mut [usize]) -> usize
        requires { TurnsAsk p self.old work.old (length heads.old) }
        ensures { RoundSays p self.old self.new result work.old work.new (length heads.old) }
    {
        let scanned = self.turns(work, p, heads);
        self.sweep(work, p, &heads[..scanned]);
        scanned
    }

    // Rounds, at most so many, to the end of the run: the floor is broken, or a round had nothing to scan.
    fn rounds(&mut self, work: &mut [i32], many: usize, p: usize)
        requires { RoundsAsk p self.old work.old }
        ensures { RoundsDone many p self.old self.new work.old work.new }
    {
        let mut heads = [0usize; Case::MOST_WORKERS];
        for _ in 0..many {
            if self.broken.is_some() {
                return;
            }
            let scanned = self.round(work, p, &mut heads);
            if scanned == 0 {
                return;
            }
        }
    }

    // The run by rounds, from a fresh run: most acts are (n + m) × (A + 1), so that many rounds reach the end.
    pub(crate) fn run_by_rounds(&mut self, work: &mut [i32], p: usize, n: usize, m: usize)
        requires { ByRoundsAsks p n m self.old work.old }
        ensures { ByRoundsSays p n m self.old self.new work.old work.new }
    {
        let many = (n + m) * (self.marks as usize + 1);
        self.rounds(work, many, p);
    }
}
