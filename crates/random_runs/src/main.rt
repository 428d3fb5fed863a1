// Random graphs against a plain nested search: each by rounds and by random lists of acts, with several numbers of
// workers, every answer put to the checker, one also as version 1, the tallies summed up. It prints totals; the file stdout
// has what must come.
#![tactic(auto)]

ghost use Rattle.std.specs.Prelude.{◌≤◌};

mod draw;
mod nested;
mod runs;
mod totals;

use bench_kit::buffers::front;
use bench_kit::graph::Graph;
use draw::{Random, below};
use model::Verdict;
use runs::{Came, Trial};
use std::alloc::{AllocError, Global};
use std::io;
use totals::Totals;

// The first number of the sequence.
const SEED: u32 = 2463534242;

const GRAPHS: usize = 4000;

// How often each graph is given to workers.
const OWNERS: usize = 3;

// The longest list of acts; where it is tried, a shorter front of it ran out.
const ACTS: usize = 20000;

// How many edges a graph has; no more than there are pairs of 128 vertices.
fn count_edges(graph: &Graph) -> usize
    ensures { result ≤ 16384 }
{
    graph.edges.len().min(16384)
}

// What goes through all trials.
#[derive(Drop)]
struct Trials {
    alloc: Global,
    random: Random,
    totals: Totals,
}

// A digit, or any byte.
fn other_byte(x: u32) -> u8 {
    let rest = x / 2;
    if x % 2 == 0 {
        b'0' + (rest % 10) as u8
    } else {
        (rest % 256) as u8
    }
}

impl Trials {
    fn try_list(&mut self, trial: Trial, acts: &[u32]) -> Came {
        let (came, joined) = trial.by_list(acts);
        self.totals.count_list(came, joined);
        came
    }

    // A short list of acts below the limit and, where it runs out, a long one that begins with it. One number is passed over.
    fn try_lists(&mut self, trial: Trial, limit: usize) -> Result<(), AllocError> {
        let acts = draw::acts(self.alloc, &mut self.random, ACTS, limit)?;
        let short = front(&acts, below(self.random.last, 2000));
        if self.try_list(trial, short) == Came::CutShort {
            self.try_list(trial, &acts);
        }
        self.random.next();
        Ok(())
    }

    // The graph with its owners: by rounds, with a damaged answer, and by lists of acts.
    fn try_owned(&mut self, graph: &Graph, want: Verdict, one: &[u8]) -> Result<(), AllocError> {
        let text = graph.text(self.alloc)?;
        let trial = Trial {
            case: text.as_bytes(),
            want,
            one,
        };
        self.totals.by_rounds.count(trial.by_rounds());
        let at = below(self.random.last, one.len());
        let byte = other_byte(self.random.next());
        self.totals
            .damaged
            .count(trial.damaged(self.alloc, at, byte)?);
        self.try_lists(trial, graph.workers.saturating_add(count_edges(graph)))
    }

    // The graph with one worker, whose answer by rounds is tried too; that answer.
    fn try_alone(
        &mut self,
        graph: &Graph,
        want: Verdict,
        old: Verdict,
    ) -> Result<Vec<u8>, AllocError> {
        let text = graph.text(self.alloc)?;
        let one = runs::answer(self.alloc, text.as_bytes())?;
        let trial = Trial {
            case: text.as_bytes(),
            want,
            one: &one,
        };
        self.totals.by_rounds.count(trial.by_rounds());
        self.totals
            .version_1
            .count(trial.as_version_1(self.alloc, old)?);
        Ok(one)
    }

    // A graph drawn, and tried.
    fn try_random(&mut self) -> Result<(), AllocError> {
        let mut graph = draw::graph(self.alloc, &mut self.random)?;
        let want = nested::verdict(self.alloc, &graph, true)?;
        let old = nested::verdict(self.alloc, &graph, false)?;
        self.totals.count_graph(want, old);
        let one = self.try_alone(&graph, want, old)?;
        for _ in 0..OWNERS {
            draw::owners(&mut graph, &mut self.random);
            self.try_owned(&graph, want, &one)?;
        }
        Ok(())
    }
}

// All graphs; the totals.
fn try_all(alloc: Global) -> Result<Totals, AllocError> {
    let mut trials = Trials {
        alloc,
        random: Random { last: SEED },
        totals: Totals::default(),
    };
    for _ in 0..GRAPHS {
        trials.try_random()?;
    }
    Ok(trials.totals)
}

fn main(rt: HostRuntime) -> io::Result<()> {
    let totals = try_all(rt.alloc())?;
    let _ = print!(rt; "{totals}"); // where standard output takes nothing, there is no more to do
    Ok(())
}
