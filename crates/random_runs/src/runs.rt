// One run, held to the nested search's verdict, to the checker and, where it is empty, to the graph's one answer.
use bench_kit::buffers::{CELL, MARK, all_are, front, untouched};
use checker::check_answer;
use model::{Outcome, Refusal, Verdict};
use search::{run_list, run_rounds};
use std::alloc::{AllocError, Global};

// What came of a run.
#[derive(Clone, Copy, Debug, PartialEq, Eq)]
pub(crate) enum Came {
    Right(Verdict),
    CutShort,
    Mismatch,
}

// What the checker says of an answer that is not as a run wrote it.
#[derive(Clone, Copy, Debug, PartialEq, Eq)]
pub(crate) enum Said {
    Refused,
    Passed,
    Mismatch,
}

// The least output and the least work buffer that a run takes.
const OUTPUT: usize = 8192;

const WORK: usize = 16384;

// Where an answer has its version.
const VERSION_AT: usize = 35;

// A case, what the search must find in it, and its answer by rounds with one worker.
#[derive(Clone, Copy)]
pub(crate) struct Trial<'a> {
    pub case: &'a [u8],
    pub want: Verdict,
    pub one: &'a [u8],
}

// An entry tells refusal and verdict by their numbers, as C gets them.
// Whether no more messages are delivered and joined than sent, and all that were sent where none waits any more.
fn tallies_right(o: Outcome) -> bool {
    let gone = u64::from(o.delivered) + u64::from(o.joined);
    let sent = u64::from(o.sent);
    if o.verdict == Outcome::EMPTY {
        return gone == sent;
    }
    gone <= sent
}

// The answer with one byte written anew.
fn changed(alloc: Global, answer: &[u8], at: usize, byte: u8) -> Result<Vec<u8>, AllocError> {
    let mut copy = answer.to_vec(alloc)?;
    if let Some(old) = copy.get_mut(at) {
        *old = byte;
    }
    Ok(copy)
}

// The answer by rounds.
pub(crate) fn answer(alloc: Global, case: &[u8]) -> Result<Vec<u8>, AllocError> {
    let mut output = [MARK; OUTPUT];
    let mut work = [CELL; WORK];
    let o = run_rounds(case, &mut output, &mut work);
    front(&output, o.written as usize).to_vec(alloc)
}

impl Trial<'_> {
    // Whether an answer passes with the verdict and, where that is empty, is the graph's one answer.
    fn is_right(self, answer: &[u8]) -> bool {
        check_answer(self.case, answer).verdict == self.want.number()
            && (self.want == Verdict::Lasso || answer == self.one)
    }

    // What came of a run.
    fn judged(self, o: Outcome, output: &[u8], work: &[i32]) -> Came {
        let written = o.written as usize;
        if !all_are(work, 0) || !untouched(output, written) || !tallies_right(o) {
            return Came::Mismatch;
        }
        if o.refusal == Refusal::Unended.number() && o.verdict == Outcome::NONE && written == 0 {
            return Came::CutShort;
        }
        if o.refusal == 0
            && o.verdict == self.want.number()
            && self.is_right(front(output, written))
        {
            return Came::Right(self.want);
        }
        Came::Mismatch
    }

    pub(crate) fn by_rounds(self) -> Came {
        let mut output = [MARK; OUTPUT];
        let mut work = [CELL; WORK];
        let o = run_rounds(self.case, &mut output, &mut work);
        if o.joined != 0 {
            return Came::Mismatch;
        }
        self.judged(o, &output, &work)
    }

    // By a list, and whether a message joined in it.
    pub(crate) fn by_list(self, acts: &[u32]) -> (Came, bool) {
        let mut output = [MARK; OUTPUT];
        let mut work = [CELL; WORK];
        let o = run_list(self.case, acts, &mut output, &mut work);
        (self.judged(o, &output, &work), o.joined != 0)
    }

    // What the checker says of the answer with one byte written anew: never the other verdict.
    pub(crate) fn damaged(self, alloc: Global, at: usize, byte: u8) -> Result<Said, AllocError> {
        let copy = changed(alloc, self.one, at, byte)?;
        let c = check_answer(self.case, &copy);
        Ok(if c.verdict == Outcome::NONE {
            Said::Refused
        } else if c.verdict == self.want.number() {
            Said::Passed
        } else {
            Said::Mismatch
        })
    }

    // What it says of the answer as one of version 1, which means the graph as the file has it, with the verdict `old`: never
    // another one, and 13 only for a lasso, which may need a rest loop.
    pub(crate) fn as_version_1(self, alloc: Global, old: Verdict) -> Result<Said, AllocError> {
        let copy = changed(alloc, self.one, VERSION_AT, b'1')?;
        let c = check_answer(self.case, &copy);
        Ok(if c.refusal == Refusal::NotShown.number() && self.want == Verdict::Lasso {
            Said::Refused
        } else if c.verdict == old.number() {
            Said::Passed
        } else {
            Said::Mismatch
        })
    }
}
