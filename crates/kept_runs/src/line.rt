// One run, one line: an entry is called on marked buffers, and a line says what came back and whether it is what must come.
use bench_kit::buffers::{CELL, MARK, all_are, front, untouched};
use checker::check_answer;
use model::{Checked, Outcome, Refusal, Verdict};
use search::{run_list, run_rounds};
use std::alloc::Global;
use std::fmt::Write;
use std::{fmt, io};

// The longest answer that is printed.
const SHORT: usize = 100;

// What must come of a run, beside its answer.
#[derive(Clone, Copy)]
pub(crate) struct Wanted {
    end: Result<Verdict, Refusal>,
    acts: u64,
    sent: u32,
    delivered: u32,
    joined: u32,
}

impl Wanted {
    // A run without a message.
    fn silent(end: Result<Verdict, Refusal>, acts: u64) -> Wanted {
        Wanted {
            end,
            acts,
            sent: 0,
            delivered: 0,
            joined: 0,
        }
    }

    pub(crate) fn lasso(acts: u64) -> Wanted {
        Wanted::silent(Ok(Verdict::Lasso), acts)
    }

    pub(crate) fn empty(acts: u64) -> Wanted {
        Wanted::silent(Ok(Verdict::Empty), acts)
    }

    pub(crate) fn cut_short(acts: u64) -> Wanted {
        Wanted::silent(Err(Refusal::Unended), acts)
    }

    pub(crate) fn refused(refusal: Refusal) -> Wanted {
        Wanted::silent(Err(refusal), 0)
    }

    // The same with messages.
    pub(crate) fn tallied(self, sent: u32, delivered: u32, joined: u32) -> Wanted {
        Wanted {
            sent,
            delivered,
            joined,
            ..self
        }
    }

    // Whether it came, but for the answer.
    fn is(self, o: Outcome) -> bool {
        let end = Checked::from(self.end);
        o.refusal == end.refusal
            && o.verdict == end.verdict
            && o.acts == self.acts
            && o.sent == self.sent
            && o.delivered == self.delivered
            && o.joined == self.joined
    }

    // Zeros after a result and after 10; as lent after any other refusal.
    fn work(self) -> Work {
        match self.end {
            Ok(_) | Err(Refusal::Unended) => Work::Zeros,
            Err(_) => Work::Untouched,
        }
    }
}

// A run by a list of acts, or by rounds where there is none, what must come of it, and its answer.
#[derive(Clone, Copy)]
pub(crate) struct Run<'a> {
    name: &'a str,
    case: &'a str,
    acts: Option<&'a [u32]>,
    wanted: Wanted,
    answer: &'a str,
}

impl<'a> Run<'a> {
    pub(crate) fn by_rounds(
        name: &'a str,
        case: &'a str,
        wanted: Wanted,
        answer: &'a str,
    ) -> Run<'a> {
        Run {
            name,
            case,
            acts: None,
            wanted,
            answer,
        }
    }

    pub(crate) fn by_list(
        name: &'a str,
        case: &'a str,
        acts: &'a [u32],
        wanted: Wanted,
        answer: &'a str,
    ) -> Run<'a> {
        Run {
            name,
            case,
            acts: Some(acts),
            wanted,
            answer,
        }
    }
}

// What a run left in the work buffer.
#[derive(Clone, Copy, PartialEq, Eq)]
enum Work {
    Zeros,
    Untouched,
    Mixed,
}

impl Work {
    fn left_in(work: &[i32]) -> Work {
        if all_are(work, 0) {
            Work::Zeros
        } else if all_are(work, CELL) {
            Work::Untouched
        } else {
            Work::Mixed
        }
    }
}

impl fmt::Display for Work {
    fn fmt<W: Write>(&self, f: &mut fmt::Formatter<W>) -> fmt::Result {
        match self {
            Work::Zeros => write!(f, ", work zeros"),
            Work::Untouched => write!(f, ", work untouched"),
            Work::Mixed => write!(f, ", work mixed"),
        }
    }
}

// The name of a verdict, which an entry tells by its number.
fn verdict_name(verdict: u32) -> &'static str {
    match verdict {
        Outcome::NONE => "none",
        Outcome::LASSO => "lasso",
        Outcome::EMPTY => "empty",
        _ => "unknown",
    }
}

// An outcome as a line has it.
#[derive(Clone, Copy)]
struct Told(Outcome);

impl fmt::Display for Told {
    fn fmt<W: Write>(&self, f: &mut fmt::Formatter<W>) -> fmt::Result {
        let o = self.0;
        let verdict = verdict_name(o.verdict);
        write!(f, ": refusal {}, {verdict}, acts {}", o.refusal, o.acts)?;
        write!(f, ", sent {}, delivered {}", o.sent, o.delivered)?;
        write!(f, ", joined {}, written {}", o.joined, o.written)
    }
}

// Standard output by pieces of a line. Where it does not take one, standard error says so (not of a number), and the line
// goes on.
#[derive(Drop)]
pub(crate) struct Pieces<'r, R> {
    rt: &'r R,
}

impl<R: Print + Eprint> Pieces<'_, R> {
    fn piece(&self, piece: &[u8]) {
        let rt = self.rt;
        if rt.write_all(piece).is_err() && !piece.iter().all(u8::is_ascii_digit) {
            let _ = eprintln!(rt; "standard output: not written");
        }
    }
}

impl<R: Print + Eprint> Write for Pieces<'_, R> {
    fn write_str(&mut self, piece: &str) -> fmt::Result {
        self.piece(piece.as_bytes());
        Ok(())
    }
}

// The lines printed so far, by how many runs were wrong.
#[derive(Drop)]
pub(crate) struct Lines<'r, R> {
    rt: &'r R,
    pub wrong: u32,
}

impl<'r, R: Print + Eprint + AllocGlobal> Lines<'r, R> {
    pub(crate) fn new(rt: &'r R) -> Lines<'r, R> {
        Lines { rt, wrong: 0 }
    }

    pub(crate) fn alloc(&self) -> Global {
        self.rt.alloc()
    }

    pub(crate) fn out(&self) -> Pieces<'r, R> {
        Pieces { rt: self.rt }
    }

    // A line's end.
    fn end(&mut self, right: bool) {
        if right {
            self.out().piece(b": right\n");
            return;
        }
        self.wrong = self.wrong.saturating_add(1);
        self.out().piece(b": wrong\n");
    }

    // What the checker says of an answer: its verdict, none where nothing was written.
    fn checked(&self, case: &str, answer: &[u8]) -> u32 {
        if answer.is_empty() {
            return Outcome::NONE;
        }
        let verdict = check_answer(case.as_bytes(), answer).verdict;
        let _ = write!(self.out(), ", checker {}", verdict_name(verdict));
        verdict
    }

    // A run's line: its outcome, what the buffers hold, what the checker says, and whether all of it is what must come.
    fn tell(&mut self, run: &Run, o: Outcome, output: &[u8], work: &[i32]) {
        let answer = front(output, o.written as usize);
        let kept = untouched(output, o.written as usize);
        let rest = if kept {
            ", rest untouched"
        } else {
            ", rest touched"
        };
        let left = Work::left_in(work);
        let _ = write!(self.out(), "{}{}{left}{rest}", run.name, Told(o));
        let passed = self.checked(run.case, answer) == Checked::from(run.wanted.end).verdict;
        let buffers = kept && left == run.wanted.work();
        self.end(run.wanted.is(o) && answer == run.answer.as_bytes() && passed && buffers);
        if answer.len() <= SHORT {
            self.out().piece(answer);
        }
    }

    // A run in buffers of so many bytes and cells.
    pub(crate) fn run_in(&mut self, run: &Run, bytes: usize, cells: usize) -> io::Result<()> {
        let alloc = self.alloc();
        let mut output = vec![in alloc; MARK; bytes]?;
        let mut work = vec![in alloc; CELL; cells]?;
        let case = run.case.as_bytes();
        let o = match run.acts {
            Some(acts) => run_list(case, acts, &mut output, &mut work),
            None => run_rounds(case, &mut output, &mut work),
        };
        self.tell(run, o, &output, &work);
        Ok(())
    }

    // Runs in buffers a little longer than they must be.
    pub(crate) fn runs(&mut self, runs: &[Run]) -> io::Result<()> {
        for run in runs {
            self.run_in(run, 8200, 16400)?;
        }
        Ok(())
    }

    // An answer put to the checker.
    pub(crate) fn check(
        &mut self,
        name: &str,
        case: &str,
        answer: &str,
        wanted: Result<Verdict, Refusal>,
    ) {
        let Checked { refusal, verdict } = check_answer(case.as_bytes(), answer.as_bytes());
        let _ = write!(
            self.out(),
            "{name}: refusal {refusal}, {}",
            verdict_name(verdict)
        );
        let wanted = Checked::from(wanted);
        self.end(refusal == wanted.refusal && verdict == wanted.verdict);
    }

    // Answers to one case, each with its name and what must come.
    pub(crate) fn checks(
        &mut self,
        case: &str,
        answers: &[(&str, &str, Result<Verdict, Refusal>)],
    ) {
        for &(name, answer, wanted) in answers {
            self.check(name, case, answer, wanted);
        }
    }
}
