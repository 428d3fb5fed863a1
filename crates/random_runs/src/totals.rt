// What was counted, and how it is printed.
use crate::runs::{Came, Said};
use model::Verdict;
use std::fmt;

#[derive(Clone, Copy, Default)]
pub(crate) struct Runs {
    lasso: u32,
    empty: u32,
    cut_short: u32,
    mismatches: u32,
}

impl Runs {
    pub(crate) fn count(&mut self, came: Came) {
        let total = match came {
            Came::Right(Verdict::Lasso) => &mut self.lasso,
            Came::Right(Verdict::Empty) => &mut self.empty,
            Came::CutShort => &mut self.cut_short,
            Came::Mismatch => &mut self.mismatches,
        };
        *total = total.saturating_add(1);
    }
}

impl fmt::Display for Runs {
    fn fmt<W: fmt::Write>(&self, f: &mut fmt::Formatter<W>) -> fmt::Result {
        writeln!(f, "  lasso: {}", self.lasso)?;
        writeln!(f, "  empty: {}", self.empty)?;
        writeln!(f, "  refusal 10: {}", self.cut_short)?;
        writeln!(f, "  mismatches: {}", self.mismatches)
    }
}

// Of answers that are not as a run wrote them.
#[derive(Clone, Copy, Default)]
pub(crate) struct Answers {
    pub refused: u32,
    pub passed: u32,
    pub mismatches: u32,
}

impl Answers {
    pub(crate) fn count(&mut self, said: Said) {
        let total = match said {
            Said::Refused => &mut self.refused,
            Said::Passed => &mut self.passed,
            Said::Mismatch => &mut self.mismatches,
        };
        *total = total.saturating_add(1);
    }
}

#[derive(Clone, Copy, Default)]
pub(crate) struct Totals {
    with_lasso: u32,
    at_rest: u32,
    without: u32,
    pub by_rounds: Runs,
    pub by_lists: Runs,
    joined: u32,
    pub damaged: Answers,
    pub version_1: Answers,
}

impl Totals {
    // Counts a graph by its verdict, and if it has a lasso by rest loops alone.
    pub(crate) fn count_graph(&mut self, want: Verdict, old: Verdict) {
        let total = match want {
            Verdict::Lasso => &mut self.with_lasso,
            Verdict::Empty => &mut self.without,
        };
        *total = total.saturating_add(1);
        if want != old {
            self.at_rest = self.at_rest.saturating_add(1);
        }
    }

    pub(crate) fn count_list(&mut self, came: Came, joined: bool) {
        self.by_lists.count(came);
        if joined {
            self.joined = self.joined.saturating_add(1);
        }
    }
}

impl fmt::Display for Totals {
    fn fmt<W: fmt::Write>(&self, f: &mut fmt::Formatter<W>) -> fmt::Result {
        writeln!(f, "graphs with a lasso: {}", self.with_lasso)?;
        writeln!(f, "  by rest loops alone: {}", self.at_rest)?;
        writeln!(f, "graphs without: {}", self.without)?;
        write!(f, "runs by rounds\n{}", self.by_rounds)?;
        write!(f, "runs by a list\n{}", self.by_lists)?;
        writeln!(f, "  with a message that joined: {}", self.joined)?;
        let Answers {
            refused,
            passed,
            mismatches,
        } = self.damaged;
        writeln!(f, "damaged answers\n  refused: {refused}")?;
        writeln!(f, "  passed with the same verdict: {passed}")?;
        writeln!(f, "  mismatches: {mismatches}")?;
        let Answers {
            refused,
            passed,
            mismatches,
        } = self.version_1;
        writeln!(f, "answers as version 1\n  refused: {refused}")?;
        writeln!(f, "  passed with the file's verdict: {passed}")?;
        writeln!(f, "  mismatches: {mismatches}")
    }
}
