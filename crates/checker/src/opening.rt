// Lines 1 and 2 of an answer: its version, its verdict and its counts.
ghost use Rattle.std.specs.Prelude.{◌≡◌};
ghost use Rattle.checker.specs.Checking.{counts_here, head_here, opening, head_right};

use casefile::{Case, other_version};
use model::{Refusal, Verdict};
use text::read::{begins_at, field, leading_number, name_line, numbers_row, same};

// Line 2: the version, the verdict, how many stem edges, cycle edges and vertices the answer lists; and the place past it.
#[derive(Clone, Copy)]
pub(crate) struct Head {
    pub version: u32,
    pub verdict: Verdict,
    pub stem: usize,
    pub cycle: usize,
    pub reached: usize,
    pub next: usize,
}

// The counts at `at`, after this version and verdict.
fn read_counts(text: &[u8], at: usize, version: u32, verdict: Verdict) -> Option<Head>
    ensures { result ≡ counts_here text.now at version verdict }
{
    let row = numbers_row::<3>(text, at)?;
    let [stem, cycle, reached] = row.numbers;
    Some(Head {
        version,
        verdict,
        stem: stem as usize,
        cycle: cycle as usize,
        reached: reached as usize,
        next: row.next,
    })
}

fn read_head(text: &[u8], at: usize) -> Option<Head>
    ensures { result ≡ head_here text.now at }
{
    let row = leading_number(text, at)?;
    let [version] = row.numbers;
    let p = row.next;
    let verdict = field(text, p);
    let end = p + verdict.len();
    if !begins_at(text, end, b" ") {
        return None;
    }
    if same(verdict, b"lasso") {
        return read_counts(text, end + 1, version, Verdict::Lasso);
    }
    if same(verdict, b"empty") {
        return read_counts(text, end + 1, version, Verdict::Empty);
    }
    None
}

// Whether no count is above the most that an answer lists, and the counts suit the verdict.
#[tactic(auto, unfolding(crate::specs::Checking::head_right, model::specs::Passing::counts_suit))]
fn right(head: Head) -> bool
    ensures { result ≡ head_right head }
{
    let few = head.stem <= Case::MOST_LISTED
        && head.cycle <= Case::MOST_LISTED
        && head.reached <= Case::MOST_LISTED;
    few && match head.verdict {
        Verdict::Lasso => 1 <= head.cycle && head.reached == 0,
        Verdict::Empty => head.stem == 0 && head.cycle == 0 && 1 <= head.reached,
    }
}

pub(crate) fn read_opening(text: &[u8]) -> Result<Head, Refusal>
    ensures { result ≡ opening text.now }
{
    if Case::LONGEST_FILE < text.len() {
        return Err(Refusal::LongFile);
    }
    if !begins_at(text, 0, b"version ") {
        return Err(Refusal::AnswerLayout);
    }
    if other_version(text, Case::ANSWER_VERSION) {
        return Err(Refusal::OtherVersion);
    }
    let names = b"version verdict stem cycle reached";
    let second = name_line(text, 0, names).ok_or(Refusal::AnswerLayout)?;
    let head = read_head(text, second).ok_or(Refusal::AnswerLayout)?;
    if !right(head) {
        return Err(Refusal::AnswerLayout);
    }
    Ok(head)
}
