// What the entries return, refusals and verdicts. All else of this crate is definitions (specs/) and their proofs (proofs/).
// Refusals and verdicts are numbers in what comes back: C reads them.
#![tactic(auto)]

mod refusal;
mod verdict;

pub use refusal::Refusal;
pub use verdict::Verdict;

// Of a run: refusal 0 or its number; the verdict; the acts counted; the answer's length; the offers put into message
// cells, the messages delivered, the offers that joined a waiting message.
#[repr(C)]
#[derive(Clone, Copy)]
pub struct Outcome {
    pub refusal: u32,
    pub verdict: u32,
    pub acts: u64,
    pub written: u32,
    pub sent: u32,
    pub delivered: u32,
    pub joined: u32,
}

impl Outcome {
    // The verdicts, of a run and of a check.
    pub const NONE: u32 = 0;

    pub const LASSO: u32 = 1;

    pub const EMPTY: u32 = 2;
}

// Of a check: refusal 0 or its number; the answer's verdict where it passes, else `Outcome::NONE`.
#[repr(C)]
#[derive(Clone, Copy)]
pub struct Checked {
    pub refusal: u32,
    pub verdict: u32,
}

// Of a claim: refusal 0 or its number; how many states, the start and how many propositions; of each state 1 where it is
// accepting, and the place and length of its name in the text, 0 and 0 where it has none. Of a refused claim all else is 0.
#[repr(C)]
#[derive(Clone, Copy)]
pub struct Claimed {
    pub refusal: u32,
    pub states: u32,
    pub start: u32,
    pub propositions: u32,
    pub accepting: [u32; 15],
    pub name_at: [u32; 15],
    pub name_length: [u32; 15],
}

// Of a chart: refusal 0, 17, 18 or 19; with 18 and 19 the first pair of a mode and a combination of flags that has no rule
// or two, else 0 and 0.
#[repr(C)]
#[derive(Clone, Copy)]
pub struct Charted {
    pub refusal: u32,
    pub mode: u32,
    pub combination: u32,
}

impl Charted {
    // "18, no rule for a pair; 19, two rules"
    pub const GAP: u32 = 18;

    pub const OVERLAP: u32 = 19;
}

// Of a case file built or of steps listed: refusal 0 or its number; with 18 and 19 the chart's first bad pair, else 0 and 0;
// the length of what was written.
#[repr(C)]
#[derive(Clone, Copy)]
pub struct Built {
    pub refusal: u32,
    pub mode: u32,
    pub combination: u32,
    pub written: u32,
}

impl Built {
    // "It and the listing each need an output of 65,536 bytes, else number 11"
    pub const LEAST_CASE_OUTPUT: usize = 65536;

    pub const LEAST_STEPS_OUTPUT: usize = 65536;
}
