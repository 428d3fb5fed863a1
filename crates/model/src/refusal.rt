// Why a call is refused.
ghost use Rattle.std.specs.Prelude.{◌≡◌};
ghost use Rattle.model.specs.Refusals.{number};

// Each refusal has the number that callers of the library get.
#[derive(Clone, Copy, Debug, PartialEq, Eq)]
pub enum Refusal {
    // Of a case file; `LongFile` and `OtherVersion` also of an answer file.
    LongFile = 1,
    NoVersion = 2,
    OtherVersion = 3,
    CaseLayout = 4,
    OutOfRange = 5,
    VertexLine = 6,
    EdgeEnd = 7,
    EdgeOrder = 8,
    // Of a list of acts, and of buffers.
    ActRange = 9,
    Unended = 10,
    ShortBuffer = 11,
    // Of an answer file.
    AnswerLayout = 12,
    NotShown = 13,
    // Of a claim.
    NoClaim = 14,
    ClaimGrammar = 15,
    NotTaken = 16,
    // Of a chart: "17, layout, range, version not 1, or a value bit outside care; 18, no rule for a pair; 19, two rules".
    ChartFault = 17,
    NoRule = 18,
    TwoRules = 19,
    // Of a product: "20, propositions and flags differ in count; 21, too many edges".
    CountsDiffer = 20,
    TooManyEdges = 21,
}

impl Refusal {
    pub fn number(self) -> u32
        ensures { result ≡ number self }
    {
        self as u32
    }
}
