// The chart's reader: 17 for a fault of the text, 18 or 19 with the first bad pair, or the chart, in one pass over the lent
// text. Contracts cite specs/Reading.antt and specs/Pairs.antt.
#![tactic(auto)]

ghost use Rattle.std.specs.Prelude.{◌≡◌, true, ◌*◌, ◌^◌, ◌≤◌, ◌<◌, length};
ghost use Rattle.text.specs.Reading.{Part};
ghost use Rattle.model.specs.Chart.{chart_counts_good, chart_says, most_flags};
ghost use Rattle.chart.specs.Reading.{head_says, ChartLaid, ChartRead, name_place};
ghost use Rattle.chart.specs.Pairs.{most_pairs, Fresh, entry_refused, table_says, bad_in, AllOne, GoodFront};

use casefile::Case;
use model::{Charted, Refusal};
use names::name_block;
use rules::rule_block;
use text::read::{field, name_line, next_line, numbers_row, past_head};
use text::write::Writer;

mod names;
mod rules;

// The counts of an accepted chart.
#[derive(Clone, Copy, Debug, PartialEq, Eq)]
pub struct Chart {
    pub modes: usize,
    pub start: usize,
    pub flags: usize,
}

impl Chart {
    // "Modes 1 to 32, flags 1 to 8, rules at most 512", a name of "1 to 16 letters or digits"
    pub const MOST_MODES: usize = 32;

    pub const MOST_FLAGS: usize = 8;

    pub const MOST_RULES: usize = 512;

    pub const LONGEST_NAME: usize = 16;
    // The pairs of a mode and a combination of flags: 32 × 256.
    pub const MOST_PAIRS: usize = 8192;
    // An entry of the table of an accepted chart is the next mode and this.
    pub const ONE_RULE: u8 = 64;
}

// How far the pairs go: so many modes, and so many combinations of flags.
#[derive(Clone, Copy)]
struct Extent {
    modes: usize,
    count: usize,
}

// Why a text is no right chart: a fault of the text; or the chart's counts, its first bad pair and that pair's refusal.
#[derive(Clone, Copy)]
pub enum NoChart {
    Fault,
    Bad(Chart, Charted),
}

// Of a text without a bad pair: a refusal that is of the whole, or none, by its number, as C gets it.
fn without_pair(refusal: u32) -> Charted
    ensures { result ≡ record { refusal = refusal; mode = 0; combination = 0 } }
{
    Charted {
        refusal,
        mode: 0,
        combination: 0,
    }
}

// Whether the numbers of line 2 are in range.
#[tactic(auto, unfolding(model::specs::Chart::chart_counts_good))]
fn counts_good(version: u32, chart: Chart) -> bool
    ensures { result ≡ chart_counts_good version chart.modes chart.start chart.flags }
{
    version == Case::VERSION
        && (1..=Chart::MOST_MODES).contains(&chart.modes)
        && chart.start < chart.modes
        && (1..=Chart::MOST_FLAGS).contains(&chart.flags)
}

// Lines 1 to 3: the counts, and the place past these lines.
fn read_head(text: &[u8]) -> Option<(Chart, usize)>
    ensures { result ≡ head_says text.now }
{
    if Case::LONGEST_FILE < text.len() {
        return None;
    }
    let second = name_line(text, 0, b"version modes start flags")?;
    let row = numbers_row::<4>(text, second)?;
    let [version, modes, start, flags] = row.numbers;
    let chart = Chart {
        modes: modes as usize,
        start: start as usize,
        flags: flags as usize,
    };
    if !counts_good(version, chart) {
        return None;
    }
    let names = name_line(text, row.next, b"name")?;
    Some((chart, names))
}

// How many combinations so many flags have; none where a chart may not have so many flags.
pub fn combinations(flags: usize) -> usize
    ensures { (flags ≤ most_flags → result ≡ 2 ^ flags) × (most_flags < flags → result ≡ 0) }
{
    if Chart::MOST_FLAGS < flags {
        return 0;
    }
    1usize << flags
}

// The lines after line 3, of a text whose first three are right; the rules go into the table of pairs.
fn read_rest(text: &[u8], names: usize, extent: Extent, pairs: &mut [u8]) -> bool
    requires { Fresh extent.modes extent.count pairs.old }
    ensures { ChartLaid text.now names extent.modes extent.count result pairs.new }
{
    let Some(title) = name_block(text, names, extent.modes) else {
        return false;
    };
    let Some(rules) = name_line(text, title, b"mode care value next") else {
        return false;
    };
    rule_block(text, rules, extent, pairs)
}

// Why a pair is refused, by its entry.
fn entry_refusal(entry: u8) -> Option<Refusal>
    ensures { result ≡ entry_refused entry }
{
    if entry == rules::NO_RULE {
        return Some(Refusal::NoRule);
    }
    if rules::TWO_RULES <= entry {
        return Some(Refusal::TwoRules);
    }
    None
}

// Whether these pairs all have exactly one rule. The loop looks at every entry, so that the compiler can do many at once.
fn all_one(entries: &[u8]) -> bool
    ensures { result ≡ true → AllOne entries.now 0 (length entries.now) }
{
    let mut least = Chart::ONE_RULE;
    let mut most = Chart::ONE_RULE;
    for entry in entries {
        least = least.min(*entry);
        most = most.max(*entry);
    }
    if least < Chart::ONE_RULE {
        return false;
    }
    most < rules::TWO_RULES
}

// How many pairs need no look of their own: those of the modes before the first one with a bad pair.
fn good_modes(pairs: &[u8], extent: Extent) -> usize
    requires { extent.modes * extent.count ≤ length pairs.now }
    ensures { GoodFront pairs.now (extent.modes * extent.count) result }
{
    for q in 0..extent.modes {
        let base = q * extent.count;
        if !all_one(&pairs[base..base + extent.count]) {
            return base;
        }
    }
    extent.modes * extent.count
}

// The first pair that has no rule or two.
fn bad_pair(pairs: &[u8], extent: Extent) -> Option<Charted>
    requires long { extent.modes * extent.count ≤ length pairs.now }
    requires few { extent.modes * extent.count ≤ most_pairs }
    requires some { 1 ≤ extent.count }
    ensures { result ≡ bad_in (table_says (extent.modes * extent.count) 0 extent.count pairs.now) }
{
    for i in good_modes(pairs, extent)..extent.modes * extent.count {
        if let Some(refusal) = entry_refusal(pairs[i]) {
            return Some(Charted {
                refusal: refusal.number(),
                mode: (i / extent.count) as u32,
                combination: (i % extent.count) as u32,
            });
        }
    }
    None
}

// Judges a whole text as a chart. The table of an accepted one takes an entry for each pair, by mode and then combination:
// the next mode and 64. A table without room for all of them stays as it is.
pub fn read_chart(text: &[u8], table: &mut [u8]) -> Result<Chart, NoChart>
    ensures { ChartRead text.now result table.old table.new }
{
    let Some((chart, names)) = read_head(text) else {
        return Err(NoChart::Fault);
    };
    let extent = Extent {
        modes: chart.modes,
        count: combinations(chart.flags),
    };
    let mut pairs = [0; Chart::MOST_PAIRS];
    if !read_rest(text, names, extent, &mut pairs) {
        return Err(NoChart::Fault);
    }
    if let Some(said) = bad_pair(&pairs, extent) {
        return Err(NoChart::Bad(chart, said));
    }
    Writer::new(table).bytes(&pairs[..extent.modes * extent.count]);
    Ok(chart)
}

// Judges a whole text as a chart; a table without room keeps nothing of it.
pub fn check_chart(text: &[u8]) -> Charted
    ensures { result ≡ chart_says text.now }
{
    match read_chart(text, &mut []) {
        Ok(_) => without_pair(0),
        Err(NoChart::Fault) => without_pair(Refusal::ChartFault.number()),
        Err(NoChart::Bad(_, said)) => said,
    }
}

// The name of a mode of a chart whose text is right: that very part of the text. In any other text it is the field at the
// line where such a name would stand, or an empty one at the end.
pub fn mode_name(text: &[u8], mode: usize) -> &[u8]
    ensures { Part text.entry (name_place text.now mode) result }
{
    let mut at = past_head(text);
    for _ in 0..mode {
        if text.len() <= at {
            return field(text, at);
        }
        at = next_line(text, at);
    }
    field(text, at)
}
