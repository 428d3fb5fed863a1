// Rule lines, and the table of pairs that they go into: an entry for each pair of a mode and a combination of flags, by
// mode and then combination.
ghost use Rattle.std.specs.Prelude.{◌≡◌, ◌≤◌, ◌<◌, length};
ghost use Rattle.model.specs.Chart.{rule_good};
ghost use Rattle.chart.specs.Pairs.{most_combinations, two_rules, added, after_rule, RuleMarked, Fresh, RulesRead};

use crate::{Chart, Extent};
use text::read::numbers_row;

// A pair's entry: no rule; one, as its next mode and `Chart::ONE_RULE`; or more, from TWO_RULES on.
pub(crate) const NO_RULE: u8 = 0;

pub(crate) const TWO_RULES: u8 = 128;

// A rule line: in this mode, where the flags picked out by `care` equal `value`, go to the next mode.
#[derive(Clone, Copy)]
struct Rule {
    mode: u32,
    care: u32,
    value: u32,
    next: u32,
}

impl Rule {
    // Whether its numbers are in range, and its value within its care.
    #[tactic(auto, unfolding(model::specs::Chart::rule_good))]
    fn good(self, extent: Extent) -> bool
        ensures { result ≡ rule_good extent.modes extent.count (record { mode = self.mode; care = self.care; value = self.value; next = self.next }) }
    {
        (self.mode as usize) < extent.modes
            && (self.care as usize) < extent.count
            && self.value & self.care == self.value
            && (self.next as usize) < extent.modes
    }
}

// What a rule adds to the entry of its mode and these flags.
fn added(flags: u8, care: u8, value: u8, worth: u8) -> u8
    ensures { result ≡ added flags care value worth }
{
    if flags & care != value {
        return 0;
    }
    worth
}

// A pair's entry after so much more: an addition, and no choice among kinds of entries, which the compiler does for many
// combinations at once.
fn after_rule(entry: u8, more: u8) -> u8
    requires { more < two_rules }
    ensures { result ≡ after_rule entry more }
{
    if TWO_RULES <= entry {
        return entry;
    }
    entry + more
}

// One rule more, tested for every combination of flags, in the entries of its mode.
fn mark_rule(entries: &mut [u8], care: u8, value: u8, worth: u8)
    requires { (length entries.old ≤ most_combinations) × (worth < two_rules) }
    ensures { RuleMarked 0 (length entries.old) care value worth entries.old entries.new }
{
    for (f, entry) in entries.iter_mut().enumerate() {
        *entry = after_rule(*entry, added(f as u8, care, value, worth));
    }
}

// The rules from `at` to the text's end.
pub(crate) fn rule_block(text: &[u8], at: usize, extent: Extent, pairs: &mut [u8]) -> bool
    requires { Fresh extent.modes extent.count pairs.old }
    ensures { RulesRead text.now at extent.modes extent.count result pairs.new }
{
    let mut here = at;
    let mut many: usize = 0;
    while here < text.len() {
        if Chart::MOST_RULES <= many {
            return false;
        }
        let Some(row) = numbers_row::<4>(text, here) else {
            return false;
        };
        let [mode, care, value, next] = row.numbers;
        let rule = Rule {
            mode,
            care,
            value,
            next,
        };
        if !rule.good(extent) {
            return false;
        }
        let base = mode as usize * extent.count;
        mark_rule(
            &mut pairs[base..base + extent.count],
            care as u8,
            value as u8,
            next as u8 + Chart::ONE_RULE,
        );
        here = row.next;
        many += 1;
    }
    true
}
