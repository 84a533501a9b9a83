// The count rules of the table of kinds, by kind and container.
ghost use Rattle.std.specs.Prelude.{◌<◌, ◌≡◌, length, get_or};
ghost use Rattle.boxes.specs.Kinds.{rules, keeps, is_row, rule_in, right_count};

use boxes::kinds::{Container, Count, Kind, RULE_COUNT, RULES, Rule};

// A row of the table. Each loop takes its rows from here, so that the code's table is held against that of the
// definitions once.
pub(crate) fn row_at(i: usize) -> Rule
    requires { i < length rules }
    ensures { (d : Rule) → result ≡ get_or rules i d }
{
    RULES[i]
}

// Whether so many keep a count rule.
fn keeps_rule(count: Count, n: u64) -> bool
    ensures { result ≡ keeps count n }
{
    match count {
        Count::One => n == 1,
        Count::OneOrMore => 1 <= n,
        Count::AtMostOne => n <= 1,
        Count::Any => true,
    }
}

// Whether a row of the table is that of a kind in a container.
fn is_row(container: Container, kind: Kind, row: Rule) -> bool
    ensures { result ≡ is_row container kind row }
{
    row.kind == kind && row.container == container
}

// The count rule of a kind in a container: that of its row, and none where the table has no such row.
fn rule_of(container: Container, kind: Kind) -> Count
    ensures { result ≡ rule_in rules container kind }
{
    for i in 0..RULE_COUNT {
        let row = row_at(i);
        if is_row(container, kind, row) {
            return row.count;
        }
    }
    Count::Any
}

// Whether so many of a kind keep the rule of the table in a container.
pub fn keeps(container: Container, kind: Kind, n: u64) -> bool
    ensures { result ≡ right_count container kind n }
{
    keeps_rule(rule_of(container, kind), n)
}
