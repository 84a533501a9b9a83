// Maximal ranges: how far the positions from one on are all had, or all missing, by a sweep over ordered spans that
// never goes back.
ghost use Rattle.std.specs.Prelude.{◌<◌, ◌≡◌, length};
ghost use Rattle.partial.specs.Ranges.{had};
ghost use Rattle.spans.specs.Spans.{Ordered};
ghost use Rattle.sweeping.specs.Classes.{class_no};
ghost use Rattle.sweeping.specs.Ranges.{nothing, Passed, Reaches, GoesOn, Finds};

use partial::position::Position;
use spans::span::Span;

// The class of a position: that no span holds it, or that one does. Where the missing positions are named, those that
// a damaged chunk covers are held, and the others have the class of all missing ones.
#[derive(Clone, Copy, PartialEq, Eq)]
pub enum Class {
    Missing = 0,
    Had = 1,
    Held = 2,
}

impl Class {
    // Its number.
    pub fn number(self) -> u64
        ensures { result ≡ class_no self }
    {
        self as u64
    }
}

// A range of positions from one on: their class, and how many they are.
#[derive(Clone, Copy)]
pub struct Range {
    pub class: Class,
    pub length: u64,
}

// A range, and how many spans are passed where it ends.
#[derive(Clone, Copy)]
pub struct Found {
    pub range: Range,
    pub passed: usize,
}

impl Found {
    // So many positions that are missing, with so many spans passed.
    fn nothing(passed: usize, length: u64) -> Self
        ensures { result ≡ nothing passed length }
    {
        Found {
            range: Range {
                class: Class::Missing,
                length,
            },
            passed,
        }
    }
}

// How far the positions from one on are had, and how many spans are passed there.
#[derive(Clone, Copy)]
pub struct Reach {
    pub to: Position,
    pub passed: usize,
}

// Goes on over the spans as long as they touch what is reached. It goes by number, since that of the first that does not
// touch is told.
fn had_to(spans: &[Span], passed: usize, p: Position) -> Reach
    ensures { Reaches spans.now (length spans.now) passed p.0 result }
{
    let mut to = p.0;
    for k in passed..spans.len() {
        let span = spans[k];
        if to < span.first.0 {
            return Reach {
                to: Position(to),
                passed: k,
            };
        }
        to = to.max(span.end.0);
    }
    Reach {
        to: Position(to),
        passed: passed.max(spans.len()),
    }
}

// The range of a position below an end, by ordered spans of which the first so many are passed.
pub fn range_at(spans: &[Span], passed: usize, p: Position, end: Position) -> Found
    ensures { GoesOn had p.0 end.0 result.range × (Ordered spans.now (length spans.now) end.0
        → Passed spans.now (length spans.now) passed p.0 → p.0 < end.0
        → Finds spans.now (length spans.now) p.0 end.0 result) }
{
    if end.0 <= p.0 {
        return Found::nothing(passed, 0);
    }
    let reached = had_to(spans, passed, p);
    let to = reached.to.0;
    let k = reached.passed;
    if p.0 < to {
        return Found {
            range: Range {
                class: Class::Had,
                length: to - p.0,
            },
            passed: k,
        };
    }
    let next = if k < spans.len() {
        spans[k].first.0
    } else {
        end.0
    };
    Found::nothing(k, next - p.0)
}
