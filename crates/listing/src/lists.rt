// The two lists: the ranges of each class in its own table, in the order of their positions.
ghost use Rattle.std.specs.Prelude.{◌+◌, ◌*◌, [], ◌∷◌, length};
ghost use Rattle.partial.specs.Tables.{range_row_length};
ghost use Rattle.filling.specs.Rows.{Put};
ghost use Rattle.spans.specs.Spans.{class_by, Ordered};
ghost use Rattle.listing.specs.Lists.{Bounded, Proper, Joins, PutLists};

use filling::rows::put_row;
use partial::answers::Lists;
use partial::position::Position;
use partial::rows::RANGE_ROW;
use spans::span::Span;
use sweeping::ranges::{Class, Range, range_at};

// Writes a range into a list behind so many others, if there is room for it.
fn put_range(list: &mut [u64], before: u64, first: Position, length: u64)
    ensures { Put list.old (range_row_length * before) (first.0 ∷ length ∷ []) list.new }
{
    if list.len() as u64 / RANGE_ROW <= before {
        return;
    }
    put_row(list, (RANGE_ROW * before) as usize, &[first.0, length]);
}

// With one range more, from a position on, which is written into the list of its class.
fn joined(lists: Lists, p: Position, r: Range, had: &mut [u64], missing: &mut [u64]) -> Lists
    requires { Bounded lists p.0 × Proper p.0 r }
    ensures { Bounded result (p.0 + r.length) × Joins lists p.0 r had.old had.new missing.old missing.new result }
{
    if r.class == Class::Had {
        put_range(had, lists.had, p, r.length);
        return Lists {
            had: lists.had + 1,
            received_total: lists.received_total + r.length,
            ..lists
        };
    }
    put_range(missing, lists.missing, p, r.length);
    Lists {
        missing: lists.missing + 1,
        missing_total: lists.missing_total + r.length,
        ..lists
    }
}

// The lists of the positions below an end, by ordered spans.
pub fn put_lists(spans: &[Span], end: Position, had: &mut [u64], missing: &mut [u64]) -> Lists
    ensures { Ordered spans.now (length spans.now) end.0 → PutLists (class_by spans.now (length spans.now)) end.0 had.old had.new missing.old missing.new result }
{
    let mut lists = Lists {
        had: 0,
        missing: 0,
        received_total: 0,
        missing_total: 0,
    };
    let mut passed = 0;
    let mut p = 0;
    while p < end.0 {
        let found = range_at(spans, passed, Position(p), end);
        lists = joined(lists, Position(p), found.range, had, missing);
        passed = found.passed;
        p += found.range.length;
    }
    lists
}
