// The maps of all sources of a file, one behind the other.
ghost use Rattle.std.specs.Prelude.{◌+◌, ◌*◌, ◌<◌, ◌≤◌, ◌^◌, List, length};
ghost use Rattle.filling.specs.Rows.{Puts};
ghost use Rattle.partial.specs.Map.{each_source};
ghost use Rattle.partial.specs.Segments.{Segment};
ghost use Rattle.partial.specs.Sources.{of_source};
ghost use Rattle.mapping.specs.Outline.{source_text, Drawn, Outlined, ranges_in, most_ranges, Told};

use crate::film::Film;
use crate::lines::{put_source, put_total};
use crate::outline::{Outline, outline_of};
use crate::ranges::put_ranges;
use spans::chunks::ALL_SPANS;
use spans::span::Span;

// Puts the map of a source from a place on, and answers where it ends.
fn put_outline(buffer: &mut [u8], at: u64, o: Outline<'_>) -> u64
    requires { (at < 2 ^ 59) × Drawn o }
    ensures { ((ss : List Segment) → Outlined ss o.entry
        → Puts buffer.old at (source_text o.entry.named ss) buffer.new result)
        × (result ≤ at + (150 + 50 * length (ranges_in o.entry))) }
{
    let first = put_source(buffer, at, o.end, o.closed);
    let (last, totals) = put_ranges(buffer, first, o);
    put_total(buffer, last, totals, o.named)
}

// The same of a source of a file, in a table for its spans.
fn put_one(
    buffer: &mut [u8],
    at: u64,
    film: Film<'_>,
    source: u64,
    named: bool,
    spans: &mut [Span; ALL_SPANS],
) -> u64
    requires { (at < 2 ^ 59) × ((ss : List Segment) × Told film ss) }
    ensures { ((ss : List Segment)
        → Told film.entry ss
        → Puts buffer.old at (source_text named (of_source source ss)) buffer.new result)
        × (result ≤ at + (150 + 50 * most_ranges film.entry)) }
{
    let o = outline_of(film, source, named, spans);
    put_outline(buffer, at, o)
}

// Puts the maps of all sources, in the order of their numbers, and answers where they end.
pub(crate) fn put_all(
    buffer: &mut [u8],
    film: Film<'_>,
    named: bool,
    spans: &mut [Span; ALL_SPANS],
) -> u64
    requires { (ss : List Segment) × Told film ss }
    ensures { ((ss : List Segment)
        → Told film.entry ss
        → Puts buffer.old 0 (each_source (source_text named) ss film.entry.sources 0) buffer.new result)
        × (result ≤ film.entry.sources * (150 + 50 * most_ranges film.entry)) }
{
    let mut at = 0;
    for source in 0..film.sources {
        at = put_one(buffer, at, film, source, named, spans);
    }
    at
}
