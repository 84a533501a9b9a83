// What the text of a source's map is made by.
ghost use Rattle.std.specs.Prelude.{◌≤◌, List, ◌≡◌, length};
ghost use Rattle.partial.specs.Limits.{chunk_limit};
ghost use Rattle.partial.specs.Segments.{Segment};
ghost use Rattle.partial.specs.Sources.{of_source};
ghost use Rattle.mapping.specs.Outline.{Drawn, Told, Outlined};

use crate::damage::file_damage;
use crate::film::Film;
use ends::table::sizes_at;
use fields::state::State;
use partial::position::Position;
use spans::files::file_spans;
use spans::span::Span;

// The spans of what good chunks supply and of what damaged ones cover, the described length, whether the size is known,
// and whether the missing positions are named.
#[derive(Clone, Copy)]
pub struct Outline<'a> {
    pub good: &'a [Span],
    pub damaged: &'a [Span],
    pub end: Position,
    pub closed: bool,
    pub named: bool,
}

// The outline of a source of a file, in a table for its spans. A chunk is good or damaged or neither, so that a table
// with room for a span of each chunk has room for both kinds, the damaged ones behind the good ones.
pub(crate) fn outline_of<'a>(
    film: Film<'_>,
    source: u64,
    named: bool,
    spans: &'a mut [Span],
) -> Outline<'a>
    requires { (ss : List Segment) × Told film ss }
    ensures { Drawn result × (result.named ≡ named)
        × ((ss : List Segment) → chunk_limit ≤ length spans.old
        → Told film.entry ss
        → Outlined (of_source source ss) result) }
{
    let said = sizes_at(film.sizes, source);
    let end = said.described();
    let good = file_spans(film.kept, State::Good.number(), source, end, spans);
    let (front, behind) = spans.split_at_mut(good);
    let damaged = file_damage(film.kept, source, end, named, behind);
    Outline {
        good: front,
        damaged: &behind[..damaged],
        end,
        closed: said.size.is_some(),
        named,
    }
}
