// One span in a table, behind those before it, or the last span made longer.
ghost use Rattle.std.specs.Prelude.{◌+◌, ◌≤◌, length};
ghost use Rattle.spans.specs.Spans.{Joined};

use crate::span::Span;

// Writes a span behind so many others, and answers how many there are then. One that starts where the last ends makes
// that one longer: the chunks of a segment follow each other, so that most go this way, and few spans are left to be
// ordered.
pub(crate) fn join_span(table: &mut [Span], n: usize, span: Span) -> usize
    requires { n + 1 ≤ length table.old }
    ensures { Joined table.old n span.first.0 span.end.0 table.new result }
{
    if 0 < n {
        let last = table[n - 1];
        if last.end.0 == span.first.0 {
            table[n - 1] = Span {
                first: last.first,
                end: span.end,
            };
            return n;
        }
    }
    table[n] = span;
    n + 1
}
