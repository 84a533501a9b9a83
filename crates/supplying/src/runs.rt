// Runs: which chunk of a source supplies a position, and how many positions from there on have the same supplier, in
// one pass over the rows.
ghost use Rattle.std.specs.Prelude.{◌≡◌};
ghost use Rattle.partial.specs.Meaning.{supplies};
ghost use Rattle.supplying.specs.Rows.{told_of, chunks_in};
ghost use Rattle.supplying.specs.Runs.{RunIn, clip};

use crate::rows::{Told, of_source};
use partial::position::Position;
use segment::chunk::Chunk;
use sources::numbers::ALL_SOURCES;

// Which chunk supplies a position, if any does, and how many positions from there on are alike.
#[derive(Clone, Copy)]
pub struct Run {
    pub chunk: Option<Chunk>,
    pub length: u64,
}

// Whether a chunk is good and covers a position.
fn supplies(c: Told, p: Position) -> bool
    ensures { result ≡ supplies p.0 (told_of c) }
{
    let start = c.start;
    if !c.is_good() {
        return false;
    }
    if p.0 < start.0 {
        return false;
    }
    p.0 - start.0 < c.size
}

// An end, or where a good chunk begins that comes before it and after a position: from there on it supplies what it
// covers.
fn clip(c: Told, p: Position, end: u64) -> u64
    ensures { result ≡ clip p.0 end (told_of c) }
{
    let start = c.start;
    if !c.is_good() {
        return end;
    }
    if start.0 <= p.0 {
        return end;
    }
    if c.size == 0 {
        return end;
    }
    end.min(start.0)
}

// The run of a position of a source, below an end, in a table of so many rows, by the sources of the segments.
pub fn run_at(
    sources: &[u64; ALL_SOURCES],
    table: &[u64],
    count: u64,
    source: u64,
    p: Position,
    end: Position,
) -> Run
    ensures { RunIn (chunks_in sources.now source table.now count) p.0 end.0 result }
{
    let mut stop = end.0;
    for k in 0..count {
        if let Some(c) = of_source(sources, source, table, k) {
            if supplies(c, p) {
                let left = c.size - (p.0 - c.start.0);
                return Run {
                    chunk: Some(c.good()),
                    length: stop.saturating_sub(p.0).min(left),
                };
            }
            stop = clip(c, p, stop);
        }
    }
    Run {
        chunk: None,
        length: stop.saturating_sub(p.0),
    }
}
