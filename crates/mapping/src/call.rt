// The maps of a file as text.
ghost use Rattle.std.specs.Prelude.{◌+◌, ◌*◌, ◌≤◌, ◌^◌, true, List, ◌≡◌};
ghost use Rattle.partial.specs.Limits.{segment_limit, source_limit};
ghost use Rattle.partial.specs.Map.{text_for, map_text, missmap_text, refused_line};
ghost use Rattle.partial.specs.Segments.{Segment};
ghost use Rattle.refusals.specs.Refusals.{refusal_no};
ghost use Rattle.texts.specs.Writes.{Writes};
ghost use Rattle.mapping.specs.Outline.{text_of, Told};

use crate::each::put_all;
use crate::film::Film;
use gathering::tables::SourceTables;
use partial::rows::{ALL_NUMBERS, ALL_SEGMENT_ROWS};
use reading::judging::judge_into;
use refusals::Refusal;
use spans::chunks::ALL_SPANS;
use spans::kept::Kept;
use spans::span::NO_SPAN;
use texts::lines::put_refused;

// The bytes of the line of a range are no more than this; those of the first line and the last of a source together are
// no more than three times as many.
const LINE: u64 = 50;

// Whether the maps of so many sources, each of no more ranges than so many, surely fit.
fn surely_fits(room: u64, many: u64, ranges: u64) -> bool
    requires { (many ≤ segment_limit) × (ranges ≤ 2 ^ 32) }
    ensures { result ≡ true → many * (150 + 50 * ranges) ≤ room }
{
    many * (ranges + 3) <= room / LINE
}

// Writes the maps of all sources of a file. Where they may not fit, they are first put where there is no room for them,
// to learn how long they are, since a buffer that is too short is left as it was.
fn write_all(buffer: &mut [u8], film: Film<'_>, named: bool) -> Result<u64, Refusal>
    requires { (ss : List Segment) × Told film ss }
    ensures { (ss : List Segment)
        → Told film.entry ss
        → Writes (text_of named ss) buffer.old buffer.new result }
{
    let mut spans = [NO_SPAN; ALL_SPANS];
    let most = film.kept.many + film.chunks + 1;
    if !surely_fits(buffer.len() as u64, film.sources, most) {
        let size = put_all(&mut [], film, named, &mut spans);
        if (buffer.len() as u64) < size {
            return Err(Refusal::BufferTooShort);
        }
    }
    Ok(put_all(buffer, film, named, &mut spans))
}

// Writes the line of a refusal. It is one piece, put whole or not at all, so that nothing has to be measured first.
fn write_refused(buffer: &mut [u8], n: Refusal) -> Result<u64, Refusal>
    ensures { Writes (refused_line (refusal_no n)) buffer.old buffer.new result }
{
    let line = put_refused(buffer, 0, n.number());
    if (buffer.len() as u64) < line {
        return Err(Refusal::BufferTooShort);
    }
    Ok(line)
}

// Writes the map of a file that names the missing positions, or the one that does not, or the line of its refusal.
fn write_map(file: &[u8], most: u64, buffer: &mut [u8], named: bool) -> Result<u64, Refusal>
    ensures { Writes (text_for (text_of named) source_limit most file.now) buffer.old buffer.new result }
{
    if most < file.len() as u64 {
        return write_refused(buffer, Refusal::InputTooLong);
    }
    let mut rows = [0; ALL_SEGMENT_ROWS];
    let mut numbers = [0; ALL_NUMBERS];
    let mut tables = SourceTables::new();
    match judge_into(file, &mut rows, &mut numbers, &mut tables) {
        Err(n) => write_refused(buffer, n),
        Ok(judged) => {
            let gathered = judged.gathered;
            let kept = Kept {
                many: gathered.segments,
                segments: &rows,
                sources: &tables.sources,
                numbers: &numbers,
            };
            let film = Film {
                kept,
                chunks: gathered.chunks,
                sources: gathered.sources,
                sizes: &tables.sizes,
            };
            write_all(buffer, film, named)
        }
    }
}

// Writes the map of a file, or the line of its refusal, 27 for a file of more bytes than the caller takes, and answers
// how long it is. Where the buffer is too short for it, it is as it was.
pub fn map(file: &[u8], most: u64, buffer: &mut [u8]) -> Result<u64, Refusal>
    ensures { Writes (map_text source_limit most file.now) buffer.old buffer.new result }
{
    write_map(file, most, buffer, true)
}

// The same of the map that does not name the missing positions.
pub fn missmap(file: &[u8], most: u64, buffer: &mut [u8]) -> Result<u64, Refusal>
    ensures { Writes (missmap_text source_limit most file.now) buffer.old buffer.new result }
{
    write_map(file, most, buffer, false)
}
