// Serving and asking of a position of a source, each reading the file into the two lent tables first.
ghost use Rattle.serving.specs.Calls.{Locates, Serves, Asks};

use gathering::tables::SourceTables;
use partial::answers::Asked;
use partial::position::Position;
use reading::parts::part_of;
use reading::tables::read_source;
use refusals::Refusal;
use supplying::runs::run_at;
use surls::part::Part;

// Where the part of the file lies that serves a position of a source and those after it, as long as the same chunk
// supplies them; an empty part where none does.
pub fn part_at(
    file: &[u8],
    source: u64,
    segments: &mut [u64],
    chunks: &mut [u64],
    p: Position,
) -> Result<Part, Refusal>
    ensures { Locates file.now source segments.old segments.new chunks.old chunks.new p.0 result }
{
    let mut own = SourceTables::new();
    let read = read_source(file, source, segments, chunks, &mut own)?;
    let run = run_at(&own.sources, chunks, read.chunks, source, p, read.described);
    let Some(c) = run.chunk else {
        return Ok(Part::NOWHERE);
    };
    Ok(Part {
        place: c.place_of(p),
        size: run.length,
    })
}

// The part of the file that serves a position of a source and those after it; empty where none does, or after a refusal.
pub fn serve<'a>(
    file: &'a [u8],
    source: u64,
    segments: &mut [u64],
    chunks: &mut [u64],
    p: Position,
) -> &'a [u8]
    ensures { Serves file.now file.entry.ref_ptr source segments.old segments.new chunks.old chunks.new p.0 result.ref_ptr result.now }
{
    part_of(file, part_at(file, source, segments, chunks, p))
}

// Whether a position of a source is served or missing, with how many in a row from there on, or not below the described
// length.
pub fn ask(
    file: &[u8],
    source: u64,
    segments: &mut [u64],
    chunks: &mut [u64],
    p: Position,
) -> Result<Asked, Refusal>
    ensures { Asks file.now source segments.old segments.new chunks.old chunks.new p.0 result }
{
    let mut own = SourceTables::new();
    let read = read_source(file, source, segments, chunks, &mut own)?;
    let described = read.described;
    if described.0 <= p.0 {
        return Ok(Asked::NotBelow);
    }
    let run = run_at(&own.sources, chunks, read.chunks, source, p, described);
    if run.chunk.is_some() {
        Ok(Asked::Served(run.length))
    } else {
        Ok(Asked::Missing(run.length))
    }
}
