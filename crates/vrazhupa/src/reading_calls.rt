// The exported calls that read a file: its heading, tables and texts, positions, lists, index, both maps and the list
// of its boxes.
ghost use Rattle.partial.specs.BoxList.{boxes_text};
ghost use Rattle.partial.specs.Heading.{url, mime};
ghost use Rattle.partial.specs.Limits.{source_limit};
ghost use Rattle.partial.specs.Map.{map_text, missmap_text};
ghost use Rattle.vrazhupa.specs.Calls.{SaysHeaded, SaysRead, SaysText, SaysSourceText, SaysTexts, SaysServed, SaysAsked, SaysListed, SaysIndexed, SaysPrinted};

use crate::answers::say;
use boxlisting::call::boxes;
use heading::stages::heading_of;
use indexrows::calls::index;
use listing::calls::list;
use mapping::call::{map, missmap};
use partial::position::Position;
use reading::tables::read;
use reading::texts::{source_text_at, text_at};
use serving::calls::{ask, part_at};
use surls::first::Text;
use surltexts::calls::segment_texts;

// Tells the heading of a file, also of one that was only begun.
#[unsafe(no_mangle)]
pub extern "C" fn vrazhupa_heading(file: &[u8], told: &mut [u64; 7]) -> u64
    ensures { SaysHeaded file.now told.old told.new result }
{
    say(heading_of(file), told)
}

// Reads a file into both tables, and tells of a source.
#[unsafe(no_mangle)]
pub extern "C" fn vrazhupa_read(
    file: &[u8],
    segments: &mut [u64],
    chunks: &mut [u64],
    source: u64,
    told: &mut [u64; 5],
) -> u64
    ensures { SaysRead file.now source segments.old segments.new chunks.old chunks.new told.old told.new result }
{
    say(read(file, source, segments, chunks), told)
}

// Where the URL of the first `surl` in `pfil` stands.
#[unsafe(no_mangle)]
pub extern "C" fn vrazhupa_url(file: &[u8], told: &mut [u64; 2]) -> u64
    ensures { SaysText url file.now told.old told.new result }
{
    say(text_at(file, Text::Url), told)
}

// Where the MIME text of the first `surl` in `pfil` stands.
#[unsafe(no_mangle)]
pub extern "C" fn vrazhupa_mime(file: &[u8], told: &mut [u64; 2]) -> u64
    ensures { SaysText mime file.now told.old told.new result }
{
    say(text_at(file, Text::Mime), told)
}

// Where the first URL of a source stands.
#[unsafe(no_mangle)]
pub extern "C" fn vrazhupa_source_url(file: &[u8], source: u64, told: &mut [u64; 2]) -> u64
    ensures { SaysSourceText url file.now source told.old told.new result }
{
    say(source_text_at(file, source, Text::Url), told)
}

// Where the first MIME text of a source stands.
#[unsafe(no_mangle)]
pub extern "C" fn vrazhupa_source_mime(file: &[u8], source: u64, told: &mut [u64; 2]) -> u64
    ensures { SaysSourceText mime file.now source told.old told.new result }
{
    say(source_text_at(file, source, Text::Mime), told)
}

// The texts of the `surl` boxes of a segment, as an addition takes them.
#[unsafe(no_mangle)]
pub extern "C" fn vrazhupa_texts(
    file: &[u8],
    segment: u64,
    texts: &mut [u8],
    lengths: &mut [u64],
    told: &mut [u64; 2],
) -> u64
    ensures { SaysTexts file.now segment texts.old texts.new lengths.old lengths.new told.old told.new result }
{
    say(segment_texts(file, segment, texts, lengths), told)
}

// Where in the file the bytes stand that serve a position of a source and those after it; a part of no bytes where it is
// not supplied.
#[unsafe(no_mangle)]
pub extern "C" fn vrazhupa_serve(
    file: &[u8],
    segments: &mut [u64],
    chunks: &mut [u64],
    source: u64,
    p: u64,
    told: &mut [u64; 2],
) -> u64
    ensures { SaysServed file.now source segments.old segments.new chunks.old chunks.new p told.old told.new result }
{
    say(part_at(file, source, segments, chunks, Position(p)), told)
}

// Whether a position of a source is served or missing, with how many in a row, or not below the described length.
#[unsafe(no_mangle)]
pub extern "C" fn vrazhupa_ask(
    file: &[u8],
    segments: &mut [u64],
    chunks: &mut [u64],
    source: u64,
    p: u64,
    told: &mut [u64; 2],
) -> u64
    ensures { SaysAsked file.now source segments.old segments.new chunks.old chunks.new p told.old told.new result }
{
    say(ask(file, source, segments, chunks, Position(p)), told)
}

// Lists the ranges that a file has of a source and those that are missing.
#[unsafe(no_mangle)]
pub extern "C" fn vrazhupa_list(
    file: &[u8],
    segments: &mut [u64],
    chunks: &mut [u64],
    source: u64,
    had: &mut [u64],
    missing: &mut [u64],
    told: &mut [u64; 4],
) -> u64
    ensures { SaysListed file.now source segments.old segments.new
        chunks.old chunks.new had.old had.new missing.old
        missing.new told.old told.new result }
{
    say(list(file, source, segments, chunks, had, missing), told)
}

// Tells the boxes of a file's index in rows.
#[unsafe(no_mangle)]
pub extern "C" fn vrazhupa_index(file: &[u8], table: &mut [u64], told: &mut [u64; 1]) -> u64
    ensures { SaysIndexed file.now table.old table.new told.old told.new result }
{
    say(index(file, table), told)
}

// Writes the map's text, 27 for a file of more bytes than the caller takes.
#[unsafe(no_mangle)]
pub extern "C" fn vrazhupa_map(
    file: &[u8],
    most: u64,
    buffer: &mut [u8],
    told: &mut [u64; 1],
) -> u64
    ensures { SaysPrinted (map_text source_limit most file.now) buffer.old buffer.new told.old told.new result }
{
    say(map(file, most, buffer), told)
}

// Writes the text of the map that does not name what is missing, 27 for a file of more bytes than the caller takes.
#[unsafe(no_mangle)]
pub extern "C" fn vrazhupa_missmap(
    file: &[u8],
    most: u64,
    buffer: &mut [u8],
    told: &mut [u64; 1],
) -> u64
    ensures { SaysPrinted (missmap_text source_limit most file.now) buffer.old buffer.new told.old told.new result }
{
    say(missmap(file, most, buffer), told)
}

// Writes a line for each top-level box, 27 for a file of more bytes than the caller takes.
#[unsafe(no_mangle)]
pub extern "C" fn vrazhupa_boxes(
    file: &[u8],
    most: u64,
    buffer: &mut [u8],
    told: &mut [u64; 1],
) -> u64
    ensures { SaysPrinted (boxes_text most file.now) buffer.old buffer.new told.old told.new result }
{
    say(boxes(file, most, buffer), told)
}
