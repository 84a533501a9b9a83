// Appending a segment to a file in a lent buffer.
ghost use Rattle.std.specs.Prelude.{◌≤◌, true, ◌≡◌, length, take};
ghost use Rattle.boxes.specs.Answer.{given};
ghost use Rattle.additions.specs.Addition.{asks, items, list_right, outside_right};
ghost use Rattle.additions.specs.Append.{added};
ghost use Rattle.additions.specs.Begin.{is_text};
ghost use Rattle.partial.specs.Heading.{Heading, heading};
ghost use Rattle.partial.specs.Limits.{file_limit};
ghost use Rattle.ends.specs.Table.{sizes_in};
ghost use Rattle.adding.specs.Admission.{AskedBy};
ghost use Rattle.adding.specs.Asks.{asks_of};
ghost use Rattle.adding.specs.Counts.{Counted, Sorted};
ghost use Rattle.adding.specs.Texts.{Texted};
ghost use Rattle.adding.specs.Layout.{Laid};
ghost use Rattle.going.specs.Source.{SourceFor, GoesTo, HasList};
ghost use Rattle.puts.specs.Entries.{Fits};
ghost use Rattle.puts.specs.Pieces.{PutsPieces};
ghost use Rattle.writing.specs.Append.{Ready, Appends};

use adding::addition::Addition;
use adding::admission::{Asked, Onto, Target, admission, outside_right};
use adding::counts::{Counts, counted};
use adding::layout::layout_of;
use adding::texts::{Texts, texts_of};
use additions::header::SegmentHeader;
use ends::table::sizes_at;
use gathering::tables::SourceTables;
use going::source::{goes_to, has_list, source_for};
use numerals::place::Place;
use outside::chunks::outside_of;
use puts::pdat::{put_chosen, put_pdat};
use puts::pseg::put_pseg;
use reading::judging::{Judged, earlier_of};
use refusals::Refusal;

// Puts all that append adds: the `pdat`, if any chunk's data goes there, the chunks outside, and the `pseg`.
fn put_added(buffer: &mut [u8], at: Place, asked: Asked, addition: Addition) -> Place
    requires { Sorted (asks_of addition) asked.counts asked.outside
        × Laid (asks_of addition) asked.layout × Fits (items addition.list.now)
        × (length (added (asks_of addition)) ≤ file_limit) }
    ensures { PutsPieces buffer.old at.0 (added (asks_of addition.entry)) buffer.new result.0 }
{
    let counts = asked.counts;
    let stored = asked.outside;
    let outside = addition.outside;
    let list = addition.list;
    let bytes = addition.bytes;
    let there = counts.present != stored.chunks;
    let size = counts.bytes - stored.bytes;
    let outer = put_pdat(buffer, at, outside, there, size, list, bytes);
    let pseg = put_chosen(buffer, outer, outside, true, list, bytes);
    put_pseg(buffer, pseg, addition, counts, asked.layout, stored.bytes)
}

// Appends what is right in itself, if the result is a file and has room.
fn append_right(
    buffer: &mut [u8],
    onto: Onto,
    asked: Asked,
    addition: Addition,
) -> Result<u64, Refusal>
    requires { Ready buffer.old (asks_of addition) onto
        × (list_right addition.list.now ≡ true) × AskedBy (asks_of addition) asked × (is_text addition.texts.now ≡ true)
        × ((h : Heading) → heading (take onto.length buffer.old) ≡ given h → outside_right h (asks_of addition) ≡ true) }
    ensures { Appends buffer.old buffer.new onto.length (asks_of addition.entry) result }
{
    let n = onto.length;
    let size = admission(&buffer[..n as usize], onto, asked)?;
    if (buffer.len() as u64) < size {
        return Err(Refusal::BufferTooShort);
    }
    let at = Place(n);
    let end = put_added(buffer, at, asked, addition);
    Ok(end.0)
}

// Appends what is counted, and right by its counts: 35 and 34, and then what is right in itself.
fn append_counted(
    buffer: &mut [u8],
    onto: Onto,
    addition: Addition,
    counts: Counts,
    said: Texts,
) -> Result<u64, Refusal>
    requires { Ready buffer.old (asks_of addition) onto
        × (list_right addition.list.now ≡ true) × Counted (asks_of addition) counts × Texted (asks_of addition) said }
    ensures { Appends buffer.old buffer.new onto.length (asks_of addition.entry) result }
{
    let judged = onto.judged;
    let head = judged.head;
    let header = addition.header;
    let stored = outside_of(addition.outside, addition.list, addition.bytes);
    if !outside_right(head.mixed, stored) {
        return Err(Refusal::NotWholeBoxes);
    }
    if !said.plain {
        return Err(Refusal::ZeroInText);
    }
    let layout = layout_of(counts, stored, said, header.offset);
    let asked = Asked {
        header,
        counts,
        outside: stored,
        texts: said,
        layout,
    };
    append_right(buffer, onto, asked, addition)
}

// Appends to a file by what was read of it and the source that the addition goes to: 31 and 32 of the chunk list and of
// the texts, and then what is right by its counts.
fn append_to(buffer: &mut [u8], onto: Onto, addition: Addition) -> Result<u64, Refusal>
    requires { Ready buffer.old (asks_of addition) onto }
    ensures { Appends buffer.old buffer.new onto.length (asks_of addition.entry) result }
{
    let list = addition.list;
    let bytes = addition.bytes;
    if list.len() % 2 != 0 {
        return Err(Refusal::ChunkListWrong);
    }
    let counts = counted(list)?;
    let said = texts_of(addition.texts, addition.lengths);
    if !said.even {
        return Err(Refusal::ChunkListWrong);
    }
    if bytes.len() as u64 != counts.bytes {
        return Err(Refusal::DataWrong);
    }
    if !said.whole {
        return Err(Refusal::DataWrong);
    }
    append_counted(buffer, onto, addition, counts, said)
}

// The source that an addition with these texts goes to, by the tables of a file.
fn target_of(
    file: &[u8],
    judged: Judged,
    tables: &SourceTables,
    texts: &[u8],
    lengths: &[u64],
) -> Target
    ensures { SourceFor file.now tables.now.lists judged.gathered.sources judged.head.list texts.now lengths.now result.source
        × (result.sizes ≡ sizes_in tables.now.sizes result.source)
        × GoesTo file.now judged.head.list texts.now lengths.now result.in_pfil
        × HasList file.now judged.head.list lengths.now result.listed }
{
    let head = judged.head;
    let gathered = judged.gathered;
    let list = head.list;
    let source = source_for(file, &tables.lists, gathered.sources, list, texts, lengths);
    let said = sizes_at(&tables.sizes, source);
    let in_pfil = goes_to(file, list, texts, lengths);
    let listed = has_list(file, list, lengths);
    Target {
        source,
        sizes: said,
        in_pfil,
        listed,
    }
}

// Appends a segment to the file in the first bytes of the buffer: the data of its chunks, the good ones outside `pdat`
// or all in one, and a `pseg` with the `surl` boxes of texts, which a list of their lengths cuts, URL and MIME by turns.
// Answers the new length; after a refusal the buffer is as it was.
pub fn append(
    buffer: &mut [u8],
    length: u64,
    header: SegmentHeader,
    outside: bool,
    list: &[u64],
    bytes: &[u8],
    texts: &[u8],
    lengths: &[u64],
) -> Result<u64, Refusal>
    ensures { Appends buffer.old buffer.new length (asks header outside list.now bytes.now texts.now lengths.now) result }
{
    if (buffer.len() as u64) < length {
        return Err(Refusal::LengthOverBuffer);
    }
    let mut tables = SourceTables::new();
    let file = &buffer[..length as usize];
    let judged = earlier_of(file, &mut tables)?;
    let target = target_of(file, judged, &tables, texts, lengths);
    let onto = Onto {
        length,
        judged,
        target,
    };
    let addition = Addition {
        header,
        outside,
        list,
        bytes,
        texts,
        lengths,
    };
    append_to(buffer, onto, addition)
}
