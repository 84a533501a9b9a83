// The calls of salvage: the copy of a spoiled file in a lent buffer, and the lines of what is dropped of it.
ghost use Rattle.std.specs.Prelude.{ℕ};
ghost use Rattle.filling.specs.Rows.{Puts};
ghost use Rattle.partial.specs.Heading.{Heading};
ghost use Rattle.partial.specs.Limits.{source_limit};
ghost use Rattle.gathering.specs.Keeping.{Boxed};
ghost use Rattle.rescue.specs.Copy.{copied};
ghost use Rattle.rescue.specs.Lines.{salvage_text};
ghost use Rattle.texts.specs.Writes.{Writes};
ghost use Rattle.salvaging.specs.Tables.{fates_in, Sound};
ghost use Rattle.salvaging.specs.Told.{Tells};
ghost use Rattle.salvaging.specs.Wrote.{Salvages};

use crate::copy::put_copy;
use crate::fates::fates_of;
use crate::lines::put_lines;
use crate::opening::{OpenFile, open};
use crate::places::{ALL_PLACES, Moves, places_of};
use refusals::Refusal;
use rescue::table::{ALL_FATES, Fate};
use segment::tops::{NO_TOP, TOPS, tops_of};
use texts::lines::put_refused;

// Writes the copy of a file whose framing is right, which was opened.
fn salvage_whole(file: &[u8], o: OpenFile, buffer: &mut [u8]) -> Result<u64, Refusal>
    ensures { (h : Heading) → Sound file.now h → Boxed file.now o.mixed o.list h
        → Writes (copied file.now (fates_in file.now h)) buffer.old buffer.new result }
{
    let mut fates = [Fate::Stays; ALL_FATES];
    let mut moves = Moves {
        tops: [NO_TOP; TOPS],
        places: [0; ALL_PLACES],
    };
    fates_of(file, o, &mut fates);
    let size = places_of(file, &fates, &mut moves.places);
    if (buffer.len() as u64) < size {
        return Err(Refusal::BufferTooShort);
    }
    tops_of(file, &mut moves.tops);
    put_copy(buffer, file, &fates, &moves);
    Ok(size)
}

// Copies a spoiled file into the buffer: what of it can be kept. Answers how long the copy is.
pub fn salvage(file: &[u8], buffer: &mut [u8]) -> Result<u64, Refusal>
    ensures { Salvages file.now buffer.old buffer.new result }
{
    let o = open(file)?;
    salvage_whole(&file[..o.end.0 as usize], o, buffer)
}

// What is told of a file of at most so many bytes, with the fates of its boxes.
fn tell(file: &[u8], most: u64, fates: &mut [Fate; ALL_FATES]) -> Result<OpenFile, Refusal>
    ensures { Tells file.now most fates.new result }
{
    if most < file.len() as u64 {
        return Err(Refusal::InputTooLong);
    }
    let told = open(file)?;
    fates_of(&file[..told.end.0 as usize], told, fates);
    Ok(told)
}

// Puts the line of a refusal, or those of what is dropped.
fn put_told(
    buffer: &mut [u8],
    file: &[u8],
    told: Result<OpenFile, Refusal>,
    fates: &[Fate; ALL_FATES],
) -> u64
    requires { (most : ℕ) × Tells file.now most fates.now told }
    ensures { (most : ℕ) → Tells file.now most fates.now told
        → Puts buffer.old 0 (salvage_text source_limit most file.now) buffer.new result }
{
    match told {
        Err(refusal) => put_refused(buffer, 0, refusal.number()),
        Ok(o) => put_lines(buffer, &file[..o.end.0 as usize], fates, o.fault),
    }
}

// Writes a line for every dropped top-level box of a file, and for its first framing error; for a file that is refused,
// or of more bytes than the caller takes, the line of its refusal alone. Answers how long the text is. Where the buffer
// is too short for it, it is as it was.
pub fn salvage_lines(file: &[u8], most: u64, buffer: &mut [u8]) -> Result<u64, Refusal>
    ensures { Writes (salvage_text source_limit most file.now) buffer.old buffer.new result }
{
    let mut fates = [Fate::Stays; ALL_FATES];
    let mut no_room = [0; 1];
    let told = tell(file, most, &mut fates);
    let size = put_told(&mut no_room, file, told, &fates);
    if (buffer.len() as u64) < size {
        return Err(Refusal::BufferTooShort);
    }
    put_told(buffer, file, told, &fates);
    Ok(size)
}
