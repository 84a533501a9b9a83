// Parts of a file: where one lies, and the bytes there.
ghost use Rattle.reading.specs.Parts.{HandedBack, handed_by};

use numerals::order::ends_by;
use surls::part::Part;

// The part of the file itself; empty after a refusal, whatever tells that, and where it would not lie in the file.
pub fn part_of<E: Drop>(file: &[u8], located: Result<Part, E>) -> &[u8]
    ensures { HandedBack file.now file.entry.ref_ptr (handed_by file.now located) result.ref_ptr result.now }
{
    let Ok(part) = located else {
        return &file[0..0];
    };
    if !ends_by(part.place.0, part.size, file.len() as u64) {
        return &file[0..0];
    }
    let from = part.place.0 as usize;
    let end = from + part.size as usize;
    &file[from..end]
}
