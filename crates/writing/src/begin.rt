// Beginning a file in a lent buffer.
ghost use Rattle.std.specs.Prelude.{◌+◌, min, [], ◌≡◌, length};
ghost use Rattle.additions.specs.Begin.{beginning};
ghost use Rattle.partial.specs.Limits.{file_limit};
ghost use Rattle.partial.specs.declared.brand.Brand.{Brand};
ghost use Rattle.writing.specs.Begin.{Begins};

use adding::texts::is_text;
use numerals::place::Place;
use partial::brand::Brand;
use partial::limits::FILE_LIMIT;
use puts::ftyp::{FTYP_SIZE, put_ftyp};
use puts::pfil::{PFIL_SIZE, put_pfil};
use refusals::Refusal;

// The bytes of a file with two empty texts.
const EMPTY_SIZE: u64 = FTYP_SIZE + PFIL_SIZE;

// The bytes of a file whose texts have so many, or one more than a file may have where that is fewer.
fn size_with(texts: u64) -> u64
    ensures { (brand : Brand) → result ≡ min (length (beginning brand [] []) + texts) (file_limit + 1) }
{
    EMPTY_SIZE.saturating_add(texts).min(FILE_LIMIT + 1)
}

// Begins a file: `ftyp` with the brand, then `pfil` holding `pfhd` and one `surl`. Answers its length; after a refusal
// the buffer is as it was.
pub fn begin(buffer: &mut [u8], brand: Brand, url: &[u8], mime: &[u8]) -> Result<u64, Refusal>
    ensures { Begins brand url.now mime.now buffer.old buffer.new result }
{
    if !is_text(url) {
        return Err(Refusal::ZeroInText);
    }
    if !is_text(mime) {
        return Err(Refusal::ZeroInText);
    }
    let size = size_with(url.len() as u64 + mime.len() as u64);
    if FILE_LIMIT < size {
        return Err(Refusal::FileTooLong);
    }
    if (buffer.len() as u64) < size {
        return Err(Refusal::BufferTooShort);
    }
    let pfil = put_ftyp(buffer, Place(0), brand);
    let end = put_pfil(buffer, pfil, url, mime);
    Ok(end.0)
}
