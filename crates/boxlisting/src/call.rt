// The list of a file's boxes as text.
ghost use Rattle.filling.specs.Rows.{Puts};
ghost use Rattle.partial.specs.BoxList.{boxes_text};
ghost use Rattle.texts.specs.Writes.{Writes};

use crate::lines::put_boxes;
use partial::limits::FILE_LIMIT;
use refusals::Refusal;
use texts::lines::put_refused;

// Puts what a program prints for a file that takes at most so many bytes.
fn put_list(buffer: &mut [u8], file: &[u8], most: u64) -> u64
    ensures { Puts buffer.old 0 (boxes_text most file.now) buffer.new result }
{
    let size = file.len() as u64;
    if most < size {
        return put_refused(buffer, 0, Refusal::InputTooLong.number());
    }
    if FILE_LIMIT < size {
        return put_refused(buffer, 0, Refusal::FileTooLong.number());
    }
    put_boxes(buffer, file)
}

// Writes a line for each top-level box of a file and, where there is one, that of the first framing error; for a file
// over its limit, or of more bytes than the caller takes, the line of its refusal alone. Answers how long the text is.
// Where the buffer is too short for it, it is as it was.
pub fn boxes(file: &[u8], most: u64, buffer: &mut [u8]) -> Result<u64, Refusal>
    ensures { Writes (boxes_text most file.now) buffer.old buffer.new result }
{
    let size = put_list(&mut [], file, most);
    if (buffer.len() as u64) < size {
        return Err(Refusal::BufferTooShort);
    }
    put_list(buffer, file, most);
    Ok(size)
}
