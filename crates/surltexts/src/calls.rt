// The texts of a segment's own `surl` boxes, told by the segment's number.
ghost use Rattle.std.specs.Prelude.{◌≤◌, List, ◌≡◌, length};
ghost use Rattle.boxes.specs.Answer.{given};
ghost use Rattle.boxes.specs.Bodies.{boxes_of};
ghost use Rattle.boxes.specs.Framing.{Box};
ghost use Rattle.partial.specs.Limits.{source_limit};
ghost use Rattle.partial.specs.Texts.{surls_in, texts_tabled};
ghost use Rattle.surltexts.specs.Calls.{roomy, Tells};

use crate::answers::Texts;
use crate::find::segment_at;
use crate::putting::put_surls;
use boxes::body::Body;
use boxes::kinds::Container;
use gathering::tables::SourceTables;
use reading::judging::judge;
use refusals::Refusal;

// Tells the texts of the `surl` boxes of a container. Where one of both memories has no room they are as they were.
fn texts_in(
    file: &[u8],
    list: Body,
    texts: &mut [u8],
    lengths: &mut [u64],
) -> Result<Texts, Refusal>
    ensures { (bs : List Box) → boxes_of file.now list ≡ given bs
        → list.end.0 ≤ length file.now
        → Tells (roomy (surls_in file.now bs) texts.old lengths.old)
        texts.old texts.new lengths.old lengths.new result }
{
    let mut no_texts = [0u8; 1];
    let mut no_lengths = [0; 1];
    let amount = put_surls(file, list, &mut no_texts, &mut no_lengths);
    if (texts.len() as u64) < amount.bytes {
        return Err(Refusal::TableTooShort);
    }
    if (lengths.len() as u64) < amount.lengths {
        return Err(Refusal::TableTooShort);
    }
    put_surls(file, list, texts, lengths);
    Ok(amount)
}

// Tells the texts of a segment's own `surl` boxes: their bytes one behind the other, and their lengths, URL and MIME by
// turns; none of a segment that is not in the file. After a refusal both memories are as they were.
pub fn segment_texts(
    file: &[u8],
    segment: u64,
    texts: &mut [u8],
    lengths: &mut [u64],
) -> Result<Texts, Refusal>
    ensures { Tells (texts_tabled source_limit file.now segment texts.old lengths.old)
        texts.old texts.new lengths.old lengths.new result }
{
    let mut tables = SourceTables::new();
    judge(file, &mut tables)?;
    match segment_at(file, segment) {
        Some(b) => texts_in(file, b.as_container(Container::Pseg), texts, lengths),
        None => Ok(Texts::default()),
    }
}
