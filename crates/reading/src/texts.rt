// The URL and the MIME text of the first `surl` in `pfil`, and those of a source, as parts of the file.
ghost use Rattle.std.specs.Prelude.{◌≡◌};
ghost use Rattle.partial.specs.Heading.{url, mime};
ghost use Rattle.partial.specs.Limits.{source_limit};
ghost use Rattle.partial.specs.Tables.{text_of};
ghost use Rattle.partial.specs.Texts.{source_text_of};
ghost use Rattle.surls.specs.First.{text_in};
ghost use Rattle.reading.specs.Parts.{HandedBack, located_answer};
ghost use Rattle.reading.specs.Texts.{text_located, part_given};

use crate::judging::judge;
use crate::parts::part_of;
use gathering::tables::SourceTables;
use refusals::Refusal;
use sources::lists::list_at;
use surls::first::{Text, first_text};
use surls::part::Part;

// Where a text of the first `surl` in `pfil` lies, or the number of the file's refusal.
pub fn text_at(file: &[u8], which: Text) -> Result<Part, Refusal>
    ensures { located_answer result ≡ text_located which file.now }
{
    let mut tables = SourceTables::new();
    let judged = judge(file, &mut tables)?;
    match which {
        Text::Url => Ok(judged.head.url),
        Text::Mime => Ok(judged.head.mime),
    }
}

// The URL of the first `surl` in `pfil`; empty after a refusal or where there is none.
pub fn url(file: &[u8]) -> &[u8]
    ensures { HandedBack file.now file.entry.ref_ptr (text_of url source_limit file.now) result.ref_ptr result.now }
{
    part_of(file, text_at(file, Text::Url))
}

// The MIME text of the first `surl` in `pfil`; empty after a refusal or where there is none.
pub fn mime(file: &[u8]) -> &[u8]
    ensures { HandedBack file.now file.entry.ref_ptr (text_of mime source_limit file.now) result.ref_ptr result.now }
{
    part_of(file, text_at(file, Text::Mime))
}

// Where the first URL, or the first MIME text, of a source lies, or the number of the file's refusal.
pub fn source_text_at(file: &[u8], source: u64, which: Text) -> Result<Part, Refusal>
    ensures { located_answer result ≡ source_text_of (text_in which) source_limit file.now source }
{
    let mut tables = SourceTables::new();
    let judged = judge(file, &mut tables)?;
    if judged.gathered.sources <= source {
        return Ok(Part::NOWHERE);
    }
    Ok(first_text(file, list_at(&tables.lists, source), which))
}

// The first URL of a source; empty after a refusal or where the file has no such source.
pub fn source_url(file: &[u8], source: u64) -> &[u8]
    ensures { HandedBack file.now file.entry.ref_ptr (part_given (source_text_of url source_limit file.now source)) result.ref_ptr result.now }
{
    part_of(file, source_text_at(file, source, Text::Url))
}

// The first MIME text of a source; empty after a refusal or where the file has no such source.
pub fn source_mime(file: &[u8], source: u64) -> &[u8]
    ensures { HandedBack file.now file.entry.ref_ptr (part_given (source_text_of mime source_limit file.now source)) result.ref_ptr result.now }
{
    part_of(file, source_text_at(file, source, Text::Mime))
}
