// Stages 36 to 39 of a file whose heading and segments are right, and how many boxes its index has.
ghost use Rattle.std.specs.Prelude.{ℕ, ◌&&◌, List, ◌≡◌};
ghost use Rattle.boxes.specs.Answer.{given};
ghost use Rattle.partial.specs.Answers.{number_answer};
ghost use Rattle.partial.specs.Heading.{Heading, heading};
ghost use Rattle.partial.specs.Index.{SourceBox, boxes_alone};
ghost use Rattle.partial.specs.Limits.{source_limit};
ghost use Rattle.partial.specs.Reading.{segments};
ghost use Rattle.partial.specs.Segments.{Segment};
ghost use Rattle.indexing.specs.Marks.{marks_with};
ghost use Rattle.fileindex.specs.File.{index_by, end_in, NumberedBy, no_marks};
ghost use Rattle.reading.specs.Staged.{staged, HasIndexes};

use ends::table::ALL_SIZES;
use fileindex::file::index_of;
use indexing::marks::Marks;
use refusals::Refusal;
use sources::numbers::ALL_SOURCES;

// 37, 38 and 39 of an index, by what is marked with its boxes and by whether both `pfil` and a segment have one.
fn past_36(marks: Marks, both: bool) -> Result<u64, Refusal>
    ensures { (is : List SourceBox) → marks ≡ marks_with no_marks (boxes_alone is) → number_answer result ≡ staged both (given is) }
{
    if marks.deep {
        return Err(Refusal::NinthLevel);
    }
    if both {
        return Err(Refusal::IndexesInBoth);
    }
    if marks.unknown {
        return Err(Refusal::EndUnknown);
    }
    Ok(marks.count)
}

// The stages of a file, by where each source ends, the sources of its segments and that of the list in `pfil`. Whether
// `pfil` and whether some segment has an index is known, so that a file without one is not read again.
pub fn index_stages(
    file: &[u8],
    in_pfil: bool,
    in_segments: bool,
    sizes: &[u64; ALL_SIZES],
    sources: &[u64; ALL_SOURCES],
    source: u64,
) -> Result<u64, Refusal>
    ensures { (h : Heading) (ss : List Segment) (number : List (List ℕ) → ℕ) → heading file.now ≡ given h
        → segments source_limit file.now h ≡ given ss → NumberedBy number h ss sources.now source
        → HasIndexes h ss in_pfil in_segments
        → number_answer result ≡ staged (in_pfil && in_segments) (index_by file.now h (λ us. end_in sizes.now (number us)) ss) }
{
    if !(in_pfil | in_segments) {
        return Ok(0);
    }
    let mut no_rows = [0; 1];
    let marks = index_of(file, sizes, sources, source, &mut no_rows)?;
    past_36(marks, in_pfil & in_segments)
}
