// The layout of what append adds, and whether a file takes it, are the same whatever the counts say of whether the items
// are right. The numbers wanted are worked out by hand, from the forms of the boxes.
use crate::admission::{Asked, Onto, Target, admission};
use crate::counts::Counts;
use crate::layout::{Layout, layout_of};
use crate::texts::Texts;
use additions::header::SegmentHeader;
use ends::sizes::Sizes;
use gathering::tables::SourceTables;
use outside::chunks::Outside;
use partial::position::Position;
use reading::judging::earlier_of;
use refusals::Refusal;
use std::test::Fail;

// A file that was begun, with the URL `u`: `ftyp`, and `pfil` with `pfhd` and `surl`.
const BEGUN: &[u8] =
    b"\0\0\0\x14ftyppaff\0\0\0\0paff\0\0\0\x23pfil\0\0\0\x0cpfhd\0\0\0\0\0\0\0\x0fsurl\0\0\0\0u\0\0";

const NONE_OUTSIDE: Outside = Outside {
    right: true,
    chunks: 0,
    bytes: 0,
    boxes: 0,
};

const NO_TEXT: Texts = Texts {
    even: true,
    whole: true,
    plain: true,
    surls: 0,
    bytes: 0,
};

// Of one good chunk of five bytes.
fn one_of_five(right: bool) -> Counts {
    Counts {
        right,
        items: 1,
        present: 1,
        largest: 5,
        bytes: 5,
        sum: 5,
    }
}

fn laid_out(right: bool, offset: Position) -> Layout {
    layout_of(one_of_five(right), NONE_OUTSIDE, NO_TEXT, offset)
}

// The length of that file with the chunk at a position of the source, or the refusal.
fn taken(right: bool, offset: Position) -> Result<u64, Refusal> {
    let onto = Onto {
        length: BEGUN.len() as u64,
        judged: earlier_of(BEGUN, &mut SourceTables::new())?,
        target: Target {
            source: 0,
            sizes: Sizes::none(),
            in_pfil: true,
            listed: true,
        },
    };
    let asked = Asked {
        header: SegmentHeader::writable(offset, 0, false),
        counts: one_of_five(right),
        outside: NONE_OUTSIDE,
        texts: NO_TEXT,
        layout: laid_out(right, offset),
    };
    admission(BEGUN, onto, asked)
}

// 13 bytes of `pdat`, and a `pseg` of 52: behind its header of 8 a `pshd` of 24 and a `ploc` of 20, whose one entry has its
// flags and, in a byte each, its size and its offset. The layout says their bodies, each 8 less.
#[test]
fn one_chunk_is_laid_out() -> Result<(), Fail> {
    for right in [true, false] {
        let layout = laid_out(right, Position(0));
        let widths = [layout.length_size, layout.offset_size];
        let sizes = [
            layout.offset_width,
            layout.pshd,
            layout.ploc,
            layout.pseg,
            layout.added,
        ];
        if widths != [1, 1] || sizes != [4, 16, 12, 44, 65] {
            return Err(Fail::new("another layout"));
        }
    }
    Ok(())
}

// 55 bytes of the file and 65 that are added; and 23 where the source would end at 1,099,511,627,776.
#[test]
fn one_chunk_is_taken() -> Result<(), Fail> {
    let last = Position(1_099_511_627_776 - 5);
    for right in [true, false] {
        if taken(right, Position(0)) != Ok(120)
            || taken(right, last) != Err(Refusal::SourceTooLong)
        {
            return Err(Fail::new("another answer"));
        }
    }
    Ok(())
}
