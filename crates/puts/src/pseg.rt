// The `pseg` box with its `pshd`, its `ploc` and its `surl` boxes, as it is written.
ghost use Rattle.std.specs.Prelude.{◌≤◌, [], ◌≡◌, length};
ghost use Rattle.additions.specs.Addition.{asks, items, size_of, goes_out};
ghost use Rattle.partial.specs.Limits.{file_limit};
ghost use Rattle.adding.specs.Counts.{Whole};
ghost use Rattle.adding.specs.Layout.{PsegLaid};
ghost use Rattle.puts.specs.Boxes.{pseg_box};
ghost use Rattle.puts.specs.Entries.{Fits};
ghost use Rattle.puts.specs.Pieces.{PutsPieces};

use crate::pieces::put_front;
use crate::ploc::put_ploc;
use crate::pshd::put_pshd;
use crate::surl::put_surls;
use adding::addition::Addition;
use adding::counts::Counts;
use adding::layout::Layout;
use boxes::kinds::PSEG;
use numerals::place::Place;

// Puts `pseg`, holding `pshd`, `ploc` and after it the `surl` boxes; so many bytes stand outside before it.
pub fn put_pseg(
    buffer: &mut [u8],
    at: Place,
    addition: Addition,
    counts: Counts,
    layout: Layout,
    out: u64,
) -> Place
    ensures { let a = addition.entry in Whole (items a.list.now) counts
        → PsegLaid (asks a.header a.outside a.list.now [] a.texts.now a.lengths.now) layout
        → Fits (items a.list.now) → out ≡ size_of (goes_out a.outside) (items a.list.now)
        → length (pseg_box a.header a.outside a.list.now a.texts.now a.lengths.now) ≤ file_limit
        → PutsPieces buffer.old at.0 (pseg_box a.header a.outside a.list.now a.texts.now a.lengths.now) buffer.new result.0 }
{
    let outside = addition.outside;
    let list = addition.list;
    let body = put_front(buffer, at, PSEG, layout.pseg);
    let ploc = put_pshd(buffer, body, addition.header, layout);
    let surls = put_ploc(buffer, ploc, counts, layout, outside, out, list);
    put_surls(buffer, surls, addition.texts, addition.lengths)
}
