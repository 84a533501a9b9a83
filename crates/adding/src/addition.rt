// What append is asked to add.
use additions::header::SegmentHeader;

// The fields of `pshd`, whether the good chunks go outside `pdat`, the chunk list and the data in chunk order; the texts
// of the `surl` boxes and the list of their lengths, which cuts them, URL and MIME by turns.
#[derive(Clone, Copy)]
pub struct Addition<'a> {
    pub header: SegmentHeader,
    pub outside: bool,
    pub list: &'a [u64],
    pub bytes: &'a [u8],
    pub texts: &'a [u8],
    pub lengths: &'a [u64],
}
