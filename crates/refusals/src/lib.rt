// The numbers of the refusals, in one table for all layers.
#![tactic(auto)]

ghost use Rattle.std.specs.Prelude.{◌≡◌};
ghost use Rattle.refusals.specs.Refusals.{refusal_no};

// Why a call refuses, each with its number.
#[derive(Clone, Copy, Debug, PartialEq, Eq)]
pub enum Refusal {
    // The file is over its limit.
    FileTooLong = 1,
    // A header is cut short by the end of its container.
    HeaderCut = 2,
    // A size field is 0.
    SizeZero = 3,
    // A size is smaller than the header that it counts.
    SizeUnderHeader = 4,
    // A box ends after its container.
    BoxPastEnd = 5,
    // A container holds more boxes than are allowed.
    TooManyBoxes = 6,
    // The first box is not `ftyp`, it is ill-formed, or there is a second.
    FtypWrong = 7,
    // No compatible brand is `paff` or `pmff`.
    BrandMissing = 8,
    // The second box is not `pfil`, or there is another.
    PfilWrong = 9,
    // There is not exactly one well-formed `pfhd`.
    PfhdWrong = 10,
    // A `surl` in `pfil` is ill-formed.
    SurlWrong = 11,
    // There is no `pseg`.
    NoSegment = 12,
    // There are over 64 `pseg`.
    TooManySegments = 13,
    // The `pshd` is not first, not single or not as 5.1.4.2.
    PshdWrong = 14,
    // There is not exactly one `ploc`.
    PlocNotSingle = 15,
    // A `surl` in a `pseg` is ill-formed.
    SegmentSurlWrong = 16,
    // The `ploc` is too short, of another version or with flags, cut short or with bytes left over.
    PlocWrong = 17,
    // A width of `ploc` is over 8.
    WidthWrong = 18,
    // The data reference index is not 0.
    DataElsewhere = 19,
    // A reserved bit of an entry is set.
    ReservedBit = 20,
    // There are over 1,024 chunks so far.
    TooManyChunks = 22,
    // A source offset or chunk end is over its limit.
    SourceTooLong = 23,
    // A present chunk lies neither wholly in one `pdat` body nor, good and in a mixed file, as whole allowed boxes.
    OutsideData = 24,
    // Two known sizes differ, or a segment end or open offset lies above the known size.
    SizesDiffer = 25,
    // The file is acceptable, but a lent table or list is too short.
    TableTooShort = 26,
    // The input of a program is over its limit.
    InputTooLong = 27,
    // The stated length of a file exceeds its lent buffer.
    LengthOverBuffer = 30,
    // The chunk list is of odd length, or has a size 0 or a state above 3, or the list of text lengths is of odd length.
    ChunkListWrong = 31,
    // The data bytes are not equal in number to the sizes of states 1 and 2, or the text bytes not to their lengths.
    DataWrong = 32,
    // The lent buffer is too short for the result.
    BufferTooShort = 33,
    // A zero byte stands in a URL or MIME text.
    ZeroInText = 34,
    // A good chunk to go outside is not whole allowed boxes, or its file is not mixed.
    NotWholeBoxes = 35,
    // An index list is wrong: its framing, a cut field, a size, a filling, a second `fidx` or front part, or an end.
    IndexWrong = 36,
    // A box of a ninth level stands in an index.
    NinthLevel = 37,
    // Both `pfil` and a segment have an index.
    IndexesInBoth = 38,
    // A size of 0 runs to an end that is not known.
    EndUnknown = 39,
    // There is a ninth source.
    TooManySources = 40,
    // Neither a segment nor `pfil` has a `surl`.
    NoUrl = 41,
}

impl Refusal {
    // Its number.
    pub fn number(self) -> u64
        ensures { result ≡ refusal_no self }
    {
        self as u64
    }
}
