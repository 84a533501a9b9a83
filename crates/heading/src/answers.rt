// The answer of the heading's call.
use boxes::body::Body;
use surls::part::Part;

// How many boxes the file has, how many of them are `pseg`, whether it is mixed, whether its `pfil` has an index, where
// the list of URLs in `pfil` stands, and the URL and the MIME text of the first `surl` there.
#[derive(Clone, Copy)]
pub struct Head {
    pub boxes: u64,
    pub segments: u64,
    pub mixed: bool,
    pub indexed: bool,
    pub list: Body,
    pub url: Part,
    pub mime: Part,
}
