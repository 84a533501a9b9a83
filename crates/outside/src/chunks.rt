// The chunks of an addition that are stored outside `pdat`, judged and counted in one pass over the chunk list and the
// data.
ghost use Rattle.std.specs.Prelude.{◌+◌, ◌<◌, ◌^◌, ◌≡◌, length};
ghost use Rattle.additions.specs.Addition.{items};
ghost use Rattle.outside.specs.Chunks.{no_chunk, chunk_of, together, outside_of};

use crate::items::{end_of, goes_out};
use crate::whole::whole_of;

// Whether each chunk is whole allowed boxes; how many chunks there are, how many bytes they have, and how many boxes
// those are that are whole.
#[derive(Clone, Copy)]
pub struct Outside {
    pub right: bool,
    pub chunks: u64,
    pub bytes: u64,
    pub boxes: u64,
}

impl Outside {
    // Of no chunk.
    fn none() -> Self
        ensures { result ≡ no_chunk }
    {
        Outside {
            right: true,
            chunks: 0,
            bytes: 0,
            boxes: 0,
        }
    }

    // With one chunk more, of these bytes.
    fn with(self, bytes: &[u8]) -> Self
        requires { (self.chunks < 2 ^ 63) × (self.bytes + length bytes.now < 2 ^ 64) × (self.boxes + length bytes.now < 2 ^ 64) }
        ensures { result ≡ together self (chunk_of bytes.now) }
    {
        let chunks = self.chunks + 1;
        let all = self.bytes + bytes.len() as u64;
        match whole_of(bytes) {
            Some(n) => Outside {
                right: self.right,
                chunks,
                bytes: all,
                boxes: self.boxes + n,
            },
            None => Outside {
                right: false,
                chunks,
                bytes: all,
                boxes: self.boxes,
            },
        }
    }
}

// The chunks of a chunk list that go outside, where the good ones go there.
pub fn outside_of(outside: bool, list: &[u64], data: &[u8]) -> Outside
    ensures { result ≡ outside_of outside (items list.now) «data».now }
{
    let mut stored = Outside::none();
    let mut at = 0;
    for i in 0..list.len() / 2 {
        let size = list[2 * i];
        let state = list[2 * i + 1];
        let end = end_of(at, size, state, data.len());
        if goes_out(outside, state) {
            stored = stored.with(&data[at..end]);
        }
        at = end;
    }
    stored
}
