// What the ends of segments say of the size of the source, gathered segment by segment.
ghost use Rattle.std.specs.Prelude.{List, [], ◌∷◌, ◌++◌, ◌≡◌, length};
ghost use Rattle.partial.specs.Segments.{Segment, end_of};
ghost use Rattle.partial.specs.Meaning.{gives_size, agree, described_length};
ghost use Rattle.ends.specs.Sizes.{sizes_of};

use partial::flags::LAST_SEGMENT;
use partial::position::Position;

// The size, where it is known; the largest end; whether every segment that makes the size known ends there.
#[derive(Clone, Copy)]
pub struct Sizes {
    pub size: Option<Position>,
    pub largest: Position,
    pub same: bool,
}

// Whether a segment of these flags and so many chunks makes the size of the source known: it is the last, and not open.
pub fn gives_size(flags: u64, count: u64) -> bool
    ensures { (s : Segment) → flags ≡ s.flags → count ≡ length s.chunks → result ≡ gives_size s }
{
    if flags % 2 != LAST_SEGMENT as u64 {
        return false;
    }
    count != 0
}

impl Sizes {
    // Of no segment.
    pub fn none() -> Self
        ensures { result ≡ sizes_of [] }
    {
        Sizes {
            size: None,
            largest: Position(0),
            same: true,
        }
    }

    // With one segment more, that ends there and makes the size known or not.
    pub fn with(self, end: Position, gives: bool) -> Self
        ensures { (ss : List Segment) (s : Segment) → self ≡ sizes_of ss → end.0 ≡ end_of s → gives ≡ gives_size s → result ≡ sizes_of (ss ++ (s ∷ [])) }
    {
        let largest = Position(self.largest.0.max(end.0));
        if !gives {
            return Sizes { largest, ..self };
        }
        match self.size {
            Some(size) => Sizes {
                largest,
                same: self.same && end.0 == size.0,
                ..self
            },
            None => Sizes {
                size: Some(end),
                largest,
                same: true,
            },
        }
    }

    // 25: whether no two known sizes differ, and nothing lies above the known size.
    pub fn agree(self) -> bool
        ensures { (ss : List Segment) → self ≡ sizes_of ss → result ≡ agree ss }
    {
        match self.size {
            Some(size) => self.largest.0 <= size.0 && self.same,
            None => true,
        }
    }

    // The described length.
    pub fn described(self) -> Position
        ensures { (ss : List Segment) → self ≡ sizes_of ss → result.0 ≡ described_length ss }
    {
        match self.size {
            Some(size) => size,
            None => self.largest,
        }
    }
}
