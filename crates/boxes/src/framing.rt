// Box headers, read and written: where a box starts, where its user type and its body start and where it ends.
ghost use Rattle.std.specs.Prelude.{◌+◌, ◌-◌, ◌≤◌, ◌≡◌};
ghost use Rattle.boxes.specs.Answer.{told_as};
ghost use Rattle.boxes.specs.Bodies.{body_of};
ghost use Rattle.boxes.specs.Framing.{box_of, header, large, sized, user_size, front_size, front};
ghost use Rattle.numerals.specs.Numbers.{holds};
ghost use Rattle.numerals.specs.Stored.{Stores};

use crate::body::Body;
use crate::kinds::{Container, Kind, UUID};
use numerals::numbers::{put_number, unsigned};
use numerals::place::Place;
use refusals::Refusal;

// A box that was read: its kind, its first byte, the first bytes of its user type and of its body, and the first byte
// after it. The user type ends where the body starts; only a `uuid` box has one that is not empty.
#[derive(Clone, Copy)]
pub struct Framed {
    pub kind: Kind,
    pub at: Place,
    pub user: Place,
    pub body: Place,
    pub end: Place,
}

impl Framed {
    // Where the boxes stand in it that it holds as a container.
    pub fn as_container(self, container: Container) -> Body
        ensures { result ≡ body_of container self }
    {
        Body {
            container,
            start: self.body,
            end: self.end,
        }
    }
}

// The bytes of a header with a 32-bit size, which is the form that we write.
pub const FRONT_SIZE: u64 = 8;

// The bytes of a header with a 64-bit size.
const LARGE_FRONT_SIZE: u64 = 16;

// The largest body whose box has a 32-bit size.
const LARGEST_BODY: u64 = 0xffff_ffff - FRONT_SIZE;

// The bytes of the user type that ends the header of a `uuid` box.
const USER_SIZE: u64 = 16;

// How many bytes the user type has of a box of a type.
pub fn user_size(kind: Kind) -> u64
    ensures { result ≡ user_size kind.code }
{
    if kind == UUID { USER_SIZE } else { 0 }
}

// The box whose size and type take so many bytes and state that size.
fn sized_at(s: &[u8], at: Place, end: Place, width: u64, size: u64) -> Result<Framed, Refusal>
    requires { (8 ≤ width) × (width ≤ 16) × (at.0 + width ≤ end.0) }
    ensures { told_as box_of result ≡ sized s.now at.0 end.0 width size }
{
    let code = unsigned(s, Place(at.0 + 4), 4) as u32;
    let kind = Kind { code };
    let front = width + user_size(kind);
    if size < front {
        return Err(Refusal::SizeUnderHeader);
    }
    if end.0.saturating_sub(at.0) < size {
        return Err(Refusal::BoxPastEnd);
    }
    Ok(Framed {
        kind,
        at,
        user: Place(at.0 + width),
        body: Place(at.0 + front),
        end: Place(at.0 + size),
    })
}

// The box whose size is the 64-bit number after its type.
fn large_at(s: &[u8], at: Place, end: Place) -> Result<Framed, Refusal>
    ensures { told_as box_of result ≡ large s.now at.0 end.0 }
{
    if end.0.saturating_sub(at.0) < LARGE_FRONT_SIZE {
        return Err(Refusal::HeaderCut);
    }
    sized_at(
        s,
        at,
        end,
        LARGE_FRONT_SIZE,
        unsigned(s, Place(at.0 + FRONT_SIZE), 8),
    )
}

// The box at a place of a container that ends at `end`, or the fault in its header.
pub fn header_at(s: &[u8], container: Container, at: Place, end: Place) -> Result<Framed, Refusal>
    ensures { told_as box_of result ≡ header container s.now at.0 end.0 }
{
    if end.0.saturating_sub(at.0) < FRONT_SIZE {
        return Err(Refusal::HeaderCut);
    }
    let size = unsigned(s, at, 4);
    if size == 0 {
        return Err(Refusal::SizeZero);
    }
    if size == 1 {
        return large_at(s, at, end);
    }
    sized_at(s, at, end, FRONT_SIZE, size)
}

// Writes the header of a box with a body of n bytes, if its size fits 32 bits and there is room. The size and the type
// are the halves of one number, so that both are written or neither.
pub fn put_header(buf: &mut [u8], at: Place, kind: Kind, n: u64) -> bool
    ensures { Stores (holds 4 (front_size + n)) buf.old at.0 (front kind.code n) result buf.new }
{
    if LARGEST_BODY < n {
        return false;
    }
    put_number(
        buf,
        at,
        8,
        (FRONT_SIZE + n) * 0x1_0000_0000 + kind.code as u64,
    )
}
