// The lines of the list.
ghost use Rattle.std.specs.Prelude.{◌+◌, ◌<◌, ◌≤◌, ◌^◌, ◌≡◌, length};
ghost use Rattle.boxes.specs.Answer.{given};
ghost use Rattle.boxes.specs.Framing.{header, walked_in, box_of};
ghost use Rattle.boxes.specs.declared.kinds.Container.TheVariants.{File};
ghost use Rattle.filling.specs.Rows.{Puts};
ghost use Rattle.partial.specs.BoxList.{box_line, walk_lines};
ghost use Rattle.boxlisting.specs.Fields.{user_field};

use crate::bytes::put_each;
use boxes::body::Body;
use boxes::framing::Framed;
use boxes::kinds::Container;
use boxes::walk::Walk;
use numerals::place::Place;
use texts::lines::put_fault;
use texts::puts::{put_decimal, put_text};

// Puts a tab and the user type of a box that has one.
fn put_user(buffer: &mut [u8], at: u64, file: &[u8], b: Framed) -> u64
    requires { (at < 2 ^ 58) × (header File file.now b.at.0 (length file.now) ≡ given (box_of b)) }
    ensures { Puts buffer.old at (user_field file.now (box_of b)) buffer.new result × (result ≤ at + 65) }
{
    let user = &file[b.user.0 as usize..b.body.0 as usize];
    if user.is_empty() {
        return at;
    }
    let digits = put_text(buffer, at, b"\t");
    put_each(buffer, digits, user, true)
}

// Place, size, type and, for `uuid`, the user type.
fn put_box(buffer: &mut [u8], at: u64, file: &[u8], b: Framed) -> u64
    requires { (at < 2 ^ 57) × (header File file.now b.at.0 (length file.now) ≡ given (box_of b)) }
    ensures { Puts buffer.old at (box_line file.now (box_of b)) buffer.new result × (result ≤ at + 200) }
{
    let start = b.at.0 as usize;
    let first = put_decimal(buffer, at, b.at.0);
    let size = put_text(buffer, first, b"\t");
    let second = put_decimal(buffer, size, b.end.0 - b.at.0);
    let kind = put_text(buffer, second, b"\t");
    let third = put_each(buffer, kind, &file[start + 4..start + 8], false);
    let last = put_user(buffer, third, file, b);
    put_text(buffer, last, b"\n")
}

// Puts a line for each box of a file up to its end or its first framing error, and then that of the error.
pub(crate) fn put_boxes(buffer: &mut [u8], file: &[u8]) -> u64
    ensures { Puts buffer.old 0 (walk_lines file.now (walked_in File file.now 0 (length file.now))) buffer.new result }
{
    let mut walk = Walk::new(Body {
        container: Container::File,
        start: Place(0),
        end: Place(file.len() as u64),
    });
    let mut next = 0;
    loop {
        match walk.step(file) {
            Ok(Some((b, onward))) => {
                walk = onward;
                next = put_box(buffer, next, file, b);
            }
            Ok(None) => return next,
            Err(n) => return put_fault(buffer, next, walk.at.0, n.number()),
        }
    }
}
