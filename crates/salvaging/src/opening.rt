// Refusals 1 to 11 of a file for its first two boxes, and where its whole boxes end.
ghost use Rattle.std.specs.Prelude.{◌≤◌, ◌≡◌, length, take};
ghost use Rattle.rescue.specs.Kept.{walk_of, first_two};
ghost use Rattle.salvaging.specs.Opens.{Whole, Opens};

use boxes::body::Body;
use boxes::kinds::Container;
use boxes::walk::Walk;
use heading::stages::heading_of;
use numerals::place::Place;
use partial::limits::FILE_LIMIT;
use refusals::Refusal;

// Whether the file is mixed, where the list of URLs in its `pfil` stands, where its whole boxes end, and the framing
// error there, if there is one.
#[derive(Clone, Copy)]
pub struct OpenFile {
    pub mixed: bool,
    pub list: Body,
    pub end: Place,
    pub fault: Option<Refusal>,
}

// Where the second box of a file ends; where it has fewer whole ones, the end of the file.
fn second_end(file: &[u8]) -> Place
    ensures { (result.0 ≤ length file.now) × (take result.0 file.now ≡ first_two file.now (walk_of file.now).boxes) }
{
    let end = Place(file.len() as u64);
    let walk = Walk::new(Body {
        container: Container::File,
        start: Place(0),
        end,
    });
    let Some((_, onward)) = walk.step(file).unwrap_or(None) else {
        return end;
    };
    let Some((second, _)) = onward.step(file).unwrap_or(None) else {
        return end;
    };
    second.end
}

// Where the whole boxes of a file end, and the framing error there, if there is one.
fn whole_end(file: &[u8]) -> (Place, Option<Refusal>)
    ensures { Whole file.now result.0.0 result.1 }
{
    let mut walk = Walk::new(Body {
        container: Container::File,
        start: Place(0),
        end: Place(file.len() as u64),
    });
    // The fault is told too, and where the walk stood before it.
    loop {
        let at = walk.at;
        match walk.step(file) {
            Ok(Some((_, next))) => walk = next,
            Ok(None) => return (at, None),
            Err(refusal) => return (at, Some(refusal)),
        }
    }
}

// What the first two boxes of a file say, or its refusal.
pub(crate) fn open(file: &[u8]) -> Result<OpenFile, Refusal>
    ensures { Opens file.now result }
{
    if FILE_LIMIT < file.len() as u64 {
        return Err(Refusal::FileTooLong);
    }
    let two = second_end(file);
    let head = heading_of(&file[..two.0 as usize])?;
    let (end, fault) = whole_end(file);
    Ok(OpenFile {
        mixed: head.mixed,
        list: head.list,
        end,
        fault,
    })
}
