// A part of the file.
ghost use Rattle.std.specs.Prelude.{◌≡◌};
ghost use Rattle.partial.specs.Heading.{bytes_in};
ghost use Rattle.surls.specs.Parts.{part_of};

use numerals::place::Place;

// Its place and its size.
#[derive(Clone, Copy)]
pub struct Part {
    pub place: Place,
    pub size: u64,
}

impl Part {
    // An empty part.
    pub const NOWHERE: Part = Part {
        place: Place(0),
        size: 0,
    };

    // Its bytes, as far as the file has them.
    pub fn bytes(self, file: &[u8]) -> &[u8]
        ensures { result.now ≡ bytes_in file.now (part_of self) }
    {
        let len = file.len() as u64;
        let from = self.place.0.min(len);
        let size = self.size.min(len - from);
        &file[from as usize..(from + size) as usize]
    }
}
