// What the heading of a file says that its segments are judged by.
ghost use Rattle.std.specs.Prelude.{◌≡◌};
ghost use Rattle.partial.specs.Heading.{Heading};
ghost use Rattle.sources.specs.Held.{PfilList};
ghost use Rattle.gathering.specs.Basis.{Based};

use boxes::body::Body;
use surls::first::has_surl;

// Whether the file is mixed, where the list of URLs of its `pfil` stands, and whether there is one.
#[derive(Clone, Copy)]
pub(crate) struct Basis {
    pub mixed: bool,
    pub list: Body,
    pub listed: bool,
}

impl Basis {
    // Of a file that is mixed or not and whose `pfil` has its list of URLs, if any, in that container.
    pub(crate) fn new(file: &[u8], mixed: bool, list: Body) -> Self
        ensures { (h : Heading) → mixed ≡ h.mixed → PfilList file.now h list → Based file.now h result }
    {
        Basis {
            mixed,
            list,
            listed: has_surl(file, list),
        }
    }
}
