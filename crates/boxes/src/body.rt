// The body of a container, where its boxes stand.
use crate::kinds::Container;
use numerals::place::Place;

// Which container it is, and where its body starts and ends.
#[derive(Clone, Copy, PartialEq, Eq)]
pub struct Body {
    pub container: Container,
    pub start: Place,
    pub end: Place,
}
