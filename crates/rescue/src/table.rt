// A table of the fates of a file's boxes: what becomes of each, by its number.
use refusals::Refusal;

// What becomes of a box: it stays; or it is dropped, by the refusal that is wrong with it, if anything is.
#[derive(Clone, Copy, PartialEq, Eq)]
pub enum Fate {
    Stays,
    Dropped(Option<Refusal>),
}

// As many fates as a file may have boxes.
pub const ALL_FATES: usize = 512;
