// The answer of the call: how much there is of texts.

// How many bytes the texts have, and how many lengths there are.
#[derive(Clone, Copy, Default)]
pub struct Texts {
    pub bytes: u64,
    pub lengths: u64,
}
