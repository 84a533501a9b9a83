// The texts of the `surl` boxes of an addition, counted beside the list of their lengths.
ghost use Rattle.std.specs.Prelude.{◌≡◌};
ghost use Rattle.additions.specs.Begin.{is_text};
ghost use Rattle.partial.specs.Sequences.{sum};
ghost use Rattle.adding.specs.Counts.{capped};
ghost use Rattle.adding.specs.Texts.{texts_of};

// Whether there is a length for each URL and each MIME text, whether there are as many bytes as the lengths say, and
// whether none is zero; how many `surl` boxes there are, and how many bytes. The three findings are refused at three
// stages, with others between them, so each is asked at its place.
#[derive(Clone, Copy)]
pub struct Texts {
    pub even: bool,
    pub whole: bool,
    pub plain: bool,
    pub surls: u64,
    pub bytes: u64,
}

// Whether no byte is zero.
pub fn is_text(bytes: &[u8]) -> bool
    ensures { result ≡ is_text bytes.now }
{
    !bytes.contains(&0)
}

// The lengths in sum, or the largest number of 64 bits where that is larger.
fn sum_in(lengths: &[u64]) -> u64
    ensures { result ≡ capped (sum lengths.now) }
{
    let mut all: u64 = 0;
    for length in lengths {
        all = all.saturating_add(*length);
    }
    all
}

// The texts, by the list of their lengths, URL and MIME by turns.
pub fn texts_of(texts: &[u8], lengths: &[u64]) -> Texts
    ensures { result ≡ texts_of texts.now lengths.now }
{
    let bytes = texts.len() as u64;
    Texts {
        even: lengths.len() % 2 == 0,
        whole: bytes == sum_in(lengths),
        plain: is_text(texts),
        surls: (lengths.len() / 2) as u64,
        bytes,
    }
}
