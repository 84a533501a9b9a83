// The number of the source of each segment, in a table.
ghost use Rattle.std.specs.Prelude.{◌≡◌};
ghost use Rattle.sources.specs.Numbers.{source_in, source_put, no_sources};

// The numbers of as many segments as a file may have.
pub const ALL_SOURCES: usize = 64;

// The number of the source of a segment; of one past the table 0.
pub fn source_at(sources: &[u64; ALL_SOURCES], segment: u64) -> u64
    ensures { result ≡ source_in sources.now segment }
{
    sources.get(segment as usize).copied().unwrap_or(0)
}

// Puts the number of the source of a segment, if the table has an entry for it.
pub fn put_source(sources: &mut [u64; ALL_SOURCES], segment: u64, source: u64)
    ensures { sources.new ≡ source_put sources.old segment source }
{
    if segment < ALL_SOURCES as u64 {
        sources[segment as usize] = source;
    }
}

// Makes each number 0.
pub fn clear_sources(sources: &mut [u64; ALL_SOURCES])
    ensures { sources.new ≡ no_sources }
{
    *sources = [0; ALL_SOURCES];
}
