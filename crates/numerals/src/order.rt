// Two numbers held against each other, added and taken from each other, so that none wraps.
ghost use Rattle.std.specs.Prelude.{◌+◌, ◌-◌, ◌^◌, min, max, ◌≡◌, leb};

// The smaller of two numbers.
pub fn smaller(a: u64, b: u64) -> u64
    ensures { result ≡ min a b }
{
    a.min(b)
}

// The larger of two numbers.
pub fn larger(a: u64, b: u64) -> u64
    ensures { result ≡ max a b }
{
    a.max(b)
}

// The sum of two numbers, or the largest of 64 bits where it is larger.
pub fn sum_of(a: u64, b: u64) -> u64
    ensures { result ≡ min (a + b) (2 ^ 64 - 1) }
{
    a.saturating_add(b)
}

// How many numbers lie from one to another; none where the other is not above it.
pub fn between(from: u64, to: u64) -> u64
    ensures { result ≡ to - from }
{
    to.saturating_sub(from)
}

// Whether so many from a first one on end by the end.
pub fn ends_by(first: u64, size: u64, end: u64) -> bool
    ensures { result ≡ leb (first + size) end }
{
    first <= end && size <= end - first
}
