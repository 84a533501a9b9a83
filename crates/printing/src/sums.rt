// Sums that change with any number that they are made of, and with the order. `tests/sums.py` makes the same.

// What a sum is taken by before a number more goes into it.
pub const MODULUS: u64 = 16777213;

// A sum with one number below 4294967296 more.
fn with(sum: u64, n: u64) -> u64 {
    251 * (sum % MODULUS) + n % 4294967296
}

// A sum with the numbers of a table more, each in two halves.
pub fn numbers(sum: u64, table: &[u64]) -> u64 {
    table
        .iter()
        .fold(sum, |s, n| with(with(s, *n / 4294967296), *n))
}

// The sum of bytes.
pub fn bytes(part: &[u8]) -> u64 {
    part.iter().fold(0, |s, b| with(s, u64::from(*b)))
}
