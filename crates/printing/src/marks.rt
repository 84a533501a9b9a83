// Marks in a lent table or buffer, by which it is seen what of it was written over.
ghost use Rattle.std.specs.Prelude.{ℕ, ◌-◌, ◌%◌, ◌^◌, ◌<◌, ◌≤◌, ◌≡◌, Some, length, slice_get};

// What can be lent with marks in it.
pub trait Marked: Copy + PartialEq {
    ghost mark: { ℕ → Self };

    // The mark of that place.
    fn mark_at(i: usize) -> Self
        ensures { result ≡ mark i };
}

// The numbers of a table count down from the largest.
impl Marked for u64 {
    ghost mark = { λ i. 2 ^ 64 - 1 - i };

    fn mark_at(i: usize) -> u64 {
        u64::MAX - i as u64
    }
}

// The bytes of a buffer count down from 255, over and over, so that no two that stand near each other are the same.
impl Marked for u8 {
    ghost mark = { λ i. 255 - i % 251 };

    fn mark_at(i: usize) -> u8 {
        (255 - i % 251) as u8
    }
}

// Marks a lent table or buffer.
pub fn mark<T: Marked>(lent: &mut [T])
    ensures { (k : ℕ) → k < length lent.new → slice_get lent.new k ≡ Some (T.mark k) }
{
    for (i, place) in lent.iter_mut().enumerate() {
        *place = T::mark_at(i);
    }
}

// How many places of a table or buffer, from one on, still hold their mark.
pub fn kept<T: Marked>(lent: &[T], from: usize) -> usize
    ensures { result ≤ length lent.now - from }
{
    let mut n = 0;
    for i in from..lent.len() {
        if lent[i] == T::mark_at(i) {
            n += 1;
        }
    }
    n
}
