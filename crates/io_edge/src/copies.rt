//! Copying from one slice to the front of another.

ghost use Rattle.std.specs.Prelude.{◌≡◌, take, min, length};

/// Copies at most `most` bytes, as many as there are and as there is room for, and answers how many.
pub fn copy_front(from: &[u8], to: &mut [u8], most: usize) -> usize
    ensures count { result ≡ min most (min (length to.old) (length from.now)) }
    ensures room { length to.new ≡ length to.old }
    ensures bytes { take result to.new ≡ take result from.now }
{
    let count = most.min(to.len().min(from.len()));
    to[..count].copy_from_slice(&from[..count]);
    count
}
