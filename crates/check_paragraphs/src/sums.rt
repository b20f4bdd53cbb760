//! Sums of lengths without their signs, up to a limit.

ghost use Rattle.std.specs.Prelude.{◌≡◌, ◌+◌, ◌≤◌, ◌^◌, unsigned_abs, IfSome};

const GREATEST_SUM: u64 = 1 << 60;

/// The sum with a length more, if it is at most 2^60.
pub(crate) fn with_length(sum: u64, length: i64) -> Option<u64>
    ensures { IfSome result (λ more. (more ≡ sum + unsigned_abs length) × (more ≤ 2 ^ 60)) }
{
    let more = sum.checked_add(length.unsigned_abs())?;
    if more <= GREATEST_SUM {
        Some(more)
    } else {
        None
    }
}
