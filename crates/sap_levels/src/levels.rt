//! Whether two parts of a text may be joined.
ghost use Rattle.std.specs.Prelude.{◌≡◌, ◌+◌, max, nat_le};

/// Whether two parts of so many levels have together, one level above the deeper of them, at most `most`.
pub fn fits(left: u64, right: u64, most: u64) -> bool
    ensures { result ≡ nat_le (max left right + 1) most }
{
    left.max(right) < most
}
