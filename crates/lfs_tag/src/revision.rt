// The order of revision counts.

ghost use Rattle.std.specs.Prelude.{◌≡◌};
ghost use Rattle.lfs_model.specs.format.Content.{is_later};

/// Returns whether revision count `b` is later than `a`, according to the sign of their 32-bit
/// difference. Revision count 0 is therefore later than `u32::MAX` (SPEC.md of littlefs, "Metadata
/// pairs").
pub fn is_later_than(a: u32, b: u32) -> bool
    ensures { result ≡ is_later a b }
{
    let ahead = b.wrapping_sub(a);
    0 < ahead && ahead < 0x8000_0000
}
