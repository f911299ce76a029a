// Examples of what a call returns and changes if nothing is mounted.

ghost use Rattle.std.specs.Prelude.{◌≡◌, codes, IfNone, None, Some, pos, ⊤};
ghost use Rattle.littlefs_values.specs.Codes.{closed_code};
ghost use Rattle.littlefs_c.specs.Volumes.{CallsVolume};
ghost use Rattle.littlefs_c.specs.declared.mounted.Mounted.{Mounted};

/// If nothing is mounted, a call returns -77 and leaves the handle empty. Any other number, or a
/// mounted volume after the call, breaks the contract.
pub fn closed_handle_has_one_code()
    ensures code { CallsVolume (λ old new. ⊥) closed_code None None }
    ensures other_code { CallsVolume (λ old new. ⊥) (pos 0) None None → ⊥ }
    ensures volume_after { (m : Mounted) → CallsVolume (λ old new. ⊤) closed_code None (Some m) → ⊥ }
{}

/// If nothing is mounted, a call doesn't change its buffer. Any other bytes in the buffer break the
/// contract.
pub fn closed_handle_keeps_buffer()
    ensures kept { IfNone {T = Mounted} None (codes "old" ≡ codes "old") }
    ensures filled { IfNone {T = Mounted} None (codes "new" ≡ codes "old") → ⊥ }
{}
