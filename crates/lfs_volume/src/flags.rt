// The flags with which a file of a volume is opened.

ghost use Rattle.std.specs.Prelude.{◌≡◌};
ghost use Rattle.lfs_fs.specs.FlagsView.{flags_view};
ghost use Rattle.lfs_volume.specs.Calls.{session_flags, volume_flags_allowed};

use bitflags::Flags;
use lfs_fs::OpenFlags;

// The bits of all known flags.
const NAMED: u32 = 0xf03;

/// Returns whether a volume can open a file with these flags. The flags must include `READ`,
/// `WRITE` or both. `CREATE`, `TRUNCATE` and `APPEND` are allowed only with `WRITE`, and
/// `EXCLUSIVE` only with `CREATE`. Unknown bits aren't allowed.
pub fn allows_volume_flags(flags: OpenFlags) -> bool
    ensures { result ≡ volume_flags_allowed (flags_view flags) }
{
    let writes = flags.contains(OpenFlags::WRITE);
    let creates = flags.contains(OpenFlags::CREATE);
    let changes = creates
        || flags.contains(OpenFlags::TRUNCATE)
        || flags.contains(OpenFlags::APPEND);
    if flags.bits() & NAMED != flags.bits() {
        return false;
    }
    (flags.contains(OpenFlags::READ) || writes)
        && (writes || !changes)
        && (creates || !flags.contains(OpenFlags::EXCLUSIVE))
}

// Returns the flags with which the volume opens a file in the session. This open checks whether the
// file may be opened, and creates it if necessary.
pub(crate) fn session_flags(flags: OpenFlags) -> OpenFlags
    ensures { flags_view result ≡ session_flags (flags_view flags) }
{
    if !flags.contains(OpenFlags::WRITE) {
        return OpenFlags::READ;
    }
    match (
        flags.contains(OpenFlags::CREATE),
        flags.contains(OpenFlags::EXCLUSIVE),
    ) {
        (true, true) => OpenFlags::from_bits_retain(0x302),
        (true, false) => OpenFlags::from_bits_retain(0x102),
        (false, true) => OpenFlags::from_bits_retain(0x202),
        (false, false) => OpenFlags::WRITE,
    }
}

// Returns whether an open with these flags truncates the file to 0 bytes.
pub(crate) fn truncates(flags: OpenFlags) -> bool
    ensures { result ≡ (flags_view flags).truncate }
{
    flags.contains(OpenFlags::TRUNCATE)
}
