// The part of a block's log that decides which block of a pair is active.

ghost use Rattle.std.specs.Prelude.{◌≡◌};
ghost use Rattle.lfs_model.specs.format.Log.{chain_of, block_revision};
ghost use Rattle.lfs_model.specs.format.Content.{has_commit};

use lfs_tag::{Log, Tag};

// What is read from a block to decide whether it is the active block of its pair.
#[derive(Clone, Copy, Drop)]
pub(crate) struct ActiveBlockCandidate {
    pub has_commit: bool,
    pub revision: u32,
    // The offset in bytes at which the log ends, and the tag that the next tag is XORed with.
    pub end: usize,
    pub last: Tag,
}

impl ActiveBlockCandidate {
    // Reads the log of a block whose bytes are `bytes`.
    pub(crate) fn of(bytes: &[u8]) -> ActiveBlockCandidate
        ensures has_commit { result.has_commit ≡ has_commit bytes.now }
        ensures revision { result.revision ≡ block_revision bytes.now }
        ensures end { result.end ≡ (chain_of bytes.now).end }
        ensures last { result.last ≡ (chain_of bytes.now).last }
    {
        let log = Log::read(bytes);
        ActiveBlockCandidate {
            has_commit: log.has_commit(),
            revision: log.revision(),
            end: log.end(),
            last: log.last_log_tag(),
        }
    }
}
