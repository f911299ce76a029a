// The entries pushed so far, which only the builder's contract uses.

ghost use Rattle.std.specs.Prelude.{◌≡◌};
ghost use Rattle.std.specs.Borrow.{ftrue};
ghost use Rattle.lfs_tag.specs.Builder.{PartialCommit};

use std::marker::Model;

// A zero-sized type that exists only for proofs.
#[derive(Drop)]
pub(crate) struct PushedCommitProof {
    pub(crate) ghost so_far: { PartialCommit },
}

impl Model for PushedCommitProof {
    ghost also_owns = { λ _. ftrue };
}

impl PushedCommitProof {
    // Returns a value for the commit that the caller's proof chooses from the arguments.
    pub(crate) fn with_ghost_commit<S, T>(_before: &S, _pushed: &T) -> PushedCommitProof
        ghost so_far: { PartialCommit }
        ensures { result.so_far ≡ so_far }
    {
        PushedCommitProof {}
    }
}
