// Marks the threaded list of metadata pairs as failed after an error.

ghost use Rattle.std.specs.Prelude.{◌≡◌, ◌||◌, is_err};

use lfs_device::{BlockDevice, Error};
use lfs_thread::Thread;

// Marks `thread`, the threaded list of metadata pairs, as failed if a call returned an error.
pub(crate) fn fail_on_error<D: BlockDevice, X>(thread: &mut Thread<D>, answer: &Result<X, Error>)
    ensures { thread.new ≡ record thread.old { failed = is_err answer.now || thread.old.failed } }
{
    if answer.is_err() {
        thread.fail();
    }
}
