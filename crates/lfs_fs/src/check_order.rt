// Checks in order. The first check that fails determines the refusal.

ghost use Rattle.std.specs.Prelude.{◌≡◌, ◌&&◌};
ghost use Rattle.lfs_model.specs.session.Session.{first_refusal};
ghost use Rattle.lfs_fs.specs.Replies.{result_unless_refused};

use lfs_device::Error;
use lfs_lookup::Refusal;

// Returns the refusal of the first check that fails.
pub(crate) fn find_first_refusal(checks: &[Option<Refusal>]) -> Option<Refusal>
    ensures { result ≡ first_refusal checks.now }
{
    for check in checks {
        if check.is_some() {
            return *check;
        }
    }
    None
}

// Returns `value`, or the error of the first check that fails.
pub(crate) fn value_or_refusal<T: Drop>(checks: &[Option<Refusal>], value: T) -> Result<T, Error>
    ensures { result ≡ result_unless_refused (first_refusal checks.now) value }
{
    match find_first_refusal(checks) {
        Some(refusal) => Err(refusal.error()),
        None => Ok(value),
    }
}

// Returns whether both arguments are true.
pub(crate) fn are_both_true(first: bool, second: bool) -> bool
    ensures { result ≡ (first && second) }
{
    first && second
}
