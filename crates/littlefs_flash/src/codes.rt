// Converts results that only a session has to numbers for C.

ghost use Rattle.std.specs.Prelude.{◌≡◌, pos};
ghost use Rattle.littlefs_values.specs.Codes.{result_code};
ghost use Rattle.littlefs_flash.specs.Codes.{gstate_number, order_number, optional_breach_number};

use lfs_device::Error;
use lfs_fs::Gstate;
use lfs_model::{NameOrder, ProfileBreach};
use littlefs_values::error_code;

// Returns the sum of 1 if metadata pairs may be orphans, and 2 if a move is pending.
fn recovery_bits(gstate: &Gstate) -> i64
    ensures { result ≡ pos (gstate_number gstate.now) }
{
    match (gstate.sync, gstate.moving.is_some()) {
        (false, false) => 0,
        (true, false) => 1,
        (false, true) => 2,
        (true, true) => 3,
    }
}

// Returns the bits of the global state, or the negated error number.
pub(crate) fn gstate_code(answer: Result<Gstate, Error>) -> i64
    ensures { result ≡ result_code gstate_number answer }
{
    match answer {
        Ok(gstate) => recovery_bits(&gstate),
        Err(error) => error_code(error),
    }
}

// Returns 0 for littlefs's order of names, and 1 for the other order.
pub(crate) fn order_code(order: NameOrder) -> i64
    ensures { result ≡ pos (order_number order) }
{
    match order {
        NameOrder::LongerFirst => 0,
        NameOrder::ShorterFirst => 1,
    }
}

// Returns the number of the broken rule, or 0 for None.
fn breach_code(reason: Option<ProfileBreach>) -> i64
    ensures { result ≡ pos (optional_breach_number reason) }
{
    match reason {
        None => 0,
        Some(ProfileBreach::OtherLimits { .. }) => 1,
        Some(ProfileBreach::LongInline { .. }) => 2,
        Some(ProfileBreach::EmptyPair { .. }) => 3,
        Some(ProfileBreach::TooLarge { .. }) => 4,
    }
}

// Returns the number of the broken rule, 0 for None, or the negated error number.
pub(crate) fn breach_result_code(answer: Result<Option<ProfileBreach>, Error>) -> i64
    ensures { result ≡ result_code optional_breach_number answer }
{
    match answer {
        Ok(reason) => breach_code(reason),
        Err(error) => error_code(error),
    }
}
