// Checks the bytes of an image: returns a summary if they are accepted, and otherwise the reason.

ghost use Rattle.std.specs.Prelude.{◌≡◌, ◌≤◌, List, ℕ, IfErr, IfOk, None, length};
ghost use Rattle.lfs_tool.specs.CheckResults.{AreRejectedBytes, IsCheckResult, AreCheckedSizes, IsRefusalReason, IsBytesVerdict, IsWrongSuperblockField};

use crate::ImageLayout;
use crate::image_devices::ram_device_of;
use crate::stream::IMAGE_MAX;
use crate::superblocks::wrong_superblock_field;
use crate::verdict::{CheckResult, CheckedSizes, ImageVerdict, RefusalReason, WrongNumber};
use crate::verdicts::check_device_image;
use lfs_device::Error;
use std::alloc::Global;

// Returns the verdict on an image, or None if no image of this layout has this length.
fn image_verdict(
    alloc: Global,
    image: Vec<u8>,
    layout: ImageLayout,
) -> Result<Option<ImageVerdict>, Error>
    ensures judged { IfOk result (IsBytesVerdict layout image.items) }
    ensures err { IfErr result (λ e. e ≡ Error.NoMemory) }
{
    match ram_device_of(image, layout) {
        Ok(device) => {
            let verdict = check_device_image(alloc, device)?;
            Ok(Some(verdict))
        }
        Err(_) => Ok(None),
    }
}

// Returns the result for an image that isn't accepted. The reason is the wrong number in its
// superblock, if there is one, and otherwise `reason`.
fn refused_check_result(
    stated: Option<WrongNumber>,
    reason: RefusalReason,
    given: CheckedSizes,
) -> CheckResult
    ensures { (layout : ImageLayout) (image : List ℕ) → AreRejectedBytes layout image → IsWrongSuperblockField layout image stated
        → (stated ≡ None → IsRefusalReason layout image reason) → AreCheckedSizes layout image given → IsCheckResult layout image result }
{
    match stated {
        Some(stated) => CheckResult::Refused {
            reason: RefusalReason::WrongNumber(stated),
            given,
        },
        None => CheckResult::Refused { reason, given },
    }
}

fn check_result_of_verdict(
    stated: Option<WrongNumber>,
    verdict: Option<ImageVerdict>,
    given: CheckedSizes,
) -> CheckResult
    ensures { (layout : ImageLayout) (image : List ℕ) → IsWrongSuperblockField layout image stated → IsBytesVerdict layout image verdict
        → AreCheckedSizes layout image given → IsCheckResult layout image result }
{
    match verdict {
        Some(ImageVerdict::Accepted { summary, orders }) => CheckResult::Accepted {
            summary,
            orders,
        },
        Some(ImageVerdict::Refused(rule)) => {
            refused_check_result(stated, RefusalReason::Broken(rule), given)
        }
        None => refused_check_result(stated, RefusalReason::NoImage, given),
    }
}

fn check_image_bytes(
    alloc: Global,
    image: Vec<u8>,
    layout: ImageLayout,
) -> Result<CheckResult, Error>
    requires { length image.items ≤ 268_435_456 }
    ensures checked { IfOk result (IsCheckResult layout image.items) }
    ensures err { IfErr result (λ e. e ≡ Error.NoMemory) }
{
    let given = CheckedSizes::of(image.len(), layout);
    let stated = wrong_superblock_field(&image, layout.block_size, layout.profile.versions);
    let verdict = image_verdict(alloc, image, layout)?;
    Ok(check_result_of_verdict(stated, verdict, given))
}

/// Checks an image, and returns its summary if it is accepted, or the reason if it isn't. The
/// result is `Accepted` if and only if a mount accepts the image in at least one of the two orders
/// of names. The reason for a refusal is a wrong number in the superblock of block 0 or 1, if there
/// is one. If the superblocks have no wrong number, the reason is the rule at which a mount fails,
/// or `NoImage` if no image can have these sizes.
///
/// An image that is longer than 268,435,456 bytes is refused with `NoImage`, whatever its
/// superblock states.
///
/// Errors: `NoMemory` if memory can't be allocated.
pub fn check_result_of_image(
    alloc: Global,
    image: Vec<u8>,
    layout: ImageLayout,
) -> Result<CheckResult, Error>
    ensures checked { IfOk result (IsCheckResult layout image.items) }
    ensures err { IfErr result (λ e. e ≡ Error.NoMemory) }
{
    if image.len() > IMAGE_MAX {
        let given = CheckedSizes::of(image.len(), layout);
        return Ok(refused_check_result(None, RefusalReason::NoImage, given));
    }
    check_image_bytes(alloc, image, layout)
}
