// Judges an image: returns a summary if it is accepted, and otherwise a rule that it breaks.

ghost use Rattle.std.specs.Prelude.{◌≡◌, ◌⊎◌, List, IfErr, IfOk};
ghost use Rattle.lfs_device.specs.RamDevice.{ram_blocks, ram_geometry};
ghost use Rattle.lfs_device.specs.DeviceDisk.{disk_of_blocks};
ghost use Rattle.lfs_model.specs.format.Disk.{disk_with_order};
ghost use Rattle.lfs_model.specs.layers.Violations.{Breaks};
ghost use Rattle.lfs_model.specs.session.History.{CallEvent};
ghost use Rattle.lfs_model.specs.declared.order.NameOrder.TheVariants.{LongerFirst, ShorterFirst};
ghost use Rattle.lfs_mount.specs.ReadImage.{IsReadImage};
ghost use Rattle.lfs_tool.specs.Verdict.{IsAcceptedThread, IsDiskVerdict};

use crate::summaries::summary_of_thread;
use crate::verdict::{AcceptedOrders, ImageVerdict};
use crate::violation_lines::broken_rule;
use lfs_device::{Error, RamDevice};
use lfs_model::{NameOrder, Violation};
use lfs_mount::{ImageFindings, MountError, read_and_check};
use lfs_thread::Thread;
use std::alloc::Global;

// Returns the rule to report for an image. The image breaks `longer` with longer names first, and
// `shorter` with shorter names first. A wrong order of names is reported only if both rules are
// about that order.
fn reported_rule(longer: Violation, shorter: Violation) -> Violation
    ensures { (result ≡ longer) ⊎ (result ≡ shorter) }
{
    match (longer, shorter) {
        (Violation::Names { .. }, Violation::Names { .. }) => longer,
        (Violation::Names { .. }, _) => shorter,
        _ => longer,
    }
}

// Returns the verdict on the image of a device. The image breaks the rule `longer` with longer
// names first, and the rule `shorter` with shorter names first.
fn refused_image_verdict(
    alloc: Global,
    device: RamDevice,
    longer: Violation,
    shorter: Violation,
) -> Result<ImageVerdict, Error>
    requires longer { Breaks (disk_with_order LongerFirst (disk_of_blocks (ram_geometry device) (ram_blocks device))) longer }
    requires shorter { Breaks (disk_with_order ShorterFirst (disk_of_blocks (ram_geometry device) (ram_blocks device))) shorter }
    ensures verdict { IfOk result (IsDiskVerdict (disk_of_blocks (ram_geometry device) (ram_blocks device))) }
    ensures err { IfErr result (λ e. e ≡ Error.NoMemory) }
{
    let rule = broken_rule(alloc, device, reported_rule(longer, shorter), shorter)?;
    Ok(ImageVerdict::Refused(rule))
}

// Returns the verdict on an image that is accepted in the orders of names `orders`, which include
// `order`.
fn accepted_image_verdict(
    alloc: Global,
    mut thread: Thread<RamDevice>,
    root: usize,
    order: NameOrder,
    orders: AcceptedOrders,
) -> Result<ImageVerdict, Error>
    requires { IsAcceptedThread thread root order orders }
    ensures verdict { IfOk result (IsDiskVerdict (disk_with_order LongerFirst thread.kept.disk)) }
    ensures err { IfErr result (λ e. e ≡ Error.NoMemory) }
{
    thread.set_order(order);
    match summary_of_thread(alloc, &mut thread, root) {
        Ok(summary) => Ok(ImageVerdict::Accepted { summary, orders }),
        // A device in memory never fails, so memory ran out.
        Err(_) => Err(Error::NoMemory),
    }
}

// Returns the verdict on an image, given what the mount found.
fn verdict_after_mount(
    alloc: Global,
    thread: Thread<RamDevice>,
    findings: ImageFindings,
) -> Result<ImageVerdict, Error>
    requires { (history : List CallEvent) × IsReadImage thread.kept.disk history thread findings }
    ensures verdict { IfOk result (IsDiskVerdict (disk_with_order LongerFirst thread.kept.disk)) }
    ensures err { IfErr result (λ e. e ≡ Error.NoMemory) }
{
    let root = findings.root;
    let violations = findings.violations;
    match (violations.longer_first, violations.shorter_first) {
        (None, None) => accepted_image_verdict(
            alloc,
            thread,
            root,
            NameOrder::LongerFirst,
            AcceptedOrders::Either,
        ),
        (None, Some(_)) => accepted_image_verdict(
            alloc,
            thread,
            root,
            NameOrder::LongerFirst,
            AcceptedOrders::LongerFirst,
        ),
        (Some(_), None) => accepted_image_verdict(
            alloc,
            thread,
            root,
            NameOrder::ShorterFirst,
            AcceptedOrders::ShorterFirst,
        ),
        (Some(longer), Some(shorter)) => {
            refused_image_verdict(alloc, thread.into_device(), longer, shorter)
        }
    }
}

/// Judges the image of a device in memory. Returns the image's summary if the image is accepted, or
/// otherwise a rule that it breaks. The verdict is `Accepted` if and only if a mount accepts the
/// image in at least one of the two orders of names.
///
/// Errors: `NoMemory` if memory can't be allocated.
pub fn check_device_image(alloc: Global, device: RamDevice) -> Result<ImageVerdict, Error>
    ensures verdict { IfOk result (IsDiskVerdict (disk_of_blocks (ram_geometry device) (ram_blocks device))) }
    ensures err { IfErr result (λ e. e ≡ Error.NoMemory) }
{
    match read_and_check(alloc, device) {
        Ok(image) => verdict_after_mount(alloc, image.thread, image.findings),
        Err((device, error)) => match error {
            // The image breaks this rule in either order of names.
            MountError::Corrupt(violation) => refused_image_verdict(
                alloc, device, violation, violation,
            ),
            error => Err(error.into()),
        },
    }
}
