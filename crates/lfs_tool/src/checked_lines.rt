// The lines that `check` prints.

ghost use Rattle.std.specs.Prelude.{◌≡◌, ◌++◌, IfOk, OnOk};
ghost use Rattle.lfs_tool.specs.CheckedLines.{blocks_text, result_text, counts_text, limit_line, order_line, other_limit_text, breach_text, recover_line, reason_text, summary_text, superblock_lines, version_line, writable_line, writable_text, yes_no_text};

use crate::number_text::{NoImageText, PairText, WrongFieldText};
use crate::verdict::{AcceptedOrders, CheckResult, CheckedSizes, ImageSummary, RefusalReason};
use lfs_device::Profile;
use lfs_model::{OtherLimit, ProfileBreach};
use lfs_tag::Superblock;
use std::alloc::{AllocError, Global};
use std::io::Write;
use std::{fmt, io};

// ---- an accepted image

impl fmt::Display for AcceptedOrders {
    ghost use Rattle.std.specs.Prelude.{Some};
    ghost use Rattle.lfs_tool.specs.CheckedLines.{orders_text};

    ghost output = { λ orders. Some (orders_text orders) };

    fn fmt<W: fmt::Write>(&self, f: &mut fmt::Formatter<W>) -> fmt::Result {
        match self {
            AcceptedOrders::LongerFirst => f.write_str("longer-first"),
            AcceptedOrders::ShorterFirst => f.write_str("shorter-first"),
            AcceptedOrders::Either => f.write_str("either"),
        }
    }
}

// Appends the line of a version, unless it is 2.0.
fn push_version_line(text: &mut Vec<u8>, version: u32) -> io::Result<()>
    ensures { OnOk result (text.new.items ≡ text.old.items ++ version_line version) }
{
    if version == Superblock::VERSION {
        return Ok(());
    }
    write!(text, "version {}.{}\n", version / 65536, version % 65536)
}

// Appends the line of a limit, unless the limit is the default.
fn push_limit_line(text: &mut Vec<u8>, name: &str, default: u32, limit: u32) -> io::Result<()>
    ensures { OnOk result (text.new.items ≡ text.old.items ++ limit_line name.now default limit) }
{
    if limit == default {
        return Ok(());
    }
    write!(text, "{name} {limit}\n")
}

// Appends the lines of a superblock, if there is one: its version, unless that is 2.0, and each
// limit that isn't the default.
fn push_superblock_lines(text: &mut Vec<u8>, superblock: Option<Superblock>) -> io::Result<()>
    ensures { OnOk result (text.new.items ≡ text.old.items ++ superblock_lines superblock) }
{
    let Some(superblock) = superblock else {
        return Ok(());
    };
    let default = Profile::new();
    push_version_line(text, superblock.version)?;
    push_limit_line(text, "name_max", default.name_max, superblock.name_max)?;
    push_limit_line(text, "file_max", default.file_max, superblock.file_max)?;
    push_limit_line(text, "attr_max", default.attr_max, superblock.attr_max)
}

fn push_other_limit(text: &mut Vec<u8>, limit: OtherLimit) -> io::Result<()>
    ensures { OnOk result (text.new.items ≡ text.old.items ++ other_limit_text limit) }
{
    match limit {
        OtherLimit::Name(most) => write!(text, "name_max {most}"),
        OtherLimit::File(most) => write!(text, "file_max {most}"),
        OtherLimit::Attr(most) => write!(text, "attr_max {most}"),
    }
}

fn push_profile_breach(
    text: &mut Vec<u8>,
    inline_max: Option<u32>,
    breach: ProfileBreach,
) -> io::Result<()>
    ensures { OnOk result (text.new.items ≡ text.old.items ++ breach_text inline_max breach) }
{
    match breach {
        ProfileBreach::OtherLimits { pair, slot, limit } => {
            let pair = PairText(pair);
            write!(
                text,
                "{pair}, slot {slot}: a superblock with other limits than the options give, "
            )?;
            push_other_limit(text, limit)
        }
        ProfileBreach::LongInline { pair, slot } => {
            let pair = PairText(pair);
            write!(text, "{pair}, slot {slot}: more bytes inline than ")?;
            match inline_max {
                Some(most) => write!(text, "inline_max {most}"),
                None => write!(text, "an eighth of a block"),
            }
        }
        ProfileBreach::EmptyPair { pair } => {
            let pair = PairText(pair);
            write!(text, "{pair}: no entry, but a directory goes on in it")
        }
        ProfileBreach::TooLarge { .. } => {
            text.write_all(b"a pair or an entry is larger than this library writes")
        }
    }
}

fn push_writable(
    text: &mut Vec<u8>,
    inline_max: Option<u32>,
    breach: Option<ProfileBreach>,
) -> io::Result<()>
    ensures { OnOk result (text.new.items ≡ text.old.items ++ writable_text inline_max breach) }
{
    let Some(breach) = breach else {
        return write!(text, "yes");
    };
    write!(text, "no: ")?;
    push_profile_breach(text, inline_max, breach)
}

fn yes_or_no(yes: bool) -> &'static str
    ensures { result.now ≡ yes_no_text yes }
{
    if yes { "yes" } else { "no" }
}

fn push_counts(text: &mut Vec<u8>, summary: &ImageSummary) -> io::Result<()>
    ensures { OnOk result (text.new.items ≡ text.old.items ++ counts_text summary.now) }
{
    let (files, directories) = (summary.files, summary.directories);
    write!(text, "ok\nfiles {files}\ndirectories {directories}\n")
}

fn push_blocks(text: &mut Vec<u8>, summary: &ImageSummary) -> io::Result<()>
    ensures { OnOk result (text.new.items ≡ text.old.items ++ blocks_text summary.now) }
{
    let (used, blocks) = (summary.used, summary.blocks);
    let free = summary.blocks.saturating_sub(summary.used);
    write!(text, "used {used} of {blocks} blocks\nfree {free}\n")
}

fn push_order_line(text: &mut Vec<u8>, orders: AcceptedOrders) -> io::Result<()>
    ensures { OnOk result (text.new.items ≡ text.old.items ++ order_line orders) }
{
    write!(text, "order {orders}\n")
}

fn push_recover_line(text: &mut Vec<u8>, recover: bool) -> io::Result<()>
    ensures { OnOk result (text.new.items ≡ text.old.items ++ recover_line recover) }
{
    write!(text, "recover {}\n", yes_or_no(recover))
}

fn push_writable_line(text: &mut Vec<u8>, summary: &ImageSummary) -> io::Result<()>
    ensures { OnOk result (text.new.items ≡ text.old.items ++ writable_line summary.now.inline_max summary.now.breach) }
{
    write!(text, "writable ")?;
    push_writable(text, summary.inline_max, summary.breach)?;
    write!(text, "\n")
}

// Appends the lines of an accepted image.
fn push_summary(
    text: &mut Vec<u8>,
    summary: &ImageSummary,
    orders: AcceptedOrders,
) -> io::Result<()>
    ensures { OnOk result (text.new.items ≡ text.old.items ++ summary_text summary.now orders) }
{
    push_counts(text, summary)?;
    push_blocks(text, summary)?;
    push_order_line(text, orders)?;
    push_superblock_lines(text, summary.superblock)?;
    push_recover_line(text, summary.recover)?;
    push_writable_line(text, summary)
}

// ---- the reason for a refusal

fn push_refusal_reason(
    text: &mut Vec<u8>,
    given: &CheckedSizes,
    reason: &RefusalReason,
) -> io::Result<()>
    ensures { OnOk result (text.new.items ≡ text.old.items ++ reason_text given.now reason.now) }
{
    match reason {
        RefusalReason::WrongNumber(stated) => {
            let (given, stated) = (*given, *stated);
            write!(text, "{}", WrongFieldText { given, stated })
        }
        RefusalReason::NoImage => write!(text, "{}", NoImageText(*given)),
        RefusalReason::Broken(rule) => text.write_all(&rule.line),
    }
}

fn push_check_result(text: &mut Vec<u8>, checked: &CheckResult) -> io::Result<()>
    ensures { OnOk result (text.new.items ≡ text.old.items ++ result_text checked.now) }
{
    match checked {
        CheckResult::Accepted { summary, orders } => push_summary(text, summary, *orders),
        CheckResult::Refused { reason, given } => {
            write!(text, "corrupt\n")?;
            push_refusal_reason(text, given, reason)?;
            write!(text, "\n")
        }
    }
}

/// Returns the text that `check` prints after `writable no`. The text states the rule of the
/// writing profile that the image breaks, and the location.
///
/// Errors: `AllocError` if memory can't be allocated.
pub fn profile_breach_text(
    alloc: Global,
    inline_max: Option<u32>,
    breach: ProfileBreach,
) -> Result<Vec<u8>, AllocError>
    ensures { IfOk result (λ text. text.items ≡ breach_text inline_max breach) }
{
    let mut text = Vec::new(alloc);
    match push_profile_breach(&mut text, inline_max, breach) {
        Ok(()) => Ok(text),
        Err(_) => Err(AllocError),
    }
}

/// Returns the line that `check` prints after `corrupt`, without its newline. The line states why
/// the image isn't accepted.
///
/// Errors: `AllocError` if memory can't be allocated.
pub fn refusal_reason_text(
    alloc: Global,
    given: &CheckedSizes,
    reason: &RefusalReason,
) -> Result<Vec<u8>, AllocError>
    ensures { IfOk result (λ text. text.items ≡ reason_text given.now reason.now) }
{
    let mut text = Vec::new(alloc);
    match push_refusal_reason(&mut text, given, reason) {
        Ok(()) => Ok(text),
        Err(_) => Err(AllocError),
    }
}

/// Returns the lines that `check` prints for a result.
///
/// Errors: `AllocError` if memory can't be allocated.
pub fn check_result_lines(alloc: Global, checked: &CheckResult) -> Result<Vec<u8>, AllocError>
    ensures { IfOk result (λ text. text.items ≡ result_text checked.now) }
{
    let mut text = Vec::new(alloc);
    match push_check_result(&mut text, checked) {
        Ok(()) => Ok(text),
        Err(_) => Err(AllocError),
    }
}
