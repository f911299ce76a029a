// The content of a pair after changes.

ghost use Rattle.std.specs.Prelude.{◌≡◌, true, is_some, IfOk, IfErr, Some, None};
ghost use Rattle.lfs_model.specs.format.Content.{empty_raw_content};
ghost use Rattle.lfs_model.specs.format.Log.{chain_of};
ghost use Rattle.lfs_model.specs.layers.LoggedContent.{IsWellFormed};
ghost use Rattle.lfs_tag.specs.ContentView.{content_view};
ghost use Rattle.lfs_pair.specs.ChangeView.{changes_view};
ghost use Rattle.lfs_pair.specs.Commits.{content_after_changes, changed_log_content};
ghost use Rattle.lfs_pair.specs.Pair.{HeaderHasEnd};

use crate::change::{Change, apply_all_changes};
use crate::pair::Pair;
use lfs_device::Error;
use lfs_tag::{Content, ContentError, Log, MoveState};
use std::alloc::Global;

// Returns the content of an empty log.
fn empty_content<'a>(alloc: Global) -> Content<'a>
    ensures { content_view result ≡ empty_raw_content }
{
    Content {
        slots: Vec::new(alloc),
        tail: None,
        move_state: MoveState::none(),
    }
}

// Returns the content that results from applying changes to an empty log.
pub(crate) fn content_from_empty<'a>(
    alloc: Global,
    changes: &[Change<'a>],
) -> Result<Content<'a>, Error>
    requires { is_some (content_after_changes (Some empty_raw_content) (changes_view changes.now)) ≡ true }
    ensures content { IfOk result (λ c. content_after_changes (Some empty_raw_content) (changes_view changes.now) ≡ Some (content_view c)) }
    ensures logged { IfOk result (λ c. IsWellFormed (content_view c)) }
    ensures errors { IfErr result (λ e. e ≡ Error.NoMemory) }
{
    let mut content = empty_content(alloc);
    match apply_all_changes(alloc, &mut content, changes) {
        Ok(()) => Ok(content),
        Err(ContentError::NoMemory) => Err(Error::NoMemory),
        Err(ContentError::Malformed) => unreachable!(),
    }
}

// Returns the content that results from applying changes to a pair. `block` contains the bytes of
// the active block, whose checksums aren't verified again.
pub(crate) fn changed_content<'a, 'b: 'a>(
    alloc: Global,
    pair: &Pair,
    block: &'a [u8],
    changes: &[Change<'b>],
) -> Result<Content<'a>, Error>
    requires made { is_some (changed_log_content block.now (changes_view changes.now)) ≡ true }
    requires ends { HeaderHasEnd (chain_of block.now).end (chain_of block.now).last pair.now }
    ensures content { IfOk result (λ c. changed_log_content block.now (changes_view changes.now) ≡ Some (content_view c)) }
    ensures logged { IfOk result (λ c. IsWellFormed (content_view c)) }
    ensures errors { IfErr result (λ e. e ≡ Error.NoMemory) }
{
    let log = Log::with_known_end(block, pair.end, pair.last);
    // Most changes add at most one slot.
    let slot_count = pair.slot_count.saturating_add(1);
    let mut content = match Content::read_with_room(alloc, &log, slot_count) {
        Ok(content) => content,
        Err(ContentError::NoMemory) => return Err(Error::NoMemory),
        Err(ContentError::Malformed) => unreachable!(),
    };
    match apply_all_changes(alloc, &mut content, changes) {
        Ok(()) => Ok(content),
        Err(ContentError::NoMemory) => Err(Error::NoMemory),
        Err(ContentError::Malformed) => unreachable!(),
    }
}
