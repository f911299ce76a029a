// The number of slots in a log.

ghost use Rattle.std.specs.Prelude.{◌≡◌, ◌+◌, ◌≤◌, ◌<◌, ◌^◌, length, max};
ghost use Rattle.lfs_model.specs.format.Log.{block_entries};
ghost use Rattle.lfs_tag.specs.SlotCount.{slot_count_after_entry, count_after};
ghost use Rattle.lfs_tag.specs.LogEntryView.{log_entry_view};

use crate::entry::Entry;
use crate::kinds::{CREATE, NAME_CLASS, SPLICE_CLASS};
use crate::log::Log;

// Returns the number of slots in a log that isn't malformed. Requires a block of at most 65,536
// bytes.
#[tactic(auto, using(crate::proofs::Ranks::few_entries))]
pub(crate) fn slot_count(log: &Log<'_>) -> usize
    requires { length log.now ≤ 2 ^ 16 }
    ensures count { result ≡ count_after 0 (block_entries log.now) }
    ensures few { result < 17408 }
{
    let mut count = 0;
    for entry in log.entries() {
        count = count_after_entry(count, &entry);
    }
    count
}

// Returns the number of slots after an entry is applied to `count` slots.
fn count_after_entry(count: usize, entry: &Entry<'_>) -> usize
    requires { count < 2 ^ 32 }
    ensures count { result ≡ slot_count_after_entry count (log_entry_view entry.now) }
    ensures few { result ≤ max count 1024 + 1 }
{
    let id = usize::from(entry.tag.id());
    let class = entry.tag.class();
    if class == NAME_CLASS {
        count.max(id + 1)
    } else if class != SPLICE_CLASS {
        count
    } else if entry.tag.kind() == CREATE {
        if id <= count { count + 1 } else { count }
    } else if id < count {
        count - 1
    } else {
        count
    }
}
