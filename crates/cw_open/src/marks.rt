//! Markers of how transactions ended.
ghost use Rattle.std.specs.Prelude.{◌≡◌, ◌≤◌, ◌<◌, ◌↔◌, IsTrue, false};
ghost use Rattle.cw_txn.specs.Legal.{epoch_of};
ghost use Rattle.cw_offset.specs.Acceptance.{IsKnown, IsAllowedMark};

use crate::entries::EntryList;
use crate::tags::Tags;
use cw_types::Tag;

/// Whether a transaction's epoch isn't ahead of its producer's last.
pub(crate) fn is_known(entries: &EntryList, tag: &Tag) -> bool
    ensures { IsTrue result ↔ IsKnown entries.now tag.now }
{
    tag.epoch.0 <= entries.epoch_of(&tag.tid)
}

/// Whether a marker may stand behind others of its log.
pub(crate) fn is_allowed_mark(
    entries: &EntryList,
    there: &Tags,
    marked: &Tags,
    tag: &Tag,
    committed: bool,
) -> bool
    ensures { IsTrue result ↔ IsAllowedMark entries.now there.now marked.now tag.now committed }
{
    is_known(entries, tag)
        && there.has(tag)
        && !marked.has(tag)
        && committed == entries.is_committed(tag)
        && may_say(entries, tag, committed)
}

// Whether a transaction may be told to be committed, or aborted: then its producer has a later epoch.
fn may_say(entries: &EntryList, tag: &Tag, committed: bool) -> bool
    ensures { IsTrue result ↔ (committed ≡ false → tag.now.epoch.0 < epoch_of tag.now.tid entries.now) }
{
    committed || tag.epoch.0 < entries.epoch_of(&tag.tid)
}
