//! Which messages a peer ignored when it last saw them.
ghost use Rattle.std.specs.Prelude.{◌≡◌, OnOk, false, if◌then◌else◌, true};
ghost use Rattle.gs_base.specs.Names.{same_id};
ghost use Rattle.gs_base.specs.declared.names.MsgId.{MsgId as MsgIdValue};
ghost use Rattle.gs_counts.specs.Fates.{was_ignored};
ghost use Rattle.gs_counts.specs.Verdicts.{ignored_after, ignored_by};

use gs_base::{Mark, MsgId, Verdict};
use indexmap::IndexMap;
use std::alloc::{AllocError, Global};

/// The messages that a peer ever ignored. For each it says whether the peer ignored it when it last saw it.
#[derive(Drop)]
pub(crate) struct Verdicts {
    ignored: IndexMap<MsgId, bool>,
}

impl Verdicts {
    pub(crate) fn new(alloc: Global) -> Verdicts
        ensures { (id : MsgIdValue) → was_ignored result id ≡ false }
    {
        Verdicts {
            ignored: IndexMap::new(alloc),
        }
    }

    /// Whether no message was ever ignored.
    pub(crate) fn is_empty(&self) -> bool
        ensures { result ≡ true → (id : MsgIdValue) → was_ignored self.now id ≡ false }
    {
        self.ignored.is_empty()
    }

    /// Whether the message was ignored when it was last seen.
    pub(crate) fn was_ignored(&self, id: &MsgId) -> bool
        ensures { result ≡ was_ignored self.now id.now }
    {
        match self.ignored.get(id) {
            Some(is_ignored) => *is_ignored,
            None => false,
        }
    }

    /// Notes what marks say.
    pub(crate) fn note_marks(&mut self, marks: &[Mark]) -> Result<(), AllocError>
        ensures { OnOk result ((id : MsgIdValue) → was_ignored self.new id
            ≡ ignored_after id marks.now (was_ignored self.old id)) }
    {
        for mark in marks {
            self.note_mark(mark)?;
        }
        Ok(())
    }

    /// Notes what a mark says. Each mark is named, so that a new one must be decided on.
    fn note_mark(&mut self, mark: &Mark) -> Result<(), AllocError>
        ensures { OnOk result ((id : MsgIdValue) → was_ignored self.new id
            ≡ ignored_by id mark.now (was_ignored self.old id)) }
    {
        match mark {
            Mark::Seen(id, verdict) => self.see(id, *verdict == Verdict::Ignore),
            Mark::First(_, _, _) => Ok(()),
            Mark::Invalid(_, _) => Ok(()),
            Mark::Near(_, _, _) => Ok(()),
            Mark::Deficit(_, _, _) => Ok(()),
            Mark::Misbehaviour(_) => Ok(()),
            Mark::Cached(_, _) => Ok(()),
            Mark::Answered(_, _) => Ok(()),
            Mark::Offered(_) => Ok(()),
            Mark::Asked(_, _) => Ok(()),
            Mark::Grafted(_, _) => Ok(()),
            Mark::Pruned(_, _) => Ok(()),
            Mark::Fanned(_, _) => Ok(()),
            Mark::Unfanned(_, _) => Ok(()),
            Mark::Backoff(_, _, _) => Ok(()),
            Mark::Published(_) => Ok(()),
        }
    }

    /// Notes that a message was seen. A message that was never ignored is kept only if it is ignored now.
    fn see(&mut self, id: &MsgId, is_ignored: bool) -> Result<(), AllocError>
        ensures { OnOk result ((other : MsgIdValue) → was_ignored self.new other
            ≡ (if same_id id.now other then is_ignored else was_ignored self.old other)) }
    {
        if !is_ignored && !self.was_ignored(id) {
            return Ok(());
        }
        self.ignored.insert(*id, is_ignored)?;
        Ok(())
    }
}
