// A handle to an index.
ghost use Rattle.std.specs.Prelude.{◌≡◌};
ghost use Rattle.std.specs.Option.{MatchOption};
ghost use Rattle.std.specs.declared.option.Option.{Option as Maybe};
ghost use Rattle.std.specs.declared.option.Option.TheVariants.{None, Some};
ghost use Rattle.levels.specs.Indexes.{PgmIndex};

use crate::kept_index::KeptIndex;
use crate::loose::Loose;
use std::alloc::Global;
use std::marker::Model;
use std::ptr::null_mut;

/// A handle to an index, or to none. One is none where its pointer is null.
#[repr(C)]
pub struct IndexHandle {
    at: *mut u8,
    alloc: Global,
    pub ghost index: { Maybe PgmIndex },
}

impl Model for IndexHandle {
    ghost use Rattle.kuldebiq.specs.contracts.kept_index.KeptIndex.{the_row};
    ghost use Rattle.kuldebiq.specs.Owned.{owned};

    ghost also_owns = { λ handle. owned the_row handle.alloc handle.at handle.index };
}

impl IndexHandle {
    pub(crate) fn none(alloc: Global) -> IndexHandle
        ensures { result.index ≡ None }
    {
        IndexHandle {
            at: null_mut(),
            alloc,
        }
    }

    fn of(loose: Loose<KeptIndex, Global>) -> IndexHandle
        ensures { result.index ≡ Some loose.value }
    {
        let Loose { at, alloc } = loose;
        IndexHandle {
            at: at as *mut u8,
            alloc,
        }
    }

    fn into_loose(self) -> Option<Loose<KeptIndex, Global>>
        ensures { MatchOption result (self.index ≡ None)
            (λ loose. self.index ≡ Some loose.value) }
    {
        let IndexHandle { at, alloc } = self;
        if at.is_null() {
            None
        } else {
            Some(Loose {
                at: at as *mut KeptIndex,
                alloc,
            })
        }
    }

    /// Lets go of what the handle holds.
    fn let_go(self) {
        if let Some(loose) = self.into_loose() {
            drop(loose.into_box());
        }
    }

    /// Takes out what the handle holds. It holds nothing then.
    #[inline(always)]
    pub(crate) fn take(&mut self, alloc: Global) -> Option<Box<KeptIndex>>
        ensures index { MatchOption result (self.old.index ≡ None)
            (λ kept. self.old.index ≡ Some kept.value) }
        ensures none { self.new.index ≡ None }
    {
        let was = std::mem::replace(self, IndexHandle::none(alloc));
        match was.into_loose() {
            Some(loose) => Some(loose.into_box()),
            None => None,
        }
    }

    /// Has the handle hold an index, and lets go of what it held.
    #[inline(always)]
    pub(crate) fn put(&mut self, kept: Box<KeptIndex>)
        ensures { self.new.index ≡ Some kept.value }
    {
        std::mem::replace(self, IndexHandle::of(Loose::of(kept))).let_go();
    }
}

unsafe impl Send for IndexHandle {}
