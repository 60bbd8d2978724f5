// A handle to hints.
ghost use Rattle.std.specs.Prelude.{◌≡◌, ℕ, List};
ghost use Rattle.std.specs.Option.{MatchOption};
ghost use Rattle.std.specs.declared.option.Option.{Option as Maybe};
ghost use Rattle.std.specs.declared.option.Option.TheVariants.{None, Some};

use crate::kept_hints::KeptHints;
use crate::loose::Loose;
use std::alloc::Global;
use std::marker::Model;
use std::ptr::null_mut;

/// A handle to hints, or to none. One is none where its pointer is null.
#[repr(C)]
pub struct HintsHandle {
    at: *mut u8,
    alloc: Global,
    pub ghost hints: { Maybe (List ℕ) },
}

impl Model for HintsHandle {
    ghost use Rattle.kuldebiq.specs.contracts.kept_hints.KeptHints.{the_row};
    ghost use Rattle.kuldebiq.specs.Owned.{owned};

    ghost also_owns = { λ handle. owned the_row handle.alloc handle.at handle.hints };
}

impl HintsHandle {
    pub(crate) fn none(alloc: Global) -> HintsHandle
        ensures { result.hints ≡ None }
    {
        HintsHandle {
            at: null_mut(),
            alloc,
        }
    }

    fn of(loose: Loose<KeptHints, Global>) -> HintsHandle
        ensures { result.hints ≡ Some loose.value }
    {
        let Loose { at, alloc } = loose;
        HintsHandle {
            at: at as *mut u8,
            alloc,
        }
    }

    fn into_loose(self) -> Option<Loose<KeptHints, Global>>
        ensures { MatchOption result (self.hints ≡ None)
            (λ loose. self.hints ≡ Some loose.value) }
    {
        let HintsHandle { at, alloc } = self;
        if at.is_null() {
            None
        } else {
            Some(Loose {
                at: at as *mut KeptHints,
                alloc,
            })
        }
    }

    /// Lets go of what the handle holds.
    pub(crate) fn let_go(self) {
        if let Some(loose) = self.into_loose() {
            drop(loose.into_box());
        }
    }

    /// Takes out what the handle holds. It holds nothing then.
    #[inline(always)]
    pub(crate) fn take(&mut self, alloc: Global) -> Option<Box<KeptHints>>
        ensures hints { MatchOption result (self.old.hints ≡ None)
            (λ kept. self.old.hints ≡ Some kept.value) }
        ensures none { self.new.hints ≡ None }
    {
        let was = std::mem::replace(self, HintsHandle::none(alloc));
        match was.into_loose() {
            Some(loose) => Some(loose.into_box()),
            None => None,
        }
    }

    /// Has the handle hold hints, and lets go of what it held.
    #[inline(always)]
    pub(crate) fn put(&mut self, kept: Box<KeptHints>)
        ensures { self.new.hints ≡ Some kept.value }
    {
        std::mem::replace(self, HintsHandle::of(Loose::of(kept))).let_go();
    }
}

unsafe impl Send for HintsHandle {}
