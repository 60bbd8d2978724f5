// A handle to a map.
ghost use Rattle.std.specs.Prelude.{◌≡◌};
ghost use Rattle.std.specs.Option.{MatchOption};
ghost use Rattle.std.specs.declared.option.Option.{Option as Maybe};
ghost use Rattle.std.specs.declared.option.Option.TheVariants.{None, Some};
ghost use Rattle.log_levels.specs.Shapes.{Held};

use crate::loose::Loose;
use log_levels::LogMap;
use std::alloc::Global;
use std::marker::Model;
use std::ptr::null_mut;

/// A handle to a map, or to none. One is none where its pointer is null.
#[repr(C)]
pub struct MapHandle {
    at: *mut u8,
    alloc: Global,
    pub ghost map: { Maybe Held },
}

impl Model for MapHandle {
    ghost use Rattle.log_levels.specs.contracts.log_map.LogMap.{the_row};
    ghost use Rattle.kuldebiq.specs.Owned.{owned};

    ghost also_owns = { λ handle. owned the_row handle.alloc handle.at handle.map };
}

impl MapHandle {
    pub(crate) fn none(alloc: Global) -> MapHandle
        ensures { result.map ≡ None }
    {
        MapHandle {
            at: null_mut(),
            alloc,
        }
    }

    fn of(loose: Loose<LogMap, Global>) -> MapHandle
        ensures { result.map ≡ Some loose.value }
    {
        let Loose { at, alloc } = loose;
        MapHandle {
            at: at as *mut u8,
            alloc,
        }
    }

    fn into_loose(self) -> Option<Loose<LogMap, Global>>
        ensures { MatchOption result (self.map ≡ None)
            (λ loose. self.map ≡ Some loose.value) }
    {
        let MapHandle { at, alloc } = self;
        if at.is_null() {
            None
        } else {
            Some(Loose {
                at: at as *mut LogMap,
                alloc,
            })
        }
    }

    /// Lets go of what the handle holds.
    pub(crate) fn let_go(self) {
        if let Some(loose) = self.into_loose() {
            drop(loose.into_box());
        }
    }

    /// Takes out what the handle holds. It holds nothing then.
    #[inline(always)]
    pub(crate) fn take(&mut self, alloc: Global) -> Option<Box<LogMap>>
        ensures map { MatchOption result (self.old.map ≡ None)
            (λ held. self.old.map ≡ Some held.value) }
        ensures none { self.new.map ≡ None }
    {
        let was = std::mem::replace(self, MapHandle::none(alloc));
        match was.into_loose() {
            Some(loose) => Some(loose.into_box()),
            None => None,
        }
    }

    /// Has the handle hold a map, and lets go of what it held.
    #[inline(always)]
    pub(crate) fn put(&mut self, held: Box<LogMap>)
        ensures { self.new.map ≡ Some held.value }
    {
        std::mem::replace(self, MapHandle::of(Loose::of(held))).let_go();
    }
}

unsafe impl Send for MapHandle {}
