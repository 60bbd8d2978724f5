// Doors, through which readers look.
ghost use Rattle.std.specs.Prelude.{◌≡◌, ◌+◌, ◌≤◌, ℕ, min, true, Contains, Result};
ghost use Rattle.std.specs.Prelude.{OnOk, OnErr};
ghost use Rattle.edge.specs.Risen.{HasRisen};
ghost use Rattle.published.specs.Histories.{Front, IsLookOf};

use crate::reader::{Look, Reader};

/// What enters a door: a reader that isn't looking.
pub type Inner = Reader;

/// What a door lets in: the reader with the version that it looks at.
pub type Inside = Look;

/// The outside between readers and what is published. It counts whom it refuses.
pub trait Door {
    /// How many were refused. It never falls.
    ghost refused: { Self → ℕ };

    /// A call of `enter` may lead from a door, with this answer, to this door.
    ghost enters: { Self → Result Front Front → Self → Type 0 };

    /// Lets the reader in, or hands it back as it was.
    ///
    /// # Errors
    ///
    /// The reader, only where the count rose in this call, or stands at its last value.
    fn enter(&mut self, inner: Inner) -> Result<Inside, Inner>
        ensures look { IsLookOf inner result }
        ensures call { enters self.old result self.new }
        ensures never_falls { refused self.old ≤ refused self.new }
        ensures passed { OnOk result (refused self.new ≡ refused self.old) }
        ensures refused { OnErr result (HasRisen (refused self.old) (refused self.new)) };
}

/// The door that refuses nobody by itself. Where no version is had from the copies that are
/// published, it counts a refusal.
#[derive(Drop)]
pub struct PlainDoor {
    refusals: u64,
}

impl PlainDoor {
    /// A door that has refused nobody. Takes no memory.
    pub fn new() -> PlainDoor
        ensures { ⟦<PlainDoor as Door>⟧.refused result ≡ 0 }
    {
        PlainDoor { refusals: 0 }
    }
}

impl Door for PlainDoor {
    ghost use Rattle.std.specs.Prelude.{⊤};

    ghost refused = { λ door. door.refusals };

    ghost enters = { λ _ _ _. ⊤ };

    fn enter(&mut self, inner: Inner) -> Result<Inside, Inner> {
        inner.look(&mut self.refusals)
    }
}

/// A door that refuses the calls of these numbers, counted from 1, and else is a plain one.
///
/// The number of calls stays at its last value.
#[derive(Drop)]
pub struct ShutDoor {
    failing: Vec<u64>,
    calls: u64,
    turned_away: u64,
    plain: PlainDoor,
}

impl ShutDoor {
    ghost use Rattle.published.specs.Doors.{new_shut, shut_of};

    /// A door that has refused nobody. Takes no memory.
    pub fn new(failing: Vec<u64>) -> ShutDoor
        ensures refused { ⟦<ShutDoor as Door>⟧.refused result ≡ 0 }
        ensures shut { shut_of result ≡ new_shut failing.items }
    {
        ShutDoor {
            failing,
            calls: 0,
            turned_away: 0,
            plain: PlainDoor::new(),
        }
    }
}

impl Door for ShutDoor {
    ghost use Rattle.published.specs.Doors.{RefusesWhere, shut_of};

    ghost refused = { λ door. door.turned_away };

    ghost enters = { λ old result new. RefusesWhere (shut_of old) result (shut_of new) };

    fn enter(&mut self, inner: Inner) -> Result<Inside, Inner> {
        if is_listed(&mut self.calls, &self.failing) {
            self.turned_away = self.turned_away.saturating_add(1);
            return Err(inner);
        }
        match self.plain.enter(inner) {
            Ok(inside) => Ok(inside),
            Err(inner) => {
                self.turned_away = self.turned_away.saturating_add(1);
                Err(inner)
            }
        }
    }
}

/// Counts a call, and says whether it is to be refused.
fn is_listed(calls: &mut u64, failing: &[u64]) -> bool
    ensures counted { calls.new ≡ min (calls.old + 1) 18446744073709551615 }
    ensures listed { result ≡ true → Contains failing.now calls.new }
    ensures others { Contains failing.now calls.new → result ≡ true }
{
    *calls = calls.saturating_add(1);
    failing.contains(calls)
}
