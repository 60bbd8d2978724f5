// The two copies that readers take, their rule, and showing a version in them.
ghost use Rattle.std.specs.Prelude.{◌≡◌, Some, None, drop, IfOk};
ghost use Rattle.left_right.specs.Sides.{view};
ghost use Rattle.published.specs.Histories.{Front};
ghost use Rattle.published.specs.Rules.{GoesOn, IsLastOf};

use crate::history::Prefix;
use crate::version::Version;
use atomic_table::{Join, Split};
use budget::NoMemory;
use crossbeam_utils::rule::{Outcome, Protocol};
use left_right::reader::Reader;
use left_right::writer::Writer;
use std::sync::Wait;

/// The rule: the version that is shown is of the history that each one knows who stands at the
/// copies, and begins with all that this one saw. A new reader has seen nothing before it was told.
pub struct OnlyGrows;

impl Protocol<Version, Option<Prefix>> for OnlyGrows {
    ghost use Rattle.std.specs.Prelude.{None};
    ghost use Rattle.published.specs.Rules.{BeginsWithSeen};

    ghost holds = { BeginsWithSeen };

    ghost first = { None };
}

/// The step of a look, and the one that shows a version: it is seen.
pub struct Sees;

impl Outcome<Version, Option<Prefix>> for Sees {
    ghost use Rattle.published.specs.Rules.{Sees as sees};

    ghost then = { sees };
}

/// The step that tells a new reader what is shown.
pub struct Tells;

impl Split<Option<Prefix>> for Tells {
    ghost left = { λ v. v };

    ghost right = { λ v. v };
}

/// The step by which a new reader has seen it.
pub struct Knows;

impl Join<Option<Prefix>> for Knows {
    ghost use Rattle.std.specs.Prelude.{None};
    ghost use Rattle.published.specs.Rules.{told};

    ghost both = { told };

    ghost spent = { None };
}

/// Both copies, as the writer holds them. What readers take is `desk.shown.value`.
pub type Copies = Writer<Version, Version, Option<Prefix>, OnlyGrows>;

/// A reader's place at the copies.
pub type Place = Reader<Version, Option<Prefix>, OnlyGrows>;

/// Shows readers this version. It waits for those that look at the one before the last.
///
/// Where the place in the queue or a share of the map isn't had, it asks again. Neither is known to
/// come: [`with_room`] took the queue's room, and a share takes no memory.
pub fn show<R: Wait>(rt: &R, copies: Copies, version: Version) -> Copies
    requires more { GoesOn copies.desk.shown.value version }
    ensures shown { result.desk.shown.value ≡ version }
    ensures known { view result.desk.place ≡ Some version }
{
    turned(rt, queued(rt, copies, version))
}

/// Puts the version behind those that wait to be shown.
fn queued<R: Wait>(rt: &R, copies: Copies, version: Version) -> Copies
    ensures last { IsLastOf (drop result.behind result.log.items) version }
    ensures shown { result.desk.shown.value ≡ copies.desk.shown.value }
{
    let mut copies = copies;
    let mut version = version;
    for _turn in rt.forever() {
        match copies.append(version) {
            Ok(()) => return copies,
            Err(back) => version = back,
        }
    }
    unreachable!()
}

/// Shows the last version that waits.
fn turned<R: Wait>(rt: &R, copies: Copies) -> Copies
    requires some { (last : Front) × IsLastOf (drop copies.behind copies.log.items) last }
    requires more { (last : Front) → IsLastOf (drop copies.behind copies.log.items) last →
        GoesOn copies.desk.shown.value last }
    ensures shown { (last : Front) → IsLastOf (drop copies.behind copies.log.items) last →
        result.desk.shown.value ≡ last }
    ensures known { view result.desk.place ≡ Some result.desk.shown.value }
{
    let mut copies = copies;
    for _turn in rt.forever() {
        // Event: publish.
        match copies.publish_as::<Sees, R>(rt) {
            (shown, Ok(())) => return shown,
            (same, Err(_)) => copies = same,
        }
    }
    unreachable!()
}

/// Takes the room for a version that waits, by showing the one that is shown. Where it isn't had
/// the copies are given up.
pub fn with_room<R: Wait>(rt: &R, copies: Copies, version: Version) -> Result<Copies, NoMemory>
    requires same { version ≡ copies.desk.shown.value }
    ensures shown { IfOk result (λ copies. copies.desk.shown.value ≡ version) }
    ensures known { IfOk result (λ copies. view copies.desk.place ≡ Some version) }
{
    let mut copies = copies;
    if copies.append(version).is_err() {
        give_up(rt, copies);
        return Err(NoMemory);
    }
    match copies.publish_as::<Sees, R>(rt) {
        (shown, Ok(())) => Ok(shown),
        (same, Err(_)) => {
            give_up(rt, same);
            Err(NoMemory)
        }
    }
}

/// A reader's place, which was told what is shown.
pub fn told_place<R: Wait>(rt: &R, copies: &mut Copies) -> Place
    ensures known { view result.place ≡ view copies.old.desk.place }
    ensures same { view copies.new.desk.place ≡ view copies.old.desk.place }
    ensures shown { copies.new.desk.shown ≡ copies.old.desk.shown }
{
    let mut place = free_place(rt, copies);
    place.learn::<Knows>(copies.tell::<Tells>());
    place
}

/// A place that is free. It asks again where each seems to be in use.
fn free_place<R: Wait>(rt: &R, copies: &Copies) -> Place
    ensures new { view result.place ≡ None }
    ensures own { result.place.table_id ≡ copies.now.desk.place.table_id }
{
    for _turn in rt.forever() {
        if let Ok(place) = copies.factory().reader() {
            return place;
        }
    }
    unreachable!()
}

/// Gives up the copies. It waits for those that look.
pub fn give_up<R: Wait>(rt: &R, copies: Copies) {
    drop(copies.take(rt));
}
