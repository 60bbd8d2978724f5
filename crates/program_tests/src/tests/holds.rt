// Gates that hold a thread at a place until another place was reached. A thread gives up where no
// other gets there at once: then its test fails, or shows that it is alone.
use super::*;
use edge::Place;
use std::sync::atomic::{AtomicBool, Ordering};
use std::thread::yield_now;

/// How often a thread looks before it gives up.
const TURNS: u64 = 1_000_000;

/// A place that is held until another is reached, or for so many looks.
#[derive(Drop)]
pub struct Hold {
    place: Place,
    until: Place,
    turns: u64,
    begun: AtomicBool,
    reached: AtomicBool,
    gave_up: AtomicBool,
}

impl Hold {
    pub fn new((place, until): (Place, Place), turns: u64) -> Hold {
        Hold {
            place,
            until,
            turns,
            begun: AtomicBool::new(false),
            reached: AtomicBool::new(false),
            gave_up: AtomicBool::new(false),
        }
    }

    fn tell(&self, place: Place) {
        if place == self.until {
            self.reached.store(true, Ordering::SeqCst);
        }
    }

    fn hold(&self, place: Place) {
        if place != self.place {
            return;
        }
        self.begun.store(true, Ordering::SeqCst);
        for _turn in 0..self.turns {
            if self.reached.load(Ordering::SeqCst) {
                return;
            }
            yield_now();
        }
        self.gave_up.store(true, Ordering::SeqCst);
    }

    /// Whether both places were reached, and no thread gave up.
    fn is_passed(&self) -> bool {
        self.begun.load(Ordering::SeqCst)
            && self.reached.load(Ordering::SeqCst)
            && !self.gave_up.load(Ordering::SeqCst)
    }

    /// Whether the other place was reached, but only when a thread had given up.
    pub fn is_in_vain(&self) -> bool {
        self.reached.load(Ordering::SeqCst) && self.gave_up.load(Ordering::SeqCst)
    }
}

impl Gate for Hold {
    fn at(&self, place: Place) {
        self.tell(place);
        self.hold(place);
    }
}

/// A gate that holds two places.
#[derive(Drop)]
pub struct Holds {
    one: Hold,
    other: Hold,
}

impl Holds {
    /// Each pair is a place, and the one that it is held for.
    pub fn new(one: (Place, Place), other: (Place, Place)) -> Holds {
        Holds {
            one: Hold::new(one, TURNS),
            other: Hold::new(other, TURNS),
        }
    }

    pub fn is_passed(&self) -> bool {
        self.one.is_passed() && self.other.is_passed()
    }
}

impl Gate for Holds {
    fn at(&self, place: Place) {
        self.one.tell(place);
        self.other.tell(place);
        self.one.hold(place);
        self.other.hold(place);
    }
}
