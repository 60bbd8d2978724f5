// What a search found.
ghost use Rattle.std.specs.Prelude.{◌≡◌};

use std::marker::Model;

/// The answer for a region: the codes that are inside, and at how many places of the sorted codes
/// was looked. Seen as a record of that list and that number.
#[derive(Drop)]
pub struct Found {
    codes: Vec<u64>,
    looked: u64,
}

impl Model for Found {
    ghost use Rattle.boxes.specs.BoxAnswers.{BoxAnswer};

    ghost Value = { BoxAnswer };

    ghost view = { λ found. record { codes = found.codes.items; looked = found.looked } };
}

impl Found {
    /// An answer of its parts.
    pub(crate) fn new(codes: Vec<u64>, looked: u64) -> Found
        ensures codes { result.codes ≡ codes.items }
        ensures looked { result.looked ≡ looked }
    {
        Found { codes, looked }
    }

    /// The codes inside, in rising order, each as often as there are points with it. Takes no
    /// memory.
    pub fn codes(&self) -> &[u64]
        ensures { result.now ≡ self.now.codes }
    {
        &self.codes
    }

    /// At how many places was looked. Takes no memory.
    pub fn looked(&self) -> u64
        ensures { result ≡ self.now.looked }
    {
        self.looked
    }
}
