// Questions to a map, and their answers.
ghost use Rattle.std.specs.Prelude.{◌≡◌, ℕ, List};
ghost use Rattle.map_replay.specs.Questions.{answer_of};

use log_levels::LogMap;
use published::Look;

/// A question to a map.
#[derive(Clone, Copy, Debug, PartialEq, Eq)]
pub enum Question {
    /// The value at this key.
    Get(u64),
    /// The least key from this one on, with its value.
    Next(u64),
    /// How many keys there are from the first to the second, both included.
    Count(u64, u64),
}

/// What a map answers.
#[derive(Clone, Copy, Debug, PartialEq, Eq)]
pub enum Answer {
    /// A value, if the map has the key.
    Value(Option<u64>),
    /// A key with its value, if there is one.
    Pair(Option<(u64, u64)>),
    /// A number of keys.
    Number(u64),
}

/// What answers questions: a map, or what shows one.
pub trait Asked {
    ghost use Rattle.std.specs.Prelude.{ℕ, List};

    /// It answers by these pairs of key and value.
    ghost answers_by: { Self → List (ℕ × ℕ) → Type 0 };

    /// The answer. Takes no memory.
    fn answer(&self, question: Question) -> Answer
        ensures { (pairs : List (ℕ × ℕ)) → answers_by self.now pairs →
            result ≡ answer_of pairs question };
}

impl Asked for LogMap {
    ghost use Rattle.std.specs.Prelude.{◌≡◌, List};
    ghost use Rattle.log_levels.specs.declared.update.Update.{Update};
    ghost use Rattle.log_levels.specs.Maps.{map_after};
    ghost use Rattle.log_levels.specs.Shapes.{StandsFor};

    ghost answers_by = { λ map pairs. (updates : List Update) × StandsFor map updates
        × (pairs ≡ map_after updates) };

    fn answer(&self, question: Question) -> Answer {
        match question {
            Question::Get(key) => Answer::Value(self.get(key)),
            Question::Next(from) => Answer::Pair(self.next(from)),
            Question::Count(low, high) => Answer::Number(self.count(low, high)),
        }
    }
}

impl Asked for Look {
    ghost use Rattle.std.specs.Prelude.{◌≡◌};
    ghost use Rattle.log_levels.specs.Maps.{map_after};
    ghost use Rattle.published.specs.Histories.{updates_of};

    ghost answers_by = { λ look pairs. pairs ≡ map_after (updates_of look.batches) };

    fn answer(&self, question: Question) -> Answer {
        match question {
            Question::Get(key) => Answer::Value(self.get(key)),
            Question::Next(from) => Answer::Pair(self.next(from)),
            Question::Count(low, high) => Answer::Number(self.count(low, high)),
        }
    }
}
