// Updates and questions that were read.
ghost use Rattle.std.specs.Prelude.{◌≡◌, ◌≤◌, All, List, Some, length, true};
ghost use Rattle.log_levels.specs.declared.update.Update.{Update};
ghost use Rattle.log_levels.specs.Accepted.{entries_of};
ghost use Rattle.log_levels.specs.Maps.{map_after};
ghost use Rattle.log_levels.specs.Shapes.{Held, StandsFor, capacity_with};
ghost use Rattle.map_commands.specs.PlainUpdates.{is_plain};

use log_levels::{LogMap, Update};
use map_replay::Question;
use options::{Plan, Senders};

/// Updates of a map, and the questions that are asked of it beside them and after them.
#[derive(Drop)]
pub struct History {
    pub plan: Plan,
    /// The updates, in order.
    pub updates: Vec<Update>,
    /// The questions, in order.
    pub questions: Vec<Question>,
    /// The map after the updates, where it is there already.
    pub map: Option<LogMap>,
    pub ghost fits: { length (entries_of updates.items) ≤ capacity_with plan.levels },
    pub ghost after: { (held : Held) (others : List Update) → map ≡ Some held →
        StandsFor held others → map_after others ≡ map_after updates.items },
}

/// Updates that are dealt out to senders, and the questions that are asked beside them and after
/// them.
#[derive(Drop)]
pub struct Mixing {
    /// The updates, none of them a sweep, and the questions.
    pub history: History,
    pub senders: Senders,
    pub ghost plain: { All (λ update. is_plain update ≡ true) history.updates.items },
}
