// Claims, and the seats that draw from them.

use crate::views::{Drew, EachOnce, OneApart, Plan, Together, View};
use atomic_table::Table;
use budget::NoMemory;
use std::alloc::Global;
use std::marker::Model;

/// The claim word: how many draws there were. All workers share it by reference.
#[derive(Drop)]
pub struct Claims {
    table: Table<(), View, Plan, EachOnce, Global>,
    pieces: u32,
}

impl Model for Claims {
    ghost use Rattle.std.specs.Prelude.{◌≡◌};
    ghost use Rattle.claims.specs.Claims.{Claimed};

    ghost Value = { Claimed };

    ghost view = { λ claims. record {
      origin = record { table = claims.table.shared.table_id; pieces = claims.pieces };
      workers = claims.table.shared.key.workers;
    } };

    ghost invariant = { λ claims. (claims.table.shared.table_id.words ≡ 1)
        × (claims.table.shared.table_id.slots ≡ 0)
        × (claims.table.shared.key.pieces ≡ claims.pieces) };
}

/// A worker's seat, seen as the numbers that it drew. They rise strictly and are below the number
/// of pieces.
///
/// A seat is a token of its claims: it takes no bytes but a flag, and there is one for each worker.
#[derive(Drop)]
pub struct Seat {
    seat: atomic_table::Seat<(), View>,
    /// Whether a draw found no number.
    ended: bool,
}

impl Model for Seat {
    ghost use Rattle.claims.specs.Claims.{Drawn};
    ghost use Rattle.claims.specs.Views.{IsSeat};

    ghost Value = { Drawn };

    ghost view = { λ s. record {
      origin = record { table = s.seat.table_id; pieces = s.seat.me.0.pieces };
      drawn = s.seat.me.0.drawn;
      ended = s.ended;
    } };

    ghost invariant = { λ s. IsSeat s.seat.me s.ended };
}

impl Claims {
    ghost use Rattle.std.specs.Prelude.{◌≡◌, ℕ, ◌+◌, ◌≤◌, All, IfOk, length, sum_by, min};
    ghost use Rattle.options.specs.declared.index.TheConstants.{MAX_PIECES, MAX_WORKERS};
    ghost use Rattle.claims.specs.Claims.{IsFresh, times, once_below, ended_count};

    /// Claims on the numbers below `pieces`, and a seat for each of `workers` workers.
    ///
    /// `pieces` is from 1 to `MAX_PIECES` of `options`, 65,536, and `workers` from 1 to
    /// `MAX_WORKERS`, 64.
    ///
    /// # Errors
    ///
    /// `NoMemory` alone, where the word or the list of seats finds none.
    pub fn new(alloc: Global, pieces: u32, workers: u32) -> Result<(Claims, Vec<Seat>), NoMemory>
        requires some { 1 ≤ pieces }
        requires few { pieces ≤ MAX_PIECES }
        requires staffed { 1 ≤ workers }
        requires small { workers ≤ MAX_WORKERS }
        ensures pieces { IfOk result (λ made. made.0.origin.pieces ≡ pieces) }
        ensures workers { IfOk result (λ made. made.0.workers ≡ workers) }
        ensures seats { IfOk result (λ made. length made.1.items ≡ workers) }
        ensures fresh { IfOk result (λ made. All (IsFresh made.0.origin) made.1.items) }
    {
        // Event: make. The first seat stands for all workers.
        let (table, mut rest) = Table::of_words(alloc, &[0], &Plan { pieces, workers })?;
        let mut seats = Vec::with_capacity(alloc, workers as usize)?;
        for _seated in 1..workers {
            // Event: split. One worker gets a seat of its own.
            let seat = table.shared.split_seat::<OneApart>(&mut rest);
            seats.push(Seat { seat, ended: false })?;
        }
        seats.push(Seat {
            seat: rest,
            ended: false,
        })?;
        Ok((Claims { table, pieces }, seats))
    }

    /// The word: how many draws there were.
    ///
    /// `seats` are all seats of these claims, in any order. Once they are back, nobody can draw any
    /// more: the numbers that they drew are those below the lesser of the word and the number of
    /// pieces, each once. Takes no memory.
    pub fn close(self, mut seats: Vec<Seat>) -> u64
        requires all { length seats.items ≡ self.workers }
        requires staffed { 1 ≤ self.workers }
        requires own { All (λ seat. seat.origin ≡ self.origin) seats.items }
        ensures once { (x : ℕ) → sum_by (λ seat. times x seat.drawn) seats.items
            ≡ once_below x (min result self.origin.pieces) }
        ensures drawn { sum_by (λ seat. length seat.drawn) seats.items
            ≡ min result self.origin.pieces }
        ensures word { result ≡ min result self.origin.pieces + ended_count seats.items }
    {
        let Claims { table, pieces: _ } = self;
        let Some(last) = seats.pop() else {
            unreachable!()
        };
        let Seat {
            seat: mut all,
            ended: _,
        } = last;
        while let Some(other) = seats.pop() {
            let Seat { seat, ended: _ } = other;
            // Event: join. One seat has what both drew, and the other is spent.
            table.shared.join_seat::<Together>(&mut all, seat);
        }
        // Event: close with a view.
        let closed = table.close_with(all);
        let word = closed.word(0);
        closed.free();
        word
    }
}

impl Seat {
    ghost use Rattle.std.specs.Prelude.{◌≡◌, ◌<◌, All, IfSome};
    ghost use Rattle.claims.specs.Claims.{IsDraw};

    /// The next number, or `None` where there is none left.
    ///
    /// One step on the word, which never waits. Whatever others draw meanwhile, no number is drawn
    /// twice or left out. Once a draw was `None`, later ones are too and take no step. The seat is
    /// one of these claims.
    pub fn draw(&mut self, claims: &Claims) -> Option<u32>
        requires own { self.old.origin ≡ claims.now.origin }
        ensures draw { IsDraw self.old result self.new }
        ensures rises { IfSome result (λ n. All (λ m. m < n) self.old.drawn) }
        ensures below { IfSome result (λ n. n < self.old.origin.pieces) }
        ensures own { self.new.origin ≡ self.old.origin }
    {
        if self.ended {
            return None;
        }
        // Event: draw. Others may have drawn any number of times since; the word only rises.
        let found = claims.table.shared.fetch_add::<Drew>(&mut self.seat, 0, 1);
        if found < u64::from(claims.pieces) {
            Some(found as u32)
        } else {
            self.ended = true;
            None
        }
    }
}
