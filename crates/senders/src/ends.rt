// The two ends of the queue: senders, and the inbox.
ghost use Rattle.std.specs.Prelude.{◌≡◌, ◌+◌, ◌≤◌, [], All, IfOk, OnOk, vec_capacity};
ghost use Rattle.std.specs.Arc.{arc_value};
ghost use Rattle.crossbeam_queue.specs.Passes.{view, IsPassOf, IsSamePass, ruled_capacity};
ghost use Rattle.options.specs.declared.map.TheConstants.{MAX_ROOM, MAX_SENDERS};
ghost use Rattle.senders.specs.Senders.{AreFresh};
ghost use Rattle.senders.specs.Views.{taking, origin_of};

use crate::views::{Closes, Item, Line, OneApart, OneFewer, Right, Sends, Takes, Together};
use budget::NoMemory;
use log_levels::Update;
use options::{MAX_SENDERS, Senders};
use std::alloc::Global;
use std::marker::Model;
use std::sync::{Arc, Wait};

/// A sender, seen as its number and the updates that it sent, in order.
///
/// It is the one sender of its number, and may go to another thread.
#[derive(Drop)]
pub struct Sender {
    line: Arc<Line>,
    right: Right,
    number: u32,
    sent: u64,
}

impl Model for Sender {
    ghost use Rattle.std.specs.Prelude.{◌≡◌, ◌≤◌, length};
    ghost use Rattle.std.specs.Arc.{arc_value};
    ghost use Rattle.crossbeam_queue.specs.Passes.{IsPassOf, ruled_capacity};
    ghost use Rattle.options.specs.declared.map.TheConstants.{MAX_ROOM};
    ghost use Rattle.senders.specs.Senders.{Sending};
    ghost use Rattle.senders.specs.Views.{sending, sent_by};

    ghost Value = { Sending };

    ghost view = { λ s. record {
      origin = record {
        table = (arc_value s.line).table.shared.table_id;
        room = ruled_capacity (arc_value s.line);
        senders = s.right.me.0.client.senders;
      };
      number = s.number;
      sent = sent_by s.right.me.0.client.hands;
    } };

    ghost invariant = { λ s. (IsPassOf (arc_value s.line) s.right)
        × (s.right.me.0.client
        ≡ sending s.right.me.0.client.senders s.number (sent_by s.right.me.0.client.hands))
        × (s.sent ≡ length (sent_by s.right.me.0.client.hands))
        × (ruled_capacity (arc_value s.line) ≤ MAX_ROOM) };
}

/// An inbox, seen as the updates that it took, in order, each behind its sender's number, and those
/// that it knows to wait in the queue.
#[derive(Drop)]
pub struct Inbox {
    line: Arc<Line>,
    right: Right,
    taken: u64,
}

impl Model for Inbox {
    ghost use Rattle.std.specs.Prelude.{◌≡◌, ◌≤◌, [], length};
    ghost use Rattle.std.specs.Arc.{arc_value};
    ghost use Rattle.crossbeam_queue.specs.Passes.{IsPassOf, ruled_capacity};
    ghost use Rattle.options.specs.declared.map.TheConstants.{MAX_ROOM, MAX_SENDERS};
    ghost use Rattle.senders.specs.Senders.{Taking};
    ghost use Rattle.senders.specs.Views.{taking};

    ghost Value = { Taking };

    ghost view = { λ inbox. record {
      origin = record {
        table = (arc_value inbox.line).table.shared.table_id;
        room = ruled_capacity (arc_value inbox.line);
        senders = inbox.right.me.0.client.senders;
      };
      taken = inbox.right.me.0.client.taken;
      waiting = inbox.right.me.0.client.waiting;
    } };

    ghost invariant = { λ inbox. (IsPassOf (arc_value inbox.line) inbox.right)
        × (inbox.right.me.0.client ≡ taking inbox.right.me.0.client.senders
        inbox.right.me.0.client.senders [] inbox.right.me.0.client.taken
        inbox.right.me.0.client.waiting)
        × (inbox.taken ≡ length inbox.right.me.0.client.taken)
        × (inbox.right.me.0.client.senders ≤ MAX_SENDERS)
        × (ruled_capacity (arc_value inbox.line) ≤ MAX_ROOM) };
}

/// An inbox with so many senders, and room for `room` updates, 1 to [`options::MAX_ROOM`], in the
/// queue between them. The senders' numbers are their places in the list.
///
/// # Errors
///
/// `NoMemory` alone. The memory is that of the queue and of the list.
pub fn start_senders(
    alloc: Global,
    senders: Senders,
    room: u32,
) -> Result<(Inbox, Vec<Sender>), NoMemory>
    requires some { 1 ≤ room }
    requires small { room ≤ MAX_ROOM }
    ensures senders { IfOk result (λ made. made.0.origin.senders ≡ senders.count) }
    ensures room { IfOk result (λ made. made.0.origin.room ≡ room) }
    ensures taken { IfOk result (λ made. made.0.taken ≡ []) }
    ensures fresh { IfOk result (λ made. AreFresh made.0.origin senders.count made.1.items) }
    ensures own { IfOk result (λ made.
        All (λ sender. sender.origin ≡ made.0.origin) made.1.items) }
{
    // Event: make. The first pass is the inbox's, and none of the numbers has a sender yet.
    let count = senders.count;
    let (line, mut right) = Line::ruled(alloc, room as usize)?;
    give_up_numbers(&line, &mut right, count);
    let line = Arc::new(alloc, line)?;
    let mut made = Vec::with_capacity(alloc, count as usize)?;
    make_senders(&line, &mut right, count, &mut made)?;
    let inbox = Inbox {
        line,
        right,
        taken: 0,
    };
    Ok((inbox, made))
}

/// Gives up the numbers that no sender gets.
fn give_up_numbers(line: &Line, right: &mut Right, count: u32)
    requires own { IsPassOf line.now right.old }
    requires few { count ≤ MAX_SENDERS }
    requires first { view right.old ≡ taking MAX_SENDERS 0 [] [] [] }
    ensures own { IsSamePass right.old right.new }
    ensures left { view right.new ≡ taking count 0 [] [] [] }
{
    for _number in count..MAX_SENDERS {
        // Event: give up. The last number gets no sender, and the pass that would have been its is
        // let go.
        drop(line.another::<OneFewer>(right));
    }
}

/// Makes the senders, in the order of their numbers.
fn make_senders(
    line: &Arc<Line>,
    right: &mut Right,
    count: u32,
    senders: &mut Vec<Sender>,
) -> Result<(), NoMemory>
    requires own { IsPassOf (arc_value line.now) right.old }
    requires room { ruled_capacity (arc_value line.now) ≤ MAX_ROOM }
    requires none { senders.old.items ≡ [] }
    requires first { view right.old ≡ taking count 0 [] [] [] }
    requires kept { count ≤ vec_capacity senders.old }
    ensures own { OnOk result (IsSamePass right.old right.new) }
    ensures all { OnOk result (view right.new ≡ taking count count [] [] []) }
    ensures fresh { OnOk result
        (AreFresh (origin_of (arc_value line.now) count) count senders.new.items) }
    ensures origins { OnOk result (All (λ sender.
        sender.origin ≡ origin_of (arc_value line.now) count) senders.new.items) }
{
    for number in 0..count {
        let line = Arc::try_clone(line)?;
        // Event: split. The number gets its sender.
        let theirs = line.another::<OneApart>(right);
        senders.push_reserved(Sender {
            line,
            right: theirs,
            number,
            sent: 0,
        });
    }
    Ok(())
}

impl Sender {
    ghost use Rattle.std.specs.Prelude.{◌≡◌, [], ◌∷◌, ◌++◌, length, IfErr, OnOk, OnErr};
    ghost use Rattle.senders.specs.Senders.{MayBeFull};

    /// Sends an update: it stands at the back of the queue.
    ///
    /// It may wait for a thread that is in the way. It is one step on the queue, whatever others
    /// send or take meanwhile.
    ///
    /// # Errors
    ///
    /// The update, where the queue is full at a step of this call. Nothing was sent then. A clause
    /// can only speak of what this sender knows: with fewer updates sent than there is room for,
    /// and no other sender, it is never refused. That no update is refused beside other senders,
    /// or after the inbox took some, while there is room, is tested and not proved.
    pub fn send<R: Wait>(&mut self, rt: &R, update: Update) -> Result<(), Update>
        ensures sent { OnOk result (self.new.sent ≡ self.old.sent ++ update ∷ []) }
        ensures back { IfErr result (λ back. back ≡ update) }
        ensures full { OnErr result (MayBeFull self.old) }
        ensures unchanged { OnErr result (self.new ≡ self.old) }
        ensures number { self.new.number ≡ self.old.number }
        ensures own { self.new.origin ≡ self.old.origin }
    {
        let sent = counted(rt, self.sent);
        let item: Item = (self.number, update);
        // Event: send. Others may have sent and the inbox have taken any number since; or a look at
        // a full queue.
        match self.line.push_as::<Sends, R>(rt, &mut self.right, item) {
            Ok(()) => {
                self.sent = sent;
                Ok(())
            }
            Err((_, back)) => Err(back),
        }
    }

    /// How many updates it sent. Takes no step.
    pub fn sent(&self) -> u64
        ensures { result ≡ length self.now.sent }
    {
        self.sent
    }
}

impl Inbox {
    ghost use Rattle.std.specs.Prelude.{◌≡◌, ◌+◌, ◌<◌, ℕ, List, [], ◌∷◌, ◌++◌};
    ghost use Rattle.std.specs.Prelude.{All, length, sum_by, IfSome, IfNone};
    ghost use mathlib.Core.List.{IsPrefix};
    ghost use Rattle.log_levels.specs.declared.update.Update.{Update};
    ghost use Rattle.senders.specs.Senders.{of_sender, IsDelivered};

    /// Takes the update at the front of the queue, behind its sender's number.
    ///
    /// It may wait for a thread that is in the way. It is one step on the queue, whatever the
    /// senders send meanwhile. `None` where the queue is empty at a step of this call. A clause can
    /// only say that nothing is left of what the inbox saw behind the update that it took last;
    /// that an update which was sent is found is tested and not proved.
    pub fn take<R: Wait>(&mut self, rt: &R) -> Option<(u32, Update)>
        ensures took { IfSome result (λ item. self.new.taken ≡ self.old.taken ++ item ∷ []) }
        ensures number { IfSome result (λ item. item.0 < self.old.origin.senders) }
        ensures order { IfSome result
            (λ item. IsPrefix self.old.waiting (item ∷ self.new.waiting)) }
        ensures empty { IfNone result (self.old.waiting ≡ []) }
        ensures unchanged { IfNone result (self.new ≡ self.old) }
        ensures own { self.new.origin ≡ self.old.origin }
    {
        let taken = counted(rt, self.taken);
        // Event: take. The senders may have sent any number since; or a look at an empty queue.
        let item = self.line.pop_as::<Takes, R>(rt, &mut self.right)?;
        self.taken = taken;
        Some(item)
    }

    /// How many sent updates were not taken.
    ///
    /// `senders` are all senders of this inbox, in any order. Once they are back nobody can send
    /// any more: what was taken of each, followed by what is still queued of it, is what it sent.
    /// So what was taken of it is a beginning of what it sent, and all of it where the answer is 0.
    /// Takes no memory.
    pub fn close(self, mut senders: Vec<Sender>) -> u64
        requires all { length senders.items ≡ self.origin.senders }
        requires own { All (λ sender. sender.origin ≡ self.origin) senders.items }
        ensures left { result + length self.taken
            ≡ sum_by (λ sender. length sender.sent) senders.items }
        ensures delivered { (queued : List (ℕ × Update)) × (length queued ≡ result)
            × All (IsDelivered self.taken queued) senders.items }
        ensures begins { All (λ sender.
            IsPrefix (of_sender sender.number self.taken) sender.sent) senders.items }
        ensures whole { result ≡ 0 →
            All (λ sender. of_sender sender.number self.taken ≡ sender.sent) senders.items }
    {
        let Inbox {
            line,
            mut right,
            taken,
        } = self;
        let mut sent: u128 = 0;
        while let Some(sender) = senders.pop() {
            sent += u128::from(sender.sent());
            let Sender {
                line: _line,
                right: theirs,
                number: _number,
                sent: _sent,
            } = sender;
            // Event: join. The inbox's pass stands for this sender too, and the sender's is spent.
            line.absorb::<Together>(&mut right, theirs);
        }
        // Event: close. What the views of all tell of the queue.
        line.learn_as::<Closes>(&mut right);
        (sent - u128::from(taken)) as u64
    }
}

/// The count after one more. After 2^64 - 1 it waits for ever, as the queue does after 2^62.
fn counted<R: Wait>(rt: &R, count: u64) -> u64
    ensures { result ≡ count + 1 }
{
    for _turn in rt.forever() {
        if let Some(next) = count.checked_add(1) {
            return next;
        }
    }
    unreachable!()
}
