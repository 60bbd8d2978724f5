//! Rows by hand, all interleavings of a few calls, and senders in threads of their own.
ghost use Rattle.std.specs.Prelude.{◌≡◌, ◌≤◌, ◌<◌, All, IfOk, vec_len};
ghost use Rattle.options.specs.declared.map.TheConstants.{MAX_ROOM, MAX_SENDERS};
ghost use Rattle.senders.specs.Senders.{Origin};

use budget::NoMemory;
use log_levels::Update;
use options::Senders;
use senders::{Inbox, Sender, start_senders};
use std::alloc::Global;
use std::collections::VecDeque;
use std::process::Abort;
use std::sync::Wait;
use std::test::Fail;
use std::thread;
use std::thread::Threads;

/// How often a thread tries again before a test fails.
const TURNS: u64 = 20_000_000;

#[test]
fn one_sender_and_room_for_one(rt: HostRuntime) -> Result<(), Fail> {
    let (mut inbox, mut senders) = start_senders(rt.alloc(), Senders { count: 1 }, 1)?;
    assert_eq!(rt; inbox.take(&rt), None);
    let Some(mut sender) = senders.pop() else {
        unreachable!()
    };
    assert_eq!(rt; sender.send(&rt, Update::Put(1, 1)), Ok(()));
    assert_eq!(rt; sender.send(&rt, Update::Del(1)), Err(Update::Del(1)));
    assert_eq!(rt; sender.sent(), 1);
    assert_eq!(rt; inbox.take(&rt), Some((0, Update::Put(1, 1))));
    senders.push(sender)?;
    assert_eq!(rt; inbox.close(senders), 0);
    Ok(())
}

/// Two senders and their inbox, beside what the queue should hold.
#[derive(Drop)]
struct Pair {
    inbox: Inbox,
    first: Sender,
    second: Sender,
    queue: VecDeque<(u32, Update)>,
    room: usize,
    ghost two: { inbox.origin.senders ≡ 2 },
    ghost first_own: { first.origin ≡ inbox.origin },
    ghost second_own: { second.origin ≡ inbox.origin },
}

/// Whether a send answers as the queue should: it is refused exactly where the queue is full.
fn sends_as<R: Wait>(
    rt: &R,
    sender: &mut Sender,
    update: Update,
    queue: &mut VecDeque<(u32, Update)>,
    number: u32,
    room: usize,
) -> Result<bool, NoMemory>
    ensures { sender.new.origin ≡ sender.old.origin }
{
    let full = queue.len() >= room;
    let answer = sender.send(rt, update);
    if full {
        return Ok(answer == Err(update));
    }
    queue.push_back((number, update))?;
    Ok(answer == Ok(()))
}

impl Pair {
    ghost use Rattle.std.specs.Prelude.{◌≡◌, ◌≤◌};

    fn new(alloc: Global, room: u32) -> Result<Pair, NoMemory>
        requires some { 1 ≤ room }
        requires small { room ≤ MAX_ROOM }
    {
        let (inbox, mut senders) = start_senders(alloc, Senders { count: 2 }, room)?;
        let Some(second) = senders.pop() else {
            unreachable!()
        };
        let Some(first) = senders.pop() else {
            unreachable!()
        };
        Ok(Pair {
            inbox,
            first,
            second,
            queue: VecDeque::new(alloc),
            room: room as usize,
        })
    }

    /// Takes at 0, sends as the first sender at 1 and as the second at any other, and says whether
    /// the answer was right.
    fn step<R: Wait>(&mut self, rt: &R, kind: u32, turn: u64) -> Result<bool, NoMemory> {
        let update = Update::Put(turn, u64::from(kind));
        match kind {
            0 => Ok(self.inbox.take(rt) == self.queue.pop_front()),
            1 => sends_as(rt, &mut self.first, update, &mut self.queue, 0, self.room),
            _ => sends_as(rt, &mut self.second, update, &mut self.queue, 1, self.room),
        }
    }

    /// Whether as many are left as the queue should hold.
    fn close(self, alloc: Global) -> Result<bool, NoMemory> {
        let Pair {
            inbox,
            first,
            second,
            queue,
            room: _room,
        } = self;
        let mut senders = Vec::new(alloc);
        senders.push(second)?;
        senders.push(first)?;
        Ok(inbox.close(senders) == queue.len() as u64)
    }
}

/// Six calls, each a digit of the number at base 3.
fn six_calls<R: Wait>(rt: &R, alloc: Global, number: u32, room: u32) -> Result<bool, NoMemory>
    requires some { 1 ≤ room }
    requires small { room ≤ MAX_ROOM }
{
    let mut pair = Pair::new(alloc, room)?;
    let mut left = number;
    for turn in 0..6 {
        if !pair.step(rt, left % 3, turn)? {
            return Ok(false);
        }
        left /= 3;
    }
    pair.close(alloc)
}

/// Every order of six sends and takes by two senders and the inbox.
#[test]
fn every_order_of_six_calls(rt: HostRuntime) -> Result<(), Fail> {
    for number in 0..729 {
        assert!(rt;
            six_calls(&rt, rt.alloc(), number, 1)?,
            "{number} with room for 1"
        );
        assert!(rt;
            six_calls(&rt, rt.alloc(), number, 2)?,
            "{number} with room for 2"
        );
    }
    Ok(())
}

/// A sender beside its number.
#[derive(Drop)]
struct Job {
    number: u32,
    sender: Sender,
}

/// The update that a sender sends at this turn.
fn dealt(number: u32, turn: u64) -> Update {
    if turn % 2 == 0 {
        Update::Put(u64::from(number), turn)
    } else {
        Update::Del(turn)
    }
}

/// Sends so many updates, and tries again while the queue is full.
fn send_each<R: Wait>(rt: &R, job: Job, each: u64) -> Job
    ensures { result.sender.origin ≡ job.sender.origin }
{
    let Job { number, mut sender } = job;
    for _turn in 0..TURNS {
        let turn = sender.sent();
        if turn >= each {
            break;
        }
        if sender.send(rt, dealt(number, turn)).is_err() {
            thread::yield_now();
        }
    }
    Job { number, sender }
}

/// Takes until it has so many.
fn take_all<R: Wait>(
    rt: &R,
    alloc: Global,
    mut inbox: Inbox,
    all: usize,
) -> (Inbox, Vec<(u32, Update)>)
    ensures { result.0.origin ≡ inbox.origin }
{
    let mut taken = Vec::new(alloc);
    for _turn in 0..TURNS {
        if taken.len() >= all || taken.reserve(1).is_err() {
            break;
        }
        match inbox.take(rt) {
            Some(item) => taken.push_reserved(item),
            None => thread::yield_now(),
        }
    }
    (inbox, taken)
}

/// Whether each sender's updates were taken in its order, whole and once.
fn are_in_order(
    alloc: Global,
    taken: &[(u32, Update)],
    senders: u32,
    each: u64,
) -> Result<bool, NoMemory> {
    let mut next = Vec::from_elem(alloc, 0u64, senders as usize)?;
    for (number, update) in taken {
        let Some(turn) = next.get_mut(*number as usize) else {
            return Ok(false);
        };
        if *update != dealt(*number, *turn) {
            return Ok(false);
        }
        *turn = turn.wrapping_add(1);
    }
    Ok(next.iter().all(|turn| *turn == each))
}

/// The senders beside their numbers.
fn jobs_of(alloc: Global, mut senders: Vec<Sender>) -> Result<Vec<Job>, NoMemory>
    requires few { vec_len senders ≤ MAX_SENDERS }
    ensures own { IfOk result (λ jobs. (origin : Origin) →
        All (λ sender. sender.origin ≡ origin) senders.items →
        All (λ job. job.sender.origin ≡ origin) jobs.items) }
    ensures count { IfOk result (λ jobs. vec_len jobs ≡ vec_len senders) }
{
    let mut jobs = Vec::with_capacity(alloc, senders.len())?;
    while let Some(sender) = senders.pop() {
        let number = senders.len() as u32;
        jobs.push(Job { number, sender })?;
    }
    Ok(jobs)
}

/// The senders alone.
fn senders_of(alloc: Global, mut jobs: Vec<Job>) -> Result<Vec<Sender>, NoMemory>
    ensures own { IfOk result (λ senders. (origin : Origin) →
        All (λ job. job.sender.origin ≡ origin) jobs.items →
        All (λ sender. sender.origin ≡ origin) senders.items) }
    ensures count { IfOk result (λ senders. vec_len senders ≡ vec_len jobs) }
{
    let mut senders = Vec::with_capacity(alloc, jobs.len())?;
    while let Some(job) = jobs.pop() {
        let Job {
            number: _number,
            sender,
        } = job;
        senders.push(sender)?;
    }
    Ok(senders)
}

/// Each job in a thread of its own.
fn send_all<R: Threads + Wait + Sync>(
    rt: &R,
    jobs: Vec<Job>,
    each: u64,
) -> Result<Vec<Job>, NoMemory>
    ensures own { IfOk result (λ back. (origin : Origin) →
        All (λ job. job.sender.origin ≡ origin) jobs.items →
        All (λ job. job.sender.origin ≡ origin) back.items) }
    ensures count { IfOk result (λ back. vec_len back ≡ vec_len jobs) }
{
    let work = |job: Job| -> Job
        ensures { result.sender.origin ≡ job.sender.origin }
    { send_each(rt, job, each) };
    thread::map_vec(rt, jobs, &work)
}

/// Sends by all senders at once while the inbox takes, and whether all came, each in its order.
fn beside_each_other<R: Threads + Wait + Sync>(
    rt: &R,
    alloc: Global,
    count: u32,
    room: u32,
    each: u32,
) -> Result<bool, NoMemory>
    requires staffed { 1 ≤ count }
    requires few { count ≤ MAX_SENDERS }
    requires some { 1 ≤ room }
    requires small { room ≤ MAX_ROOM }
{
    let (inbox, senders) = start_senders(alloc, Senders { count }, room)?;
    let jobs = jobs_of(alloc, senders)?;
    let all = count as usize * each as usize;
    let each = u64::from(each);
    let ((inbox, taken), jobs) = thread::join(
        rt,
        move || -> (Inbox, Vec<(u32, Update)>)
            ensures { result.0.origin ≡ inbox.origin }
        { take_all(rt, alloc, inbox, all) },
        move || -> Result<Vec<Job>, NoMemory>
            ensures own { IfOk result (λ back. (origin : Origin) →
                All (λ job. job.sender.origin ≡ origin) jobs.items →
                All (λ job. job.sender.origin ≡ origin) back.items) }
            ensures count { IfOk result (λ back. vec_len back ≡ vec_len jobs) }
        { send_all(rt, jobs, each) },
    );
    let senders = senders_of(alloc, jobs?)?;
    let in_order = are_in_order(alloc, &taken, count, each)?;
    Ok(in_order && inbox.close(senders) == 0)
}

/// One, two and sixteen senders beside the inbox, with room for 1, 2, 16 and as many as can be.
#[test]
fn senders_beside_the_inbox(rt: HostRuntime) -> Result<(), Fail> {
    for count in [1, 2, 16] {
        assert!(rt;
            beside_each_other(&rt, rt.alloc(), count, 1, 200)?,
            "{count} senders"
        );
        assert!(rt;
            beside_each_other(&rt, rt.alloc(), count, 2, 200)?,
            "{count} senders"
        );
        assert!(rt;
            beside_each_other(&rt, rt.alloc(), count, 16, 2000)?,
            "{count} senders"
        );
        assert!(rt;
            beside_each_other(&rt, rt.alloc(), count, 65536, 2000)?,
            "{count} senders"
        );
    }
    Ok(())
}
