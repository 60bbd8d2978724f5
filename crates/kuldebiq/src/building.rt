// An index from keys that C hands over.
ghost use Rattle.std.specs.Prelude.{◌≡◌, ◌⊎◌, IfOk, IfErr};
ghost use Rattle.kuldebiq.specs.Answers.{refuses};
ghost use Rattle.levels.specs.Indexes.{IsIndexOf};
ghost use Rattle.kuldebiq.specs.Building.{CanBeIndexed, IsRefusal, refused_as};

use crate::answer::{Answer, EPSILON_TOO_GREAT, NO_MEMORY, TOO_MANY_KEYS, UNSORTED, refused};
use crate::kept_index::KeptIndex;
use budget::NoMemory;
use exact_cross::MAX_EPSILON;
use key_points::judge;
use levels::{Index, Keys, KeysFault};
use options::Bounds;
use std::alloc::Global;

/// The index of keys, which are judged and then copied, in a box. Or how they are refused: where an
/// error bound is too great, where there are too many keys, where they fall, in this order, or
/// where memory isn't found.
pub(crate) fn boxed_index(
    alloc: Global,
    keys: &[u64],
    eps: u32,
    eps_rec: u32,
) -> Result<Box<KeptIndex>, Answer>
    ensures index { IfOk result (λ kept. IsIndexOf keys.now eps eps_rec kept.value) }
    ensures judged { IfOk result (λ _. CanBeIndexed keys.now eps eps_rec) }
    ensures refused { IfErr result (λ answer. IsRefusal keys.now eps eps_rec answer ⊎
        (CanBeIndexed keys.now eps eps_rec × (answer ≡ refuses NO_MEMORY 0))) }
{
    let greater = eps.max(eps_rec);
    if greater > MAX_EPSILON {
        return Err(refused(EPSILON_TOO_GREAT, u64::from(greater)));
    }
    match judge(keys) {
        Ok(()) => match index_of(alloc, keys, eps, eps_rec) {
            Ok(kept) => Ok(kept),
            Err(_) => Err(refused(NO_MEMORY, 0)),
        },
        Err(fault) => Err(answer_of(fault)),
    }
}

/// Why keys were refused, as an answer.
pub(crate) fn answer_of(fault: KeysFault) -> Answer
    ensures { result ≡ refused_as fault }
{
    match fault {
        KeysFault::TooMany { count } => refused(TOO_MANY_KEYS, count as u64),
        KeysFault::Falls { place } => refused(UNSORTED, place as u64),
        KeysFault::NoMemory => refused(NO_MEMORY, 0),
    }
}

/// The index of keys, which are copied, in a box.
///
/// # Errors
///
/// `NoMemory` alone.
fn index_of(alloc: Global, keys: &[u64], eps: u32, eps_rec: u32) -> Result<Box<KeptIndex>, NoMemory>
    requires { CanBeIndexed keys.now eps eps_rec }
    ensures { IfOk result (λ kept. IsIndexOf keys.now eps eps_rec kept.value) }
{
    let keys = Keys::of(Vec::from_slice(alloc, keys)?);
    let index = Index::of(alloc, keys, Bounds { eps, eps_rec })?;
    let kept = KeptIndex::of(alloc, index)?;
    Ok(Box::new(alloc, kept)?)
}
