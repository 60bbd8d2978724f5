// Hints of keys that C hands over.
ghost use Rattle.std.specs.Prelude.{◌≡◌, ◌⊎◌, ◌≤◌, IfOk, IfErr};
ghost use Rattle.kuldebiq.specs.Answers.{refuses};
ghost use Rattle.kuldebiq.specs.Hints.{CanHaveHints, AreHintsOf, IsHintsRefusal};

use crate::answer::{Answer, EPSILON_TOO_GREAT, NO_MEMORY, refused};
use crate::building::answer_of;
use crate::kept_hints::KeptHints;
use crate::narrow_keys::{judge_narrow, widened};
use exact_cross::MAX_EPSILON;
use hints::hints_of;
use std::alloc::Global;

/// The hints of keys, which are judged and not copied, in a box. Or how they are refused: where the
/// error bound is too great, where there are too many keys, where they fall, in this order, or
/// where memory isn't found.
pub(crate) fn boxed_hints(alloc: Global, keys: &[u64], eps: u32) -> Result<Box<KeptHints>, Answer>
    ensures hints { IfOk result (λ kept. AreHintsOf keys.now eps kept.value) }
    ensures judged { IfOk result (λ _. CanHaveHints keys.now eps) }
    ensures refused { IfErr result (λ answer. IsHintsRefusal keys.now eps answer ⊎
        (CanHaveHints keys.now eps × (answer ≡ refuses NO_MEMORY 0))) }
{
    if eps > MAX_EPSILON {
        return Err(refused(EPSILON_TOO_GREAT, u64::from(eps)));
    }
    match made(alloc, keys, eps) {
        Ok(hints) => match Box::new(alloc, KeptHints::of(hints)) {
            Ok(kept) => Ok(kept),
            Err(_) => Err(refused(NO_MEMORY, 0)),
        },
        Err(refusal) => Err(refusal),
    }
}

/// The hints of keys of 32 bits, which are judged and then copied, in a box. Or how they are
/// refused, as those of 64 bits are.
pub(crate) fn boxed_hints_of_narrow(
    alloc: Global,
    keys: &[u32],
    eps: u32,
) -> Result<Box<KeptHints>, Answer>
    ensures hints { IfOk result (λ kept. AreHintsOf keys.now eps kept.value) }
    ensures judged { IfOk result (λ _. CanHaveHints keys.now eps) }
    ensures refused { IfErr result (λ answer. IsHintsRefusal keys.now eps answer ⊎
        (CanHaveHints keys.now eps × (answer ≡ refuses NO_MEMORY 0))) }
{
    if eps > MAX_EPSILON {
        return Err(refused(EPSILON_TOO_GREAT, u64::from(eps)));
    }
    match judge_narrow(keys) {
        Ok(()) => match widened(alloc, keys) {
            Ok(wide) => boxed_hints(alloc, &wide, eps),
            Err(_) => Err(refused(NO_MEMORY, 0)),
        },
        Err(fault) => Err(answer_of(fault)),
    }
}

/// The hints of keys, or how these are refused.
fn made(alloc: Global, keys: &[u64], eps: u32) -> Result<Vec<u64>, Answer>
    requires { eps ≤ MAX_EPSILON }
    ensures hints { IfOk result (λ hints. AreHintsOf keys.now eps hints.items) }
    ensures judged { IfOk result (λ _. CanHaveHints keys.now eps) }
    ensures refused { IfErr result (λ answer. IsHintsRefusal keys.now eps answer ⊎
        (CanHaveHints keys.now eps × (answer ≡ refuses NO_MEMORY 0))) }
{
    match hints_of(alloc, keys, eps) {
        Ok(hints) => Ok(hints),
        Err(fault) => Err(answer_of(fault)),
    }
}
