// Each of the lists, from a generator that has drawn those before it.
ghost use Rattle.std.specs.Prelude.{◌≡◌, ℕ, ◌*◌, ◌≤◌, IfOk, OnOk};
ghost use Rattle.options.specs.declared.drawing.TheConstants.{MAX_DRAWN};
ghost use Rattle.drill_inputs.specs.Draws.{state_after};
ghost use Rattle.drill_inputs.specs.Inputs.{keys_of, finds_of, coordinates_of, updates_of};
ghost use Rattle.drill_inputs.specs.Inputs.{update_by};

use crate::generator::Generator;
use budget::NoMemory;
use log_levels::Update;
use std::alloc::Global;

/// The keys, which take the first `n` draws.
pub fn keys(alloc: Global, n: u32, generator: &mut Generator) -> Result<Vec<u64>, NoMemory>
    requires { n ≤ MAX_DRAWN }
    ensures keys { IfOk result (λ keys. keys.items ≡ keys_of n generator.old) }
    ensures state { OnOk result (generator.new ≡ state_after generator.old n) }
{
    let mut keys = Vec::with_capacity(alloc, n as usize)?;
    let mut key = 0;
    for _place in 0..n {
        key += u64::from(generator.next() % 16);
        keys.push(key)?;
    }
    Ok(keys)
}

/// The questions, which take the next `n`.
pub fn finds(alloc: Global, n: u32, generator: &mut Generator) -> Result<Vec<u64>, NoMemory>
    requires some { 1 ≤ n }
    requires few { n ≤ MAX_DRAWN }
    ensures finds { IfOk result (λ finds. (seed : ℕ) → generator.old ≡ state_after seed n →
        finds.items ≡ finds_of n seed) }
    ensures state { OnOk result ((seed : ℕ) → generator.old ≡ state_after seed n →
        generator.new ≡ state_after seed (2 * n)) }
{
    let mut finds = Vec::with_capacity(alloc, n as usize)?;
    for _place in 0..n {
        finds.push(u64::from(generator.next() % (16 * n)))?;
    }
    Ok(finds)
}

/// The coordinates of the points, which take the next `2 * n`.
pub fn coordinates(alloc: Global, n: u32, generator: &mut Generator) -> Result<Vec<u32>, NoMemory>
    requires { n ≤ MAX_DRAWN }
    ensures coordinates { IfOk result (λ coordinates. (seed : ℕ) →
        generator.old ≡ state_after seed (2 * n) →
        coordinates.items ≡ coordinates_of n seed) }
    ensures state { OnOk result ((seed : ℕ) → generator.old ≡ state_after seed (2 * n) →
        generator.new ≡ state_after seed (4 * n)) }
{
    let mut coordinates = Vec::with_capacity(alloc, 2 * n as usize)?;
    for _place in 0..2 * n {
        coordinates.push(generator.next() % 256)?;
    }
    Ok(coordinates)
}

/// The updates, which take the next `2 * n`.
pub fn updates(alloc: Global, n: u32, generator: &mut Generator) -> Result<Vec<Update>, NoMemory>
    requires some { 1 ≤ n }
    requires few { n ≤ MAX_DRAWN }
    ensures { IfOk result (λ updates. (seed : ℕ) →
        generator.old ≡ state_after seed (4 * n) → updates.items ≡ updates_of n seed) }
{
    let mut updates = Vec::with_capacity(alloc, n as usize)?;
    for _place in 0..n {
        let key = generator.next() % n;
        let draw = generator.next();
        updates.push(update_by(u64::from(key), u64::from(draw)))?;
    }
    Ok(updates)
}

/// The update that a draw makes of a key.
fn update_by(key: u64, draw: u64) -> Update
    ensures { result ≡ update_by key draw }
{
    if draw % 4 == 0 {
        Update::Del(key)
    } else {
        Update::Put(key, draw)
    }
}
