// The entries, in one pass over the numbers.
ghost use Rattle.std.specs.Prelude.{◌+◌, ◌-◌, ◌<◌, ◌^◌};
ghost use Rattle.std.specs.Prelude.{IfOk, OnOk, length};
ghost use Rattle.std.specs.List.Sorted.{IsNonDecreasing};
ghost use Rattle.radix_table.specs.Candidates.{AreFew};
ghost use Rattle.radix_table.specs.Tables.{AreCounts, HasAtMost, IsFilledTo, IsScale, step_of};

use crate::scale::Scale;
use budget::NoMemory;
use std::alloc::Global;

/// The entries of all steps up to that of the last number, and one more, which is how many there
/// are.
pub fn entries_of(alloc: Global, xs: &[u64], scale: &Scale) -> Result<Vec<u32>, NoMemory>
    requires order { IsNonDecreasing xs.now }
    requires few { length xs.now < 2 ^ 32 }
    requires scale { IsScale scale.now }
    requires steps { AreFew xs.now scale.now }
    ensures { IfOk result (λ entries. AreCounts (step_of scale.now) xs.now entries.items) }
{
    let mut entries = Vec::new(alloc);
    for place in 0..xs.len() {
        let step = scale.step(xs[place]);
        fill_to(&mut entries, step as usize + 1, place as u32)?;
    }
    entries.push(xs.len() as u32)?;
    Ok(entries)
}

/// Appends a number until the list has `to` of them; a list that has as many stays as it is.
///
/// # Errors
///
/// `NoMemory` alone; then some may have been appended.
pub fn fill_to(entries: &mut Vec<u32>, to: usize, number: u32) -> Result<(), NoMemory>
    ensures { OnOk result (IsFilledTo to number entries.old.items entries.new.items) }
{
    for _entry in entries.len()..to {
        entries.push(number)?;
    }
    Ok(())
}

/// How many numbers the fullest step has at most.
pub fn fullest(entries: &[u32]) -> u32
    ensures { HasAtMost result entries.now }
{
    let mut most = 0;
    for place in 1..entries.len() {
        most = most.max(entries[place].saturating_sub(entries[place - 1]));
    }
    most
}
