// Hints that are made of keys.
ghost use Rattle.std.specs.Prelude.{◌≡◌, ℕ, ◌+◌, ◌*◌, ◌<◌, ◌≤◌, ◌^◌, ◌∷◌, [], ◌++◌, length};
ghost use Rattle.std.specs.Prelude.{IfOk, OnOk, Err};
ghost use Rattle.std.specs.List.Sorted.{IsNonDecreasing};
ghost use Rattle.budget.specs.Ledgers.{IsNewLedger};
ghost use Rattle.exact_cross.specs.Points.{points_of};
ghost use Rattle.exact_cross.specs.PointLists.{points_in};
ghost use Rattle.key_points.specs.KeyPoints.{xs_of, ys_of};
ghost use Rattle.key_points.specs.Falls.{IsFirstFall};
ghost use Rattle.key_points.specs.declared.fault.KeysFault.TheVariants.{Falls, TooMany};
ghost use Rattle.hints.specs.Leads.{AreFew, AreInFormat, HaveLeastLines};
ghost use Rattle.hints.specs.Lookups.{LeadsWithin};
ghost use Rattle.hints.specs.Made.{AreLinesBefore, AreLinesOver};

use crate::line_hints::{LineHints, hints_of_run};
use crate::table::head_of;
use budget::{NoMemory, Steps};
use exact_cross::{MAX_EPSILON, PointList};
use hulls::Hulls;
use key_points::{KeyPoints, KeysFault, judge};
use segmenter::run::longest_run;
use std::alloc::Global;
use std::marker::Brand;
use std::sync::ledger::{Blank, Ledger};

/// The hints of lines of keys, which lead a lookup to nearly its place.
///
/// `eps` is the error bound ε, in places: with a larger one there are fewer lines, and what they
/// tell is further off. There are at most 6 hints and five for each line. Keys at even steps are
/// told exactly, which no clause says.
///
/// The keys are borrowed and not copied; while the lines are made it takes 4 bytes a key where none
/// repeats, and at most 12 where one does, beside the hulls of the segmentation.
///
/// # Errors
///
/// - `TooMany` where there are 2^32 keys or more. It is judged first.
/// - `Falls` where a key is below the one before it, with the first place.
/// - `NoMemory` where memory wasn't found.
///
/// Source: Ferragina and Vinciguerra, PVLDB 13(8), 2020, sections 2 and 3.1.
pub fn hints_of(alloc: Global, keys: &[u64], eps: u32) -> Result<Vec<u64>, KeysFault>
    requires { eps ≤ MAX_EPSILON }
    // What is told of each question is at most ε + 2 places from its lower bound.
    ensures lead { IfOk result (λ hints. LeadsWithin hints.items keys.now (eps + 2)) }
    // No cover of the keys' points by lines within ε has fewer lines.
    ensures least { IfOk result (λ hints. HaveLeastLines keys.now eps hints.items) }
    // The number of the format first, then ε, and how many lines and hints of a table there are.
    ensures format { IfOk result (λ hints. AreInFormat eps hints.items) }
    // At most 6 hints, and five for each line.
    ensures small { IfOk result (λ hints. AreFew hints.items) }
    ensures too_many { 2 ^ 32 ≤ length keys.now → result ≡ Err (TooMany (length keys.now)) }
    ensures too_many_only { (count : ℕ) → result ≡ Err (TooMany count) →
        (count ≡ length keys.now) × (2 ^ 32 ≤ count) }
    ensures falls { (place : ℕ) → length keys.now < 2 ^ 32 → IsFirstFall keys.now place →
        result ≡ Err (Falls place) }
    ensures falls_only { (place : ℕ) → result ≡ Err (Falls place) → IsFirstFall keys.now place }
{
    judge(keys)?;
    Ok(hints_of_sorted(alloc, keys, eps)?)
}

/// The hints of lines of keys that never fall.
fn hints_of_sorted(alloc: Global, keys: &[u64], eps: u32) -> Result<Vec<u64>, NoMemory>
    requires never_falls { IsNonDecreasing keys.now }
    requires few { length keys.now < 2 ^ 32 }
    requires bounded { eps ≤ MAX_EPSILON }
    ensures { IfOk result (λ hints. AreLinesOver (points_of (xs_of keys.now) (ys_of keys.now)) eps
        hints.items) }
{
    let own = KeyPoints::of(alloc, keys)?;
    hints_over(alloc, own.points(), eps)
}

/// The hints of the lines of points.
fn hints_over(alloc: Global, points: PointList<'_>, eps: u32) -> Result<Vec<u64>, NoMemory>
    requires bounded { eps ≤ MAX_EPSILON }
    ensures { IfOk result (λ hints. AreLinesOver (points_in points.entry) eps hints.items) }
{
    let lines = lines_over::<Brand>(alloc, points, eps, Blank::new(1))?;
    let mut hints = head_of(alloc, &lines, eps)?;
    hints.extend_from_slice(&lines)?;
    Ok(hints)
}

/// The lines of the longest runs of points, three numbers each.
fn lines_over<L: Ledger>(
    alloc: Global,
    points: PointList<'_>,
    eps: u32,
    blank: Blank,
) -> Result<Vec<u64>, NoMemory>
    requires bounded { eps ≤ MAX_EPSILON }
    requires ledger { IsNewLedger blank L.name L.parts }
    ensures { IfOk result (λ lines. AreLinesBefore (points_in points.entry) eps
        (length points.entry.xs.now) lines.items) }
{
    let mut steps = Steps::<L>::new(blank);
    let end = points.xs.len() as u32;
    let mut hulls = Hulls::new(alloc, eps, end)?;
    let mut lines = Vec::new(alloc);
    let mut start = 0;
    while start < end {
        let run = longest_run(&mut hulls, points, start, end, &mut steps);
        let line = hints_of_run(points, start, &run, eps);
        push_line(&mut lines, &line)?;
        start = run.end;
    }
    Ok(lines)
}

/// Adds the hints of a line.
fn push_line(lines: &mut Vec<u64>, line: &LineHints) -> Result<(), NoMemory>
    ensures { OnOk result (lines.new.items ≡
        lines.old.items ++ line.now.first ∷ line.now.multiplier ∷ line.now.packed ∷ []) }
{
    lines.push(line.first)?;
    lines.push(line.multiplier)?;
    lines.push(line.packed)?;
    Ok(())
}
