// The inputs of requests: the numbers of files and the lines of scripts.
ghost use Rattle.std.specs.Prelude.{◌≡◌, ◌≤◌, ◌++◌, ◌∷◌, [], All, Err, IfOk, OnOk, length};
ghost use Rattle.zorder.specs.Codes.{IsDimension, IsInRange};
ghost use Rattle.pgm_script.specs.Scripts.{IsKind, IsLineOf};
ghost use Rattle.zorder.specs.Regions.{IsRegionOf};
ghost use Rattle.commands.specs.Tasks.{bounds_of};
ghost use Rattle.command_line.specs.Requests.{built_of};
ghost use Rattle.program.specs.Files.{IsMissing};
ghost use Rattle.program.specs.Inputs.{bounds_in, reads_index, reads_keys, reads_script};
ghost use Rattle.program.specs.Inputs.{centres_in, reads_points, regions_in};
ghost use Rattle.program.specs.Stops.{Answers};

use crate::refusal::{Refusal, Stopped};
use command_line::Building;
use commands::{Centre, Indexing, SortedKeys};
use edge::Shelf;
use pgm_script::{LineList, ScriptKind, ScriptLine, parse_as, read_text};
use sosd_reader::{read_keys, read_points};
use std::alloc::{AllocError, Global};
use zorder::Region;

/// How many bytes a script has at most.
pub const SCRIPT_LIMIT: u64 = 67_108_864;

/// The keys that an index is built of, and how it is built.
pub fn indexing<F: Shelf>(
    alloc: Global,
    files: &mut F,
    building: Building<'_>,
) -> Result<Indexing, Stopped>
    ensures answer { Answers (reads_index (F.files files.old) (built_of building.entry))
        (λ indexing. indexing.sorted.keys.items) (F.faults files.old) (F.faults files.new) result }
    ensures bounds { IfOk result
        (λ indexing. bounds_of indexing.bounds ≡ bounds_in (built_of building.entry)) }
    ensures missing { IsMissing (F.files files.old) building.entry.file.now
        → result ≡ Err (Stopped.Refused Refusal.ReadFault) }
    ensures files { F.files files.new ≡ F.files files.old }
{
    let sorted = sorted_keys(alloc, files, building.file, !building.narrow)?;
    Ok(Indexing {
        sorted,
        bounds: building.bounds,
        workers: building.workers,
    })
}

/// The keys of the key file of this name.
pub fn sorted_keys<F: Shelf>(
    alloc: Global,
    files: &mut F,
    name: &str,
    wide: bool,
) -> Result<SortedKeys, Stopped>
    ensures answer { Answers (reads_keys wide (F.files files.old) name.now)
        (λ sorted. sorted.keys.items) (F.faults files.old) (F.faults files.new) result }
    ensures missing { IsMissing (F.files files.old) name.now
        → result ≡ Err (Stopped.Refused Refusal.ReadFault) }
    ensures files { F.files files.new ≡ F.files files.old }
{
    files.take_file(name)?;
    let keys = read_keys(alloc, files, wide)?;
    Ok(SortedKeys { keys })
}

/// The coordinates of the points of the file of this name.
pub fn coordinates<F: Shelf>(
    alloc: Global,
    files: &mut F,
    name: &str,
    d: u32,
) -> Result<Vec<u32>, Stopped>
    requires { IsDimension d }
    ensures answer { Answers (reads_points d (F.files files.old) name.now)
        (λ coords. coords.items) (F.faults files.old) (F.faults files.new) result }
    ensures missing { IsMissing (F.files files.old) name.now
        → result ≡ Err (Stopped.Refused Refusal.ReadFault) }
    ensures files { F.files files.new ≡ F.files files.old }
{
    files.take_file(name)?;
    Ok(read_points(alloc, files, d)?)
}

/// The lines of the script of this name.
#[tactic(auto, using(crate::proofs::FewEntries::few_lines))]
pub fn script_lines<F: Shelf, L: LineList>(
    alloc: Global,
    files: &mut F,
    name: &str,
    kind: ScriptKind,
) -> Result<L, Stopped>
    requires kind { IsKind kind }
    requires takes { L.takes kind }
    ensures answer { Answers (reads_script kind (F.files files.old) name.now)
        (λ lines. L.lines lines) (F.faults files.old) (F.faults files.new) result }
    // Told or not: a text has no more lines than bytes.
    ensures few { IfOk result (λ lines. length (L.lines lines) ≤ SCRIPT_LIMIT) }
    ensures missing { IsMissing (F.files files.old) name.now
        → result ≡ Err (Stopped.Refused Refusal.ReadFault) }
    ensures files { F.files files.new ≡ F.files files.old }
{
    files.take_file(name)?;
    let text = read_text(alloc, files, SCRIPT_LIMIT)?;
    Ok(parse_as(alloc, kind, &text)?)
}

/// The regions of a script, each of points of `d` coordinates.
pub fn regions_in(alloc: Global, d: u32, lines: &[ScriptLine]) -> Result<Vec<Region>, AllocError>
    requires { All (IsLineOf (ScriptKind.Region d)) lines.now }
    ensures regions { IfOk result (λ regions. regions.items ≡ regions_in lines.now) }
    ensures each { IfOk result (λ regions. All (IsRegionOf d) regions.items) }
{
    let mut regions = Vec::with_capacity(alloc, lines.len())?;
    for i in 0..lines.len() {
        push_region(&mut regions, &lines[i])?;
    }
    Ok(regions)
}

fn push_region(regions: &mut Vec<Region>, line: &ScriptLine) -> Result<(), AllocError>
    ensures { OnOk result
        (regions.new.items ≡ regions.old.items ++ regions_in (line.now ∷ [])) }
{
    if let ScriptLine::Region(region) = line {
        regions.push(*region)?;
    }
    Ok(())
}

/// The centres of a script, each in the range of `d` coordinates.
pub fn centres_in(alloc: Global, d: u32, lines: &[ScriptLine]) -> Result<Vec<Centre>, AllocError>
    requires { All (IsLineOf (ScriptKind.Near d)) lines.now }
    ensures centres { IfOk result (λ centres. centres.items ≡ centres_in lines.now) }
    ensures each { IfOk result
        (λ centres. All (λ centre. IsInRange d centre.place) centres.items) }
{
    let mut centres = Vec::with_capacity(alloc, lines.len())?;
    for i in 0..lines.len() {
        push_centre(&mut centres, &lines[i])?;
    }
    Ok(centres)
}

fn push_centre(centres: &mut Vec<Centre>, line: &ScriptLine) -> Result<(), AllocError>
    ensures { OnOk result
        (centres.new.items ≡ centres.old.items ++ centres_in (line.now ∷ [])) }
{
    if let ScriptLine::Near(place, count) = line {
        centres.push(Centre {
            place: *place,
            count: *count,
        })?;
    }
    Ok(())
}
