// Times segmenting: `bench segment KEYS EPS [WORKERS]`.
ghost use Rattle.std.specs.Prelude.{◌≡◌, ◌^◌, ◌<◌, ◌≤◌, IsTrue, length};
ghost use Rattle.std.specs.List.Sorted.{IsStrictlyIncreasing, IsNonDecreasing};
ghost use Rattle.exact_cross.specs.declared.TheConstants.{MAX_EPSILON};

use crate::shared::{ROUNDS, error_bound, keys_of, least_of, number};
use anyhow::{Result, bail, ensure};
use edge::OpenGate;
use exact_cross::{MAX_EPSILON, PointList, Segment};
use options::Workers;
use piece_join::{segment_in_pieces, uneven_cuts};
use segmenter::segment;
use std::alloc::{AllocError, Global};
use std::rt::{Clock, Files};
use std::thread::Threads;

/// What is segmented: each distinct key of a file, at the height of its place; the error bound; and
/// by how many workers.
#[derive(Drop)]
struct Job {
    xs: Vec<u64>,
    ys: Vec<u32>,
    eps: u32,
    workers: Workers,
    ghost same_length: { length ys.items ≡ length xs.items },
    ghost rising: { IsStrictlyIncreasing xs.items },
    ghost never_falls: { IsNonDecreasing ys.items },
    ghost few: { length xs.items < 2 ^ 32 },
    ghost bounded: { eps ≤ MAX_EPSILON },
}

/// Times `segment` on the points of a key file, or `segment_in_pieces` by so many workers.
pub fn run<R: AllocGlobal + Files + Print + Clock + Threads + Sync>(
    rt: &R,
    words: &[String],
) -> Result<()> {
    match words {
        [keys, eps] => {
            let job = job_of(rt, keys.as_str(), error_bound(eps.as_str())?, 1)?;
            time_whole(rt, &job)
        }
        [keys, eps, workers] => {
            let workers = number(workers.as_str(), "the number of workers")?;
            let job = job_of(rt, keys.as_str(), error_bound(eps.as_str())?, workers)?;
            time_pieces(rt, &job)
        }
        _ => bail!("usage: bench segment KEYS EPS [WORKERS]"),
    }
}

fn job_of<R: AllocGlobal + Files>(rt: &R, name: &str, eps: u32, workers: u32) -> Result<Job>
    requires { eps ≤ MAX_EPSILON }
{
    ensure!(1 <= workers && workers <= 64, "there are 1 to 64 workers");
    let mut xs = keys_of(rt, name)?;
    xs.dedup();
    let ys = places(rt.alloc(), xs.len())?;
    ensure!(rises(&xs) && never_falls(&ys), "the keys are in no order");
    ensure!(xs.len() == ys.len() && xs.len() < 1 << 32, "too many keys");
    Ok(Job {
        xs,
        ys,
        eps,
        workers: Workers { count: workers },
    })
}

impl Job {
    /// How many points there are.
    fn len(&self) -> u32
        ensures { result ≡ length self.now.xs.items }
    {
        self.xs.len() as u32
    }

    /// The segments of the points in a range.
    fn segments(&self, alloc: Global, from: u32, to: u32) -> Result<Vec<Segment>, AllocError>
        requires range { from ≤ to }
        requires within { to ≤ length self.now.xs.items }
    {
        segment(alloc, self.points(), self.eps, from, to)
    }

    fn points(&self) -> PointList<'_>
        ensures { result.xs.now ≡ self.now.xs.items }
    {
        PointList::new(&self.xs, &self.ys)
    }

    /// How many segments all points have.
    fn count(&self, alloc: Global) -> Result<usize, AllocError> {
        let segments = self.segments(alloc, 0, self.len())?;
        Ok(segments.len())
    }

    /// How many segments uneven pieces by workers give.
    fn count_in_pieces<R: Threads + Sync>(
        &self,
        rt: &R,
        alloc: Global,
    ) -> Result<usize, AllocError> {
        let (points, workers) = (self.points(), self.workers);
        let cuts = uneven_cuts(alloc, self.len(), workers)?;
        let joined = segment_in_pieces(rt, alloc, points, self.eps, &cuts, workers, &OpenGate)?;
        Ok(joined.len())
    }

    /// How many points joining goes over again at an edge, whose piece goes up to `to`.
    fn gone_over(
        &self,
        alloc: Global,
        whole: &[Segment],
        edge: u32,
        to: u32,
    ) -> Result<u32, AllocError> {
        let edge = edge.min(self.len());
        let piece = self.segments(alloc, edge, to.min(self.len()).max(edge))?;
        Ok(gone_over_from(whole, &piece, edge, to))
    }
}

/// Times three rounds over all points.
fn time_whole<R: AllocGlobal + Print + Clock>(rt: &R, job: &Job) -> Result<()> {
    let (taken, runs) = least_of(rt, ROUNDS, || Ok(job.count(rt.alloc())?))?;
    let (n, eps, nanos) = (job.len(), job.eps, taken.as_nanos());
    println!(rt; "keys {n} eps {eps} runs {runs} nanoseconds {nanos}")?;
    Ok(())
}

/// Times three rounds of uneven pieces by workers, and tells what joining them goes over again.
fn time_pieces<R: AllocGlobal + Print + Clock + Threads + Sync>(rt: &R, job: &Job) -> Result<()> {
    let (taken, runs) = least_of(rt, ROUNDS, || Ok(job.count_in_pieces(rt, rt.alloc())?))?;
    let (eps, workers) = (job.eps, job.workers.count);
    let (n, nanos) = (job.len(), taken.as_nanos());
    println!(rt; "keys {n} eps {eps} workers {workers} runs {runs} nanoseconds {nanos}")?;
    tell_joins(rt, job)
}

/// Prints how many points joining goes over again, in all and at most at one edge.
fn tell_joins<R: AllocGlobal + Print>(rt: &R, job: &Job) -> Result<()> {
    let n = job.len();
    let cuts = uneven_cuts(rt.alloc(), n, job.workers)?;
    let whole = job.segments(rt.alloc(), 0, n)?;
    let mut all = 0u64;
    let mut most = 0;
    for i in 0..cuts.len() {
        let to = if i + 1 < cuts.len() { cuts[i + 1] } else { n };
        let again = job.gone_over(rt.alloc(), &whole, cuts[i], to)?;
        all = all.saturating_add(u64::from(again));
        most = again.max(most);
    }
    println!(rt; "edges {} gone over again {all} at most {most}", cuts.len())?;
    Ok(())
}

/// From the start of the run that the edge is in up to the first start that the piece has too.
fn gone_over_from(whole: &[Segment], piece: &[Segment], edge: u32, to: u32) -> u32 {
    let mut from = 0;
    for i in 0..whole.len() {
        let start = whole[i].start;
        if start < edge {
            from = start;
        } else if start >= to || piece.binary_search_by_key(&start, |run| run.start).is_ok() {
            return start.saturating_sub(from);
        }
    }
    to.saturating_sub(from)
}

/// The places below `n`.
fn places(alloc: Global, n: usize) -> Result<Vec<u32>, AllocError> {
    let mut ys = Vec::with_capacity(alloc, n)?;
    for place in 0..u32::MAX {
        if place as usize >= n {
            break;
        }
        ys.push(place)?;
    }
    Ok(ys)
}

fn rises(xs: &[u64]) -> bool
    ensures { IsTrue result → IsStrictlyIncreasing xs.now }
{
    for i in 1..xs.len() {
        if xs[i - 1] >= xs[i] {
            return false;
        }
    }
    true
}

fn never_falls(ys: &[u32]) -> bool
    ensures { IsTrue result → IsNonDecreasing ys.now }
{
    for i in 1..ys.len() {
        if ys[i - 1] > ys[i] {
            return false;
        }
    }
    true
}
