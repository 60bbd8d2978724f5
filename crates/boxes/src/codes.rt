// The sorted codes of points.
ghost use Rattle.std.specs.Prelude.{◌≡◌, ◌*◌, ◌<◌, ◌^◌, All, vec_len, IfOk};
ghost use Rattle.zorder.specs.Codes.{IsCode, IsDimension};
ghost use Rattle.zorder.specs.Points.{ArePoints};
ghost use Rattle.boxes.specs.PointCodes.{codes_of, AreSortedCodes};

use budget::NoMemory;
use rayon::slice::par_sort_unstable;
use std::alloc::Global;
use std::thread::Threads;
use zorder::encode;

/// The codes of points, sorted by threads.
pub fn sorted_codes(
    rt: &(impl Threads + Sync),
    alloc: Global,
    d: u32,
    points: &[u32],
) -> Result<Vec<u64>, NoMemory>
    requires dimension { IsDimension d }
    requires points { ArePoints d points.now }
    ensures sorted { IfOk result (λ codes. AreSortedCodes d points.now codes.items) }
    ensures few { IfOk result (λ codes. vec_len codes < 2 ^ 32) }
    ensures each { IfOk result (λ codes. All (λ z. IsCode d z) codes.items) }
{
    let mut codes = point_codes(alloc, d, points)?;
    par_sort_unstable(rt, &mut codes);
    Ok(codes)
}

/// The codes of points, in their order.
fn point_codes(alloc: Global, d: u32, points: &[u32]) -> Result<Vec<u64>, NoMemory>
    requires dimension { IsDimension d }
    requires points { ArePoints d points.now }
    ensures codes { IfOk result (λ codes. codes.items ≡ codes_of d points.now) }
    ensures few { IfOk result (λ codes. vec_len codes < 2 ^ 32) }
    ensures each { IfOk result (λ codes. All (λ z. IsCode d z) codes.items) }
{
    let size = d as usize;
    let count = points.len() / size;
    let mut codes = Vec::with_capacity(alloc, count)?;
    for i in 0..count {
        let start = i * size;
        codes.push(encode(d, &points[start..start + size]))?;
    }
    Ok(codes)
}
