// All lists for a number and a seed, and the region.
ghost use Rattle.std.specs.Prelude.{◌≡◌, ◌*◌, ◌<◌, ◌^◌};
ghost use Rattle.std.specs.Prelude.{All, IfOk, vec_len};
ghost use Rattle.std.specs.List.Sorted.{IsNonDecreasing};
ghost use Rattle.zorder.specs.Points.{ArePoints};
ghost use Rattle.zorder.specs.Regions.{IsRegion};
ghost use Rattle.log_levels.specs.Accepted.{IsPlain};
ghost use Rattle.drill_inputs.specs.Inputs.{keys_of, finds_of, coordinates_of, updates_of};
ghost use Rattle.drill_inputs.specs.Inputs.{searched_region};

use crate::generator::Generator;
use crate::lists;
use budget::NoMemory;
use log_levels::Update;
use options::Drill;
use std::alloc::Global;
use zorder::Region;

/// Inputs that are drawn for a number `n` and a seed.
#[derive(Drop)]
pub struct Inputs {
    /// `n` keys, which never fall.
    pub keys: Vec<u64>,
    /// `n` questions.
    pub finds: Vec<u64>,
    /// The coordinates of `n` points in the plane, those of the first point first.
    pub coordinates: Vec<u32>,
    /// `n` updates, without a sweep.
    pub updates: Vec<Update>,
}

impl Inputs {
    /// Draws keys, questions, points and updates, `n` of each, by a seed.
    ///
    /// `n` is from 1 to 1,000,000, and the seed below 2^31. Each list takes its memory at once: 8
    /// bytes a key, a question and a point, and 24 bytes an update.
    ///
    /// # Errors
    ///
    /// `NoMemory` alone.
    pub fn drawn(alloc: Global, drill: Drill) -> Result<Inputs, NoMemory>
        ensures keys { IfOk result (λ inputs. inputs.keys.items ≡ keys_of drill.number drill.seed) }
        ensures finds { IfOk result
            (λ inputs. inputs.finds.items ≡ finds_of drill.number drill.seed) }
        ensures coordinates { IfOk result
            (λ inputs. inputs.coordinates.items ≡ coordinates_of drill.number drill.seed) }
        ensures updates { IfOk result
            (λ inputs. inputs.updates.items ≡ updates_of drill.number drill.seed) }
        ensures key_count { IfOk result (λ inputs. vec_len inputs.keys ≡ drill.number) }
        ensures never_falls { IfOk result (λ inputs. IsNonDecreasing inputs.keys.items) }
        ensures small { IfOk result (λ inputs. All (λ key. key < 2 ^ 24) inputs.keys.items) }
        ensures find_count { IfOk result (λ inputs. vec_len inputs.finds ≡ drill.number) }
        ensures points { IfOk result (λ inputs. ArePoints 2 inputs.coordinates.items) }
        ensures point_count { IfOk result
            (λ inputs. vec_len inputs.coordinates ≡ 2 * drill.number) }
        ensures near { IfOk result
            (λ inputs. All (λ value. value < 256) inputs.coordinates.items) }
        ensures plain { IfOk result (λ inputs. All IsPlain inputs.updates.items) }
        ensures update_count { IfOk result (λ inputs. vec_len inputs.updates ≡ drill.number) }
    {
        let n = drill.number;
        let mut generator = Generator::new(drill.seed);
        let keys = lists::keys(alloc, n, &mut generator)?;
        let finds = lists::finds(alloc, n, &mut generator)?;
        let coordinates = lists::coordinates(alloc, n, &mut generator)?;
        let updates = lists::updates(alloc, n, &mut generator)?;
        Ok(Inputs {
            keys,
            finds,
            coordinates,
            updates,
        })
    }
}

/// The region that is searched: the points from (64, 64) to (191, 191).
pub fn searched_region() -> Region
    ensures region { result ≡ searched_region }
    ensures valid { IsRegion result }
{
    Region {
        d: 2,
        low: [64, 64, 0, 0],
        high: [191, 191, 0, 0],
    }
}
