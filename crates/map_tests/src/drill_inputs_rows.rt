//! Draws and inputs that were worked out by hand or by a plain program.

use drill_inputs::{Generator, Inputs, searched_region};
use log_levels::Update;
use options::{Drill, MAX_DRAWN, MAX_SEED};
use std::process::Abort;
use std::test::Fail;
use zorder::{encode, inside};

/// Seeds and their first twelve draws; of 1 they are those of the standard's example.
const DRAWS: [(u32, [u32; 12]); 3] = [
    (
        1,
        [
            16838, 5758, 10113, 17515, 31051, 5627, 23010, 7419, 16212, 4086, 2749, 12767,
        ],
    ),
    (
        0,
        [
            0, 21468, 9988, 22117, 3498, 16927, 16045, 19741, 12122, 8410, 12261, 27052,
        ],
    ),
    (
        2_147_483_647,
        [
            15929, 4409, 9862, 26718, 8713, 28226, 9080, 32063, 8032, 12734, 21773, 8569,
        ],
    ),
];

#[test]
fn first_draws(rt: HostRuntime) {
    for (seed, draws) in DRAWS {
        assert!(rt; seed < 1 << 31);
        let mut generator = Generator::new(seed);
        for draw in draws {
            assert_eq!(rt; generator.next(), draw, "{seed}");
        }
    }
}

/// All inputs for a number and a seed.
struct Row<'a> {
    n: u32,
    seed: u32,
    keys: &'a [u64],
    finds: &'a [u64],
    coordinates: &'a [u32],
    updates: &'a [Update],
}

const ROWS: [Row; 4] = [
    Row {
        n: 1,
        seed: 0,
        keys: &[0],
        finds: &[12],
        coordinates: &[4, 101],
        updates: &[Update::Put(0, 16927)],
    },
    Row {
        n: 2,
        seed: 1,
        keys: &[6, 20],
        finds: &[1, 11],
        coordinates: &[75, 251, 226, 251],
        updates: &[Update::Put(0, 4086), Update::Put(1, 12767)],
    },
    Row {
        n: 3,
        seed: 2_147_483_647,
        keys: &[9, 18, 24],
        finds: &[30, 25, 2],
        coordinates: &[120, 63, 96, 190, 13, 121],
        updates: &[Update::Del(0), Update::Put(1, 1438), Update::Put(0, 31282)],
    },
    Row {
        n: 4,
        seed: 7,
        keys: &[12, 26, 30, 32],
        finds: &[19, 37, 34, 46],
        coordinates: &[49, 161, 205, 19, 190, 18, 237, 66],
        updates: &[
            Update::Put(1, 23654),
            Update::Del(2),
            Update::Put(0, 18467),
            Update::Put(3, 29658),
        ],
    },
];

#[test]
fn rows_of_inputs(rt: HostRuntime) -> Result<(), Fail> {
    for row in &ROWS {
        let (n, seed) = (row.n, row.seed);
        assert!(rt; 1 <= n && n <= MAX_DRAWN && seed <= MAX_SEED);
        let inputs = Inputs::drawn(rt.alloc(), Drill { number: n, seed })?;
        assert_eq!(rt; inputs.keys.as_slice(), row.keys, "{n} {seed}");
        assert_eq!(rt; inputs.finds.as_slice(), row.finds, "{n} {seed}");
        assert_eq!(rt;
            inputs.coordinates.as_slice(),
            row.coordinates,
            "{n} {seed}"
        );
        assert_eq!(rt; inputs.updates.as_slice(), row.updates, "{n} {seed}");
    }
    Ok(())
}

#[test]
fn as_many_as_there_can_be(rt: HostRuntime) -> Result<(), Fail> {
    let drill = Drill {
        number: 1_000_000,
        seed: 2_147_483_647,
    };
    let inputs = Inputs::drawn(rt.alloc(), drill)?;
    assert_eq!(rt; inputs.keys.last().copied(), Some(7_500_019));
    assert_eq!(rt; inputs.finds.last().copied(), Some(12508));
    assert_eq!(rt; inputs.coordinates.last().copied(), Some(15));
    assert_eq!(rt;
        inputs.updates.last().copied(),
        Some(Update::Put(24130, 28057))
    );
    Ok(())
}

#[test]
fn corners_of_the_region(rt: HostRuntime) {
    let region = searched_region();
    for coords in [[64, 64], [64, 191], [191, 64], [191, 191]] {
        assert!(rt; inside(&region, encode(2, &coords)), "{coords:?}");
    }
    for coords in [[63, 64], [64, 63], [192, 191], [191, 192]] {
        assert!(rt; !inside(&region, encode(2, &coords)), "{coords:?}");
    }
}
