// Keys as the searches read them.
ghost use Rattle.std.specs.Prelude.{◌<◌, ◌^◌, length};
ghost use Rattle.std.specs.List.Sorted.{IsNonDecreasing};

/// Keys that never fall and are fewer than 2^32: who makes them has shown it.
#[derive(Clone, Copy)]
pub struct Sorted<'a> {
    pub keys: &'a [u64],
    pub ghost never_falls: { IsNonDecreasing keys.now },
    pub ghost few: { length keys.now < 2 ^ 32 },
}
