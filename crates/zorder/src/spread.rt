//! Pulls the bits of a coordinate apart to every d-th place of a code, and back, by the known steps
//! of shift and mask.
//!
//! A step halves the blocks in which the bits lie, or doubles them. For two coordinates, with four
//! bits `abcd`:
//!
//!     blocks of 4   ........abcd
//!     blocks of 2   ....ab....cd      (x | x << 2), masked
//!     blocks of 1   .a.b.c.d          (x | x << 1), masked
//!
//! A mask has the ones of all blocks of its size in 64 bits, so one mask serves a step up and a
//! step down.

ghost use Rattle.std.specs.Prelude.{◌≡◌, ◌*◌, ◌/◌, ◌%◌, ◌^◌, ◌<◌, bit_and, bit_or};
ghost use Rattle.zorder.specs.Codes.{IsDimension, coordinate, coordinate_bits};
ghost use Rattle.zorder.specs.Spread.{IsSpread};

/// Moves the upper half of each block up by `shift`, and clears what `mask` hasn't.
#[inline]
fn halve_blocks(bits: u64, shift: u32, mask: u64) -> u64
    requires { shift < 64 }
    ensures { result ≡ bit_and (bit_or bits (bits * 2 ^ shift % 2 ^ 64)) mask }
{
    (bits | (bits << shift)) & mask
}

/// Moves each second block down by `shift`, beside the one below it, and clears what `mask` hasn't.
#[inline]
fn join_blocks(bits: u64, shift: u32, mask: u64) -> u64
    requires { shift < 64 }
    ensures { result ≡ bit_and (bit_or bits (bits / 2 ^ shift)) mask }
{
    (bits | (bits >> shift)) & mask
}

/// The 32 bits of a coordinate, at every second place.
fn spread_by_2(value: u32) -> u64
    ensures { IsSpread 1 2 value result }
{
    let blocks_16 = halve_blocks(u64::from(value), 16, 0x0000_ffff_0000_ffff);
    let blocks_8 = halve_blocks(blocks_16, 8, 0x00ff_00ff_00ff_00ff);
    let blocks_4 = halve_blocks(blocks_8, 4, 0x0f0f_0f0f_0f0f_0f0f);
    let blocks_2 = halve_blocks(blocks_4, 2, 0x3333_3333_3333_3333);
    halve_blocks(blocks_2, 1, 0x5555_5555_5555_5555)
}

/// The 21 bits of a coordinate, at every third place.
fn spread_by_3(value: u32) -> u64
    requires { value < 2 ^ 21 }
    ensures { IsSpread 1 3 value result }
{
    let blocks_16 = halve_blocks(u64::from(value), 32, 0xffff_0000_0000_ffff);
    let blocks_8 = halve_blocks(blocks_16, 16, 0x00ff_0000_ff00_00ff);
    let blocks_4 = halve_blocks(blocks_8, 8, 0xf00f_00f0_0f00_f00f);
    let blocks_2 = halve_blocks(blocks_4, 4, 0x30c3_0c30_c30c_30c3);
    halve_blocks(blocks_2, 2, 0x9249_2492_4924_9249)
}

/// The 16 bits of a coordinate, at every fourth place.
fn spread_by_4(value: u32) -> u64
    requires { value < 2 ^ 16 }
    ensures { IsSpread 1 4 value result }
{
    let blocks_8 = halve_blocks(u64::from(value), 24, 0x0000_00ff_0000_00ff);
    let blocks_4 = halve_blocks(blocks_8, 12, 0x000f_000f_000f_000f);
    let blocks_2 = halve_blocks(blocks_4, 6, 0x0303_0303_0303_0303);
    halve_blocks(blocks_2, 3, 0x1111_1111_1111_1111)
}

/// The bits of a coordinate, at every d-th place of a code.
pub fn spread(d: u32, value: u32) -> u64
    requires dimension { IsDimension d }
    requires range { value < 2 ^ coordinate_bits d }
    ensures { IsSpread 1 d value result }
{
    match d {
        2 => spread_by_2(value),
        3 => spread_by_3(value),
        _ => spread_by_4(value),
    }
}

/// The number that every second bit makes, from the lowest on.
#[inline]
fn gather_by_2(code: u64) -> u32
    ensures { result ≡ coordinate 2 0 code }
{
    let blocks_1 = code & 0x5555_5555_5555_5555;
    let blocks_2 = join_blocks(blocks_1, 1, 0x3333_3333_3333_3333);
    let blocks_4 = join_blocks(blocks_2, 2, 0x0f0f_0f0f_0f0f_0f0f);
    let blocks_8 = join_blocks(blocks_4, 4, 0x00ff_00ff_00ff_00ff);
    let blocks_16 = join_blocks(blocks_8, 8, 0x0000_ffff_0000_ffff);
    join_blocks(blocks_16, 16, 0x0000_0000_ffff_ffff) as u32
}

/// The number that every third bit makes, from the lowest on.
#[inline]
fn gather_by_3(code: u64) -> u32
    ensures { result ≡ coordinate 3 0 code }
{
    let blocks_1 = code & 0x9249_2492_4924_9249;
    let blocks_2 = join_blocks(blocks_1, 2, 0x30c3_0c30_c30c_30c3);
    let blocks_4 = join_blocks(blocks_2, 4, 0xf00f_00f0_0f00_f00f);
    let blocks_8 = join_blocks(blocks_4, 8, 0x00ff_0000_ff00_00ff);
    // Each block is a byte of its own now, and bytes are put side by side in one step where a loop
    // over codes is made of vectors.
    ((blocks_8 & 0xff) | ((blocks_8 >> 16) & 0xff00) | ((blocks_8 >> 32) & 0xff_0000)) as u32
}

/// The number that every fourth bit makes, from the lowest on.
#[inline]
fn gather_by_4(code: u64) -> u32
    ensures { result ≡ coordinate 4 0 code }
{
    let blocks_1 = code & 0x1111_1111_1111_1111;
    let blocks_2 = join_blocks(blocks_1, 3, 0x0303_0303_0303_0303);
    let blocks_4 = join_blocks(blocks_2, 6, 0x000f_000f_000f_000f);
    let blocks_8 = join_blocks(blocks_4, 12, 0x0000_00ff_0000_00ff);
    join_blocks(blocks_8, 24, 0x0000_0000_0000_ffff) as u32
}

/// The first coordinate of a code: the number that every d-th bit makes, from the lowest on.
#[inline(always)]
pub fn gather(d: u32, code: u64) -> u32
    requires { IsDimension d }
    ensures { result ≡ coordinate d 0 code }
{
    match d {
        2 => gather_by_2(code),
        3 => gather_by_3(code),
        _ => gather_by_4(code),
    }
}
