//! Listings for pixels of other bits than the program's, with values that were worked out by hand.
ghost use Rattle.std.specs.Prelude.{◌≤◌, length};

use crate::runs::try_bytes;
use px_array::PixelArray;
use px_asm::Operating;
use px_io::MemSink;
use px_listing::{play, read_listing, write_listing, write_memory};
use std::alloc::Global;
use std::process::Abort;
use std::test::Fail;

/// The passes of a scene of one solid.
fn passes() -> &'static [u8]
    ensures { length result.now ≤ 1000 }
{
    "pxlist 1\ngrid 1 1\nall\nload-const 0 6 60\nall\nset-bit 12 0\nall\n\
    keep-sign 0 0 -5\nkeep-sign 0 0 8\nkeep-sign 0 0 14\nload-linear 0 0 0 8 4\n\
    load-const 6 2 1\nset-bit 12 1\nall\nkeep-sign 0 0 4\nkeep-sign 0 0 3\nkeep-sign 0 0 9\n\
    load-linear 0 0 5 8 4\nload-const 6 2 2\nset-bit 12 1\nall\nkeep-bit 12 1\n\
    keep-less 6 6 0\ncopy 6 6 0\nend\n"
        .as_bytes()
}

/// What they leave: the face 2 at depth 5, twice. No product of one solid needs the bit "par".
fn passes_left_without_par() -> &'static [u8] {
    "pixel 0 0 m 0110100110101 e 1\n\
    pixel 1 0 m 0110100110101 e 1\npixel 0 1 m 0110100110101 e 1\n\
    pixel 1 1 m 0110100110101 e 1\n"
        .as_bytes()
}

/// Each operation once.
fn each() -> &'static [u8]
    ensures { length result.now ≤ 1000 }
{
    "pxlist 1\ngrid 9 2\nall\nkeep-sign -134217728 134217728 -274877906944\n\
    keep-bit 255 0\nset-bit 0 1\ntoggle 7\nload-linear 0 0 0 216 40\nkeep-at-most 1 2 3 4 5\n\
    add-linear -1 -2 -3 4 5\nload-const 3 40 1099511627775\ncopy 0 4 4\nkeep-less 4 4 5\nend\n"
        .as_bytes()
}

#[test]
fn passes_are_played_on_13_bits(rt: HostRuntime) -> Result<(), Fail> {
    let alloc = rt.alloc();
    let mut out = MemSink::new(alloc, 1000, 300, Vec::new(alloc))?;
    try_bits::<13>(&rt, alloc, &mut out)
}

/// The passes on pixels of so many bits.
fn try_bits<const N: usize>(rt: &impl Abort, alloc: Global, out: &mut MemSink) -> Result<(), Fail>
    requires bits { N ≤ 256 }
{
    let mut array = PixelArray::<N>::new(alloc);
    try_passes(rt, alloc, &mut array, out)
}

fn try_passes<A: Operating>(
    rt: &impl Abort,
    alloc: Global,
    array: &mut A,
    out: &mut MemSink,
) -> Result<(), Fail> {
    assert!(rt; A::BITS <= 256);
    let listing = read_listing(alloc, passes(), A::BITS as u32)?;
    play(&listing, array)?;
    write_memory(array, out)?;
    try_bytes(rt, out.written(), passes_left_without_par());
    assert_eq!(rt; array.clocks(), 317);
    Ok(())
}

#[test]
fn each_operation_is_read_and_written(rt: HostRuntime) -> Result<(), Fail> {
    let alloc = rt.alloc();
    let mut out = MemSink::new(alloc, 1000, 1000, Vec::new(alloc))?;
    try_each(&rt, alloc, &mut out)
}

fn try_each(rt: &impl Abort, alloc: Global, out: &mut MemSink) -> Result<(), Fail> {
    let listing = read_listing(alloc, each(), 256)?;
    write_listing(&listing, out)?;
    try_bytes(rt, out.written(), each());
    Ok(())
}
