//! The operations on four pixels of sixteen bits.
ghost use Rattle.std.specs.Prelude.{◌≡◌};
ghost use Rattle.px_array.specs.Arrays.{HasPixel};

use px_array::{Array, PixelArray};
use px_asm::{cycles, micro_at, number_in};
use px_macro::{Field, Macro, lawful};
use px_num::{Linear, Memory};
use std::process::Abort;
use std::test::Fail;

const LOW: Field = Field { at: 4, len: 4 };

const HIGH: Field = Field { at: 8, len: 4 };

const BOTH: Field = Field { at: 4, len: 8 };

const WHOLE: Field = Field { at: 0, len: 16 };

/// 1, 4, -4 and -1.
const SLOPE: Linear = Linear { a: 3, b: -5, c: 1 };

const RISE: Linear = Linear { a: 2, b: 0, c: 13 };

const STEP: Linear = Linear { a: 1, b: 0, c: 12 };

const FALL: Linear = Linear {
    a: -1,
    b: -1,
    c: -9,
};

/// An operation, and what it leaves at the pixels (0, 0), (1, 0), (0, 1) and (1, 1): the enable
/// register and the memory. Each row goes on from the one before it.
const ROWS: [(Macro, [u32; 4]); 16] = [
    (Macro::All, [0x1_0000, 0x1_0000, 0x1_0000, 0x1_0000]),
    (
        Macro::LoadConst(HIGH, 12),
        [0x1_0c00, 0x1_0c00, 0x1_0c00, 0x1_0c00],
    ),
    (
        Macro::LoadLinear(SLOPE, LOW),
        [0x1_0c10, 0x1_0c40, 0x1_0cc0, 0x1_0cf0],
    ),
    (
        Macro::KeepLess(LOW, HIGH),
        [0x1_0c10, 0x1_0c40, 0x0_0cc0, 0x0_0cf0],
    ),
    (
        Macro::AddLinear(RISE, LOW),
        [0x1_0ce0, 0x1_0c30, 0x0_0cc0, 0x0_0cf0],
    ),
    (Macro::Toggle(0), [0x1_0ce1, 0x1_0c31, 0x0_0cc0, 0x0_0cf0]),
    (Macro::All, [0x1_0ce1, 0x1_0c31, 0x1_0cc0, 0x1_0cf0]),
    (
        Macro::KeepAtMost(STEP, LOW),
        [0x1_0ce1, 0x0_0c31, 0x1_0cc0, 0x1_0cf0],
    ),
    (
        Macro::Copy(LOW, HIGH),
        [0x1_0ee1, 0x0_0c31, 0x1_0cc0, 0x1_0ff0],
    ),
    (
        Macro::KeepSign(SLOPE),
        [0x1_0ee1, 0x0_0c31, 0x0_0cc0, 0x0_0ff0],
    ),
    (
        Macro::SetBit(15, true),
        [0x1_8ee1, 0x0_0c31, 0x0_0cc0, 0x0_0ff0],
    ),
    (Macro::All, [0x1_8ee1, 0x1_0c31, 0x1_0cc0, 0x1_0ff0]),
    (
        Macro::KeepBit(15, false),
        [0x0_8ee1, 0x1_0c31, 0x1_0cc0, 0x1_0ff0],
    ),
    (
        Macro::AddLinear(FALL, BOTH),
        [0x0_8ee1, 0x1_0b91, 0x1_0c20, 0x1_0f40],
    ),
    (
        Macro::KeepLess(LOW, HIGH),
        [0x0_8ee1, 0x1_0b91, 0x1_0c20, 0x1_0f40],
    ),
    (
        Macro::LoadLinear(SLOPE, WHOLE),
        [0x0_8ee1, 0x1_0004, 0x1_fffc, 0x1_ffff],
    ),
];

#[test]
fn each_operation_leaves_its_meaning(rt: HostRuntime) -> Result<(), Fail> {
    try_operations(&rt, &mut PixelArray::<16>::new(rt.alloc()))?;
    Ok(())
}

fn try_operations<A: Array>(rt: &impl Abort, array: &mut A) -> Result<(), Memory> {
    assert!(rt; A::BITS == 16);
    array.open(1, 1)?;
    for (m, want) in &ROWS {
        carry_out(rt, array, m);
        for y in 0..2 {
            for x in 0..2 {
                try_pixel(rt, array, x, y, want[(2 * y + x) as usize]);
            }
        }
    }
    Ok(())
}

#[test]
fn clocks_on_the_smallest_grid(rt: HostRuntime) {
    let six = Field { at: 0, len: 6 };
    let other = Field { at: 6, len: 6 };
    let rows = [
        (Macro::All, 1),
        (Macro::KeepSign(SLOPE), 43),
        (Macro::LoadLinear(SLOPE, LOW), 7),
        (Macro::KeepAtMost(SLOPE, LOW), 8),
        (Macro::AddLinear(SLOPE, LOW), 7),
        (Macro::LoadConst(six, 1), 6),
        (Macro::KeepLess(six, other), 14),
        (Macro::Copy(six, other), 12),
    ];
    for (m, want) in &rows {
        assert!(rt; lawful(m, 256));
        assert!(rt; cycles(m, 1, 1) == *want);
    }
}

/// Clocks the micros of an operation.
fn carry_out<A: Array>(rt: &impl Abort, array: &mut A, m: &Macro)
    requires bits { A.BITS ≡ 16 }
    requires columns { (A.view array.old).device.state.tree.nx ≡ 1 }
    requires rows { (A.view array.old).device.state.tree.ny ≡ 1 }
    ensures columns { (A.view array.new).device.state.tree.nx ≡ 1 }
    ensures rows { (A.view array.new).device.state.tree.ny ≡ 1 }
{
    assert!(rt; lawful(m, 16) && lawful(m, 256));
    assert!(rt; array.clocks() < 1000);
    for i in 0..cycles(m, 1, 1) {
        array.clock(micro_at(m, 1, 1, i));
    }
}

/// The enable register and the memory of a pixel, after an operation.
fn try_pixel<A: Array>(rt: &impl Abort, array: &A, x: u32, y: u32, want: u32)
    requires bits { A.BITS ≡ 16 }
    requires pixel { HasPixel (A.view array.now).device x y }
{
    let is_enabled = want >> 16 == 1;
    assert!(rt;
        array.registers(x, y).enable == is_enabled,
        "the enable register"
    );
    assert!(rt;
        number_in(array, WHOLE, x, y) == u64::from(want & 0xffff),
        "the memory"
    );
}
