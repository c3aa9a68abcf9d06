//! The bounds of which operations are lawful.

use px_macro::{Field, Macro, lawful};
use px_num::Linear;

#[test]
fn operations_of_pixels_of_sixteen_bits(rt: HostRuntime) {
    let steep = Linear {
        a: 134217728,
        b: -134217728,
        c: 274877906944,
    };
    let too_high = Linear {
        c: 274877906945,
        ..steep
    };
    let rows = [
        (Macro::KeepBit(15, true), true),
        (Macro::SetBit(16, true), false),
        (Macro::LoadLinear(steep, field(12, 4)), true),
        (Macro::LoadLinear(steep, field(13, 4)), false),
        (Macro::KeepAtMost(steep, field(16, 0)), false),
        (Macro::KeepSign(too_high), false),
        (Macro::LoadConst(field(3, 4), 15), true),
        (Macro::LoadConst(field(3, 4), 16), false),
        (Macro::Copy(field(0, 8), field(8, 8)), true),
        (Macro::Copy(field(0, 8), field(7, 8)), false),
        (Macro::KeepLess(field(0, 8), field(7, 8)), true),
        (Macro::KeepLess(field(0, 8), field(7, 7)), false),
    ];
    for (m, want) in &rows {
        assert!(rt; lawful(m, 16) == *want);
    }
    assert!(rt; !lawful(&Macro::LoadConst(field(0, 41), 1), 256));
}

fn field(at: u32, len: u32) -> Field {
    Field { at, len }
}
