//! What an act does to the pixels of a state where its words stand.
ghost use Rattle.std.specs.Prelude.{◌≡◌, ◌≢◌, ◌≤◌, ◌<◌, ◌+◌, ◌*◌, ℕ, ◌&&◌, cond, get_or, length};
ghost use Rattle.std.specs.Bool.{beq};
ghost use Rattle.px_num.specs.Bits.{nat_bit};
ghost use Rattle.px_array.specs.Pixels.{PixelState};
ghost use Rattle.px_planes.specs.Pixels.{acted_at};
ghost use Rattle.px_state.specs.Cells.{IsActed, IsCell, KeepsOutside, leaves_at, nodes_at};
ghost use Rattle.px_state.specs.Packing.{memory_place};

use crate::packing::place_of;
use crate::shape::Shape;
use px_array::Act;
use px_rows::{all_of, chosen_word, majority_word, turned, xor_word};

/// One word of each plane that an act reads: 64 pixels.
#[derive(Clone, Copy)]
pub(crate) struct Cells {
    memory: u64,
    enable: u64,
    carry: u64,
    latch: u64,
    leaf: u64,
}

/// Makes every pixel do an act, by its leaf.
pub(crate) fn act_all(words: &mut [u64], shape: &Shape, act: &Act)
    requires place { memory_place act.now < shape.now.bits }
    requires room { nodes_at shape.now ≤ length words.old }
    ensures acted { (k : ℕ) → k < shape.now.plane → IsActed shape.now act.now k words.old words.new }
    ensures kept { KeepsOutside 0 (leaves_at shape.now) words.old words.new }
{
    for k in 0..shape.plane {
        act_word(words, shape, k, act);
    }
}

/// Makes the pixels of word `k` of each plane do an act, by their leaves.
fn act_word(words: &mut [u64], shape: &Shape, k: usize, act: &Act)
    requires place { memory_place act.now < shape.now.bits }
    requires room { nodes_at shape.now ≤ length words.old }
    requires within { k < shape.now.plane }
    ensures acted { IsActed shape.now act.now k words.old words.new }
    ensures others { (b j : ℕ) → j < shape.now.plane → j ≢ k
        → get_or words.new (b * shape.now.plane + j) 0 ≡ get_or words.old (b * shape.now.plane + j) 0 }
    ensures kept { KeepsOutside 0 (leaves_at shape.now) words.old words.new }
{
    let at = place_of(act) as usize;
    let old = Cells {
        memory: words[shape.start(at) + k],
        enable: words[shape.start(shape.bits) + k],
        carry: words[shape.start(shape.bits + 1) + k],
        latch: words[shape.start(shape.bits + 2) + k],
        leaf: words[shape.start(shape.bits + 3) + k],
    };
    put_cells(words, shape, at, k, acted(act, old, shape.full));
}

/// Writes word `k` of the planes that an act may change.
fn put_cells(words: &mut [u64], shape: &Shape, at: usize, k: usize, cells: Cells)
    requires place { at < shape.now.bits }
    requires room { nodes_at shape.now ≤ length words.old }
    requires within { k < shape.now.plane }
    ensures memory { get_or words.new (at * shape.now.plane + k) 0 ≡ cells.memory }
    ensures enable { get_or words.new (shape.now.bits * shape.now.plane + k) 0 ≡ cells.enable }
    ensures carry { get_or words.new ((shape.now.bits + 1) * shape.now.plane + k) 0 ≡ cells.carry }
    ensures latch { get_or words.new ((shape.now.bits + 2) * shape.now.plane + k) 0 ≡ cells.latch }
    ensures others { (j : ℕ) → j ≢ at * shape.now.plane + k → j ≢ shape.now.bits * shape.now.plane + k
        → j ≢ (shape.now.bits + 1) * shape.now.plane + k → j ≢ (shape.now.bits + 2) * shape.now.plane + k
        → get_or words.new j 0 ≡ get_or words.old j 0 }
    ensures length { length words.new ≡ length words.old }
{
    words[shape.start(at) + k] = cells.memory;
    words[shape.start(shape.bits) + k] = cells.enable;
    words[shape.start(shape.bits + 1) + k] = cells.carry;
    words[shape.start(shape.bits + 2) + k] = cells.latch;
}

/// What an act makes of 64 pixels; `full` is 1 where there is one.
fn acted(act: &Act, old: Cells, full: u64) -> Cells
    ensures { (i : ℕ) (p : PixelState) → i < 64 → memory_place act.now < length p.memory → IsCell (memory_place act.now) i old p
        → IsCell (memory_place act.now) i result (acted_at (nat_bit full i) act.now (nat_bit old.leaf i) p) }
{
    match act {
        Act::Nop => old,
        Act::EnableAll => Cells {
            enable: full,
            ..old
        },
        Act::EnableCarry(v) => keep_enabled(old, old.carry, *v),
        Act::EnableTree(v) => keep_enabled(old, old.leaf, *v),
        Act::EnableBit(_, v) => keep_enabled(old, old.memory, *v),
        Act::SetCarry(v) => Cells {
            carry: if *v { full } else { 0 },
            ..old
        },
        Act::Fetch(_) => Cells {
            latch: old.memory,
            ..old
        },
        Act::StoreTree(_) => store(old, old.leaf),
        Act::StoreLatch(_) => store(old, old.latch),
        Act::StoreConst(_, v) => store(old, all_of(*v)),
        Act::Toggle(_) => store(old, turned(old.memory)),
        Act::CarryTree(_) => Cells {
            carry: majority_word(turned(old.leaf), old.memory, old.carry),
            ..old
        },
        Act::CarryLatch(_) => Cells {
            carry: majority_word(turned(old.latch), old.memory, old.carry),
            ..old
        },
        Act::AddTree(_) => Cells {
            carry: majority_word(old.leaf, old.memory, old.carry),
            ..store(old, xor_word(old.leaf, xor_word(old.memory, old.carry)))
        },
    }
}

/// The pixels stay enabled where a bit is the one that is wanted.
fn keep_enabled(old: Cells, bits: u64, want: bool) -> Cells
    ensures enable { (i : ℕ) → i < 64 → nat_bit result.enable i ≡ (nat_bit old.enable i && beq (nat_bit bits i) want) }
    ensures memory { result.memory ≡ old.memory }
    ensures carry { result.carry ≡ old.carry }
    ensures latch { result.latch ≡ old.latch }
{
    let enable = if want {
        chosen_word(0, old.enable, bits)
    } else {
        chosen_word(old.enable, 0, bits)
    };
    Cells { enable, ..old }
}

/// Where the pixels are enabled, the memory bit becomes another.
fn store(old: Cells, bits: u64) -> Cells
    ensures memory { (i : ℕ) → i < 64 → nat_bit result.memory i
        ≡ cond (nat_bit old.enable i) (nat_bit bits i) (nat_bit old.memory i) }
    ensures enable { result.enable ≡ old.enable }
    ensures carry { result.carry ≡ old.carry }
    ensures latch { result.latch ≡ old.latch }
{
    Cells {
        memory: chosen_word(old.memory, bits, old.enable),
        ..old
    }
}
