//! A micro in one word.
ghost use Rattle.std.specs.Prelude.{◌≡◌, ◌<◌};
ghost use Rattle.px_state.specs.Packing.{
  AreUnpacked,
  FieldsTellTheMicro,
  HasFields,
  act_number,
  act_with,
  packed_bit,
  is_micro,
  lines_number,
  micro_in,
  packed,
  memory_place,
  tree_number,
  tree_with,
  packed_value,
};

use px_array::{Act, Micro, TreeOp};

/// A micro in one word: the place of memory in bits 0 to 31; the number of the act, counted from 1 in
/// the order of docs/MACHINE.md, "The fourteen acts", in bits 32 to 39; the value in bit 40; in bits
/// 48 and 49 what the tree does, 0 nothing, 1 a clear and 2 a feed; and in bits 56, 57 and 58 the lines
/// a, b and c. What a micro does not name is 0, and no word is 0.
#[tactic(auto, unfolding(crate::specs::Packing::packed))]
pub fn packed(m: &Micro) -> u64
    ensures value { result ≡ packed m.now }
    ensures fields { HasFields result m.now }
{
    let act = u64::from(act_number(&m.act));
    let value = u64::from(value_of(&m.act));
    let tree = tree_number(&m.tree) + 256 * lines_number(&m.tree);
    u64::from(place_of(&m.act)) + (1 << 32) * (act + 256 * (value + 256 * tree))
}

/// A word is that of one micro alone.
pub fn law_of_packing()
    ensures { FieldsTellTheMicro }
{}

fn act_number(act: &Act) -> u32
    ensures number { result ≡ act_number act.now }
{
    match act {
        Act::Nop => 1,
        Act::EnableAll => 2,
        Act::EnableCarry(_) => 3,
        Act::EnableTree(_) => 4,
        Act::EnableBit(..) => 5,
        Act::SetCarry(_) => 6,
        Act::Fetch(_) => 7,
        Act::StoreTree(_) => 8,
        Act::StoreLatch(_) => 9,
        Act::StoreConst(..) => 10,
        Act::Toggle(_) => 11,
        Act::CarryTree(_) => 12,
        Act::CarryLatch(_) => 13,
        Act::AddTree(_) => 14,
    }
}

/// The value that an act names.
fn value_of(act: &Act) -> bool
    ensures { result ≡ packed_value act.now }
{
    match act {
        Act::EnableCarry(v)
        | Act::EnableTree(v)
        | Act::SetCarry(v)
        | Act::EnableBit(_, v)
        | Act::StoreConst(_, v) => *v,
        _ => false,
    }
}

/// The place of memory that an act names.
pub(crate) fn place_of(act: &Act) -> u32
    ensures { result ≡ memory_place act.now }
{
    match act {
        Act::EnableBit(at, _)
        | Act::Fetch(at)
        | Act::StoreTree(at)
        | Act::StoreLatch(at)
        | Act::StoreConst(at, _)
        | Act::Toggle(at)
        | Act::CarryTree(at)
        | Act::CarryLatch(at)
        | Act::AddTree(at) => *at,
        _ => 0,
    }
}

fn tree_number(tree: &TreeOp) -> u64
    ensures { result ≡ tree_number tree.now }
{
    match tree {
        TreeOp::Hold => 0,
        TreeOp::Clear => 1,
        TreeOp::Feed { .. } => 2,
    }
}

/// The lines of a feed.
fn lines_number(tree: &TreeOp) -> u64
    ensures { result ≡ lines_number tree.now }
{
    match tree {
        TreeOp::Feed { a, b, c } => bit_number(*a) + 2 * bit_number(*b) + 4 * bit_number(*c),
        _ => 0,
    }
}

fn bit_number(v: bool) -> u64
    ensures { result ≡ packed_bit v }
{
    u64::from(v)
}

/// The micro whose fields are in a word, if it is that of a micro.
#[tactic(auto, unfolding(crate::specs::Packing::micro_in))]
pub(crate) fn micro_in(word: u64) -> Micro
    ensures { result ≡ micro_in word }
{
    let value = (word >> 40) % 256 == 1;
    Micro {
        tree: tree_with((word >> 48) % 256, word >> 56),
        act: act_with((word >> 32) % 256, value, (word % (1 << 32)) as u32),
    }
}

/// Whether a word is that of a micro for pixels of so many memory bits.
#[tactic(auto, unfolding(crate::specs::Packing::is_micro))]
pub(crate) fn is_micro(word: u64, bits: usize) -> bool
    ensures { result ≡ is_micro bits word }
{
    let m = micro_in(word);
    packed(&m) == word && (place_of(&m.act) as usize) < bits
}

/// The words of micros are those of the micros that are found in them, and no others are.
#[tactic(auto, using(crate::proofs::PackingLemmas::micro_back, crate::proofs::PackingLemmas::unpacked, crate::proofs::PackingLemmas::micro_only))]
pub fn law_of_unpacking()
    ensures { AreUnpacked }
{}

/// The act of a number, with its value and its place where it names them.
fn act_with(number: u64, v: bool, at: u32) -> Act
    ensures { result ≡ act_with number v at }
{
    match number {
        2 => Act::EnableAll,
        3 => Act::EnableCarry(v),
        4 => Act::EnableTree(v),
        5 => Act::EnableBit(at, v),
        6 => Act::SetCarry(v),
        7 => Act::Fetch(at),
        8 => Act::StoreTree(at),
        9 => Act::StoreLatch(at),
        10 => Act::StoreConst(at, v),
        11 => Act::Toggle(at),
        12 => Act::CarryTree(at),
        13 => Act::CarryLatch(at),
        14 => Act::AddTree(at),
        _ => Act::Nop,
    }
}

/// What the tree does, by its number and its lines.
fn tree_with(number: u64, lines: u64) -> TreeOp
    ensures { result ≡ tree_with number lines }
{
    match number {
        1 => TreeOp::Clear,
        2 => TreeOp::Feed {
            a: lines % 2 == 1,
            b: lines / 2 % 2 == 1,
            c: lines / 4 % 2 == 1,
        },
        _ => TreeOp::Hold,
    }
}
