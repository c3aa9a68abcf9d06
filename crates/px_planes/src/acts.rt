//! What each act does to the bit planes.
ghost use Rattle.std.specs.Prelude.{◌<◌, length};
ghost use Rattle.px_array.specs.Acts.{HasPlace};
ghost use Rattle.px_array.specs.declared.act.Act.TheVariants.{EnableAll, EnableCarry, EnableTree};
ghost use Rattle.px_array.specs.declared.act.Act.TheVariants.{EnableBit, SetCarry, Fetch};
ghost use Rattle.px_array.specs.declared.act.Act.TheVariants.{StoreTree, StoreLatch, StoreConst};
ghost use Rattle.px_array.specs.declared.act.Act.TheVariants.{Toggle, CarryTree, CarryLatch};
ghost use Rattle.px_array.specs.declared.act.Act.TheVariants.{AddTree};
ghost use Rattle.px_planes.specs.Pixels.{HasWords, IsActed};

use crate::planes::Planes;
use px_array::Act;

/// Makes every pixel do an act; `leaves` has the outputs of their leaves.
pub fn act_planes(planes: &mut Planes, leaves: &[u64], act: Act)
    requires words { HasWords (length leaves.now) planes.old }
    requires place { HasPlace (length planes.old.memory.items) act }
    ensures { IsActed act leaves.now planes.old planes.new }
{
    match act {
        Act::Nop => {}
        Act::EnableAll => enable_all(planes, leaves),
        Act::EnableCarry(v) => enable_carry(planes, leaves, v),
        Act::EnableTree(v) => enable_tree(planes, leaves, v),
        Act::EnableBit(at, v) => enable_bit(planes, leaves, at, v),
        Act::SetCarry(v) => set_carry(planes, leaves, v),
        Act::Fetch(at) => fetch(planes, leaves, at),
        Act::StoreTree(at) => store_tree(planes, leaves, at),
        Act::StoreLatch(at) => store_latch(planes, leaves, at),
        Act::StoreConst(at, v) => store_const(planes, leaves, at, v),
        Act::Toggle(at) => toggle(planes, leaves, at),
        Act::CarryTree(at) => carry_tree(planes, leaves, at),
        Act::CarryLatch(at) => carry_latch(planes, leaves, at),
        Act::AddTree(at) => add_tree(planes, leaves, at),
    }
}

#[tactic(auto, using(crate::proofs::StoredLemmas::filled))]
fn enable_all(planes: &mut Planes, leaves: &[u64])
    requires words { HasWords (length leaves.now) planes.old }
    ensures { IsActed EnableAll leaves.now planes.old planes.new }
{
    planes.enable.fill(planes.full);
}

fn enable_carry(planes: &mut Planes, leaves: &[u64], v: bool)
    requires words { HasWords (length leaves.now) planes.old }
    ensures { IsActed (EnableCarry v) leaves.now planes.old planes.new }
{
    planes.enable.keep(planes.carry.words(), v);
}

fn enable_tree(planes: &mut Planes, leaves: &[u64], v: bool)
    requires words { HasWords (length leaves.now) planes.old }
    ensures { IsActed (EnableTree v) leaves.now planes.old planes.new }
{
    planes.enable.keep(leaves, v);
}

fn enable_bit(planes: &mut Planes, leaves: &[u64], at: u32, v: bool)
    requires words { HasWords (length leaves.now) planes.old }
    requires place { at < length planes.old.memory.items }
    ensures { IsActed (EnableBit at v) leaves.now planes.old planes.new }
{
    planes.enable.keep(planes.memory[at as usize].words(), v);
}

fn set_carry(planes: &mut Planes, leaves: &[u64], v: bool)
    requires words { HasWords (length leaves.now) planes.old }
    ensures { IsActed (SetCarry v) leaves.now planes.old planes.new }
{
    planes.carry.fill(if v { planes.full } else { 0 });
}

fn fetch(planes: &mut Planes, leaves: &[u64], at: u32)
    requires words { HasWords (length leaves.now) planes.old }
    requires place { at < length planes.old.memory.items }
    ensures { IsActed (Fetch at) leaves.now planes.old planes.new }
{
    planes.latch.copy(planes.memory[at as usize].words());
}

fn store_tree(planes: &mut Planes, leaves: &[u64], at: u32)
    requires words { HasWords (length leaves.now) planes.old }
    requires place { at < length planes.old.memory.items }
    ensures { IsActed (StoreTree at) leaves.now planes.old planes.new }
{
    planes.memory[at as usize].choose(leaves, planes.enable.words());
}

fn store_latch(planes: &mut Planes, leaves: &[u64], at: u32)
    requires words { HasWords (length leaves.now) planes.old }
    requires place { at < length planes.old.memory.items }
    ensures { IsActed (StoreLatch at) leaves.now planes.old planes.new }
{
    planes.memory[at as usize].choose(planes.latch.words(), planes.enable.words());
}

fn store_const(planes: &mut Planes, leaves: &[u64], at: u32, v: bool)
    requires words { HasWords (length leaves.now) planes.old }
    requires place { at < length planes.old.memory.items }
    ensures { IsActed (StoreConst at v) leaves.now planes.old planes.new }
{
    planes.memory[at as usize].paint(planes.enable.words(), v);
}

fn toggle(planes: &mut Planes, leaves: &[u64], at: u32)
    requires words { HasWords (length leaves.now) planes.old }
    requires place { at < length planes.old.memory.items }
    ensures { IsActed (Toggle at) leaves.now planes.old planes.new }
{
    planes.memory[at as usize].flip(planes.enable.words());
}

fn carry_tree(planes: &mut Planes, leaves: &[u64], at: u32)
    requires words { HasWords (length leaves.now) planes.old }
    requires place { at < length planes.old.memory.items }
    ensures { IsActed (CarryTree at) leaves.now planes.old planes.new }
{
    planes
        .carry
        .outvote(leaves, planes.memory[at as usize].words());
}

fn carry_latch(planes: &mut Planes, leaves: &[u64], at: u32)
    requires words { HasWords (length leaves.now) planes.old }
    requires place { at < length planes.old.memory.items }
    ensures { IsActed (CarryLatch at) leaves.now planes.old planes.new }
{
    planes
        .carry
        .outvote(planes.latch.words(), planes.memory[at as usize].words());
}

fn add_tree(planes: &mut Planes, leaves: &[u64], at: u32)
    requires words { HasWords (length leaves.now) planes.old }
    requires place { at < length planes.old.memory.items }
    ensures { IsActed (AddTree at) leaves.now planes.old planes.new }
{
    planes.memory[at as usize].add(&mut planes.carry, leaves, planes.enable.words());
}
