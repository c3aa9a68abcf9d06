//! Operations of one clock, made in whole rows.
ghost use Rattle.std.specs.Prelude.{◌<◌, length};
ghost use Rattle.px_macro.specs.declared.operation.Macro.TheVariants.{KeepBit, SetBit, Toggle};
ghost use Rattle.px_planes.specs.Operations.{IsDone, IsEnabled};
ghost use Rattle.px_planes.specs.Pixels.{HasWords};

use crate::planes::Planes;

/// `enable = 1`
pub(crate) fn enable_every(planes: &mut Planes)
    requires words { HasWords (length planes.old.enable) planes.old }
    ensures { IsEnabled (length planes.old.enable) planes.old planes.new }
{
    planes.enable.fill(planes.full);
}

/// `enable = enable and memory[at] == v`
pub(crate) fn keep_bit(planes: &mut Planes, at: u32, v: bool, ny: u32)
    requires words { HasWords (length planes.old.enable) planes.old }
    requires place { at < length planes.old.memory.items }
    ensures { IsDone (KeepBit at v) ny (length planes.old.enable) planes.old planes.new }
{
    planes.enable.keep(planes.memory[at as usize].words(), v);
}

/// `memory[at] = v`
pub(crate) fn set_bit(planes: &mut Planes, at: u32, v: bool, ny: u32)
    requires words { HasWords (length planes.old.enable) planes.old }
    requires place { at < length planes.old.memory.items }
    ensures { IsDone (SetBit at v) ny (length planes.old.enable) planes.old planes.new }
{
    planes.memory[at as usize].paint(planes.enable.words(), v);
}

/// `memory[at] = not memory[at]`
pub(crate) fn toggle(planes: &mut Planes, at: u32, ny: u32)
    requires words { HasWords (length planes.old.enable) planes.old }
    requires place { at < length planes.old.memory.items }
    ensures { IsDone (Toggle at) ny (length planes.old.enable) planes.old planes.new }
{
    planes.memory[at as usize].flip(planes.enable.words());
}
