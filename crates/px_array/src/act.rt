//! What the pixels do in a clock.

/// An act, which every pixel does in the same clock (docs/MACHINE.md, "The fourteen acts").
///
/// `tree` is the bit of the multiplier tree at the pixel, and each formula speaks of the values
/// before the clock. A `u32` is a place in the pixel's memory.
#[derive(Clone, Copy)]
pub enum Act {
    /// Changes nothing.
    Nop,
    /// `enable = 1`
    EnableAll,
    /// `enable = enable and (carry == v)`
    EnableCarry(bool),
    /// `enable = enable and (tree == v)`
    EnableTree(bool),
    /// `enable = enable and (memory[at] == v)`
    EnableBit(u32, bool),
    /// `carry = v`, in every pixel
    SetCarry(bool),
    /// `latch = memory[at]`, in every pixel
    Fetch(u32),
    /// `memory[at] = tree`, where the pixel is enabled
    StoreTree(u32),
    /// `memory[at] = latch`, where the pixel is enabled
    StoreLatch(u32),
    /// `memory[at] = v`, where the pixel is enabled
    StoreConst(u32, bool),
    /// `memory[at] = not memory[at]`, where the pixel is enabled
    Toggle(u32),
    /// `carry = majority(not tree, memory[at], carry)`, in every pixel
    ///
    /// After the bits of two numbers from the lowest up, the carry says whether the tree's is at
    /// most the memory's.
    CarryTree(u32),
    /// `carry = majority(not latch, memory[at], carry)`, in every pixel
    ///
    /// As `CarryTree`, with the latch in place of the tree.
    CarryLatch(u32),
    /// `memory[at] = tree xor memory[at] xor carry`, where the pixel is enabled;
    /// `carry = majority(tree, memory[at], carry)`, in every pixel
    ///
    /// Adds the next bit of the tree to one bit of memory.
    AddTree(u32),
}
