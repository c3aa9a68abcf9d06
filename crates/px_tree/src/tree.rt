//! What a multiplier tree is, however its latches are kept.
ghost use Rattle.std.specs.Prelude.{◌≡◌, ◌<◌, ◌≤◌, ◌+◌, ◌^◌};
ghost use Rattle.px_tree.specs.Nodes.{TreeState, after_feed, cleared, leaf_bit, node_at};

/// A tree of one-bit adders over the pixels of a grid (docs/MACHINE.md, "The multiplier tree").
pub trait Tree {
    /// The grid and the latches of all nodes.
    ghost state: { Self → TreeState };

    /// Makes every latch 0.
    fn clear(&mut self)
        ensures { state self.new ≡ cleared (state self.old).nx (state self.old).ny };

    /// One clock with the lines a, b and c: every node from the latches before it.
    fn feed(&mut self, a: bool, b: bool, c: bool)
        ensures { state self.new ≡ after_feed a b c (state self.old) };

    /// The output latch of leaf `(x, y)`.
    fn leaf(&self, x: u32, y: u32) -> bool
        requires column { x < 2 ^ (state self.now).nx }
        requires row { y < 2 ^ (state self.now).ny }
        ensures { result ≡ leaf_bit (state self.now) x y };

    /// The output and the carry latch of a node; levels are counted from 1.
    fn node(&self, level: u32, index: u32) -> (bool, bool)
        requires from_one { 1 ≤ level }
        requires in_tree { level ≤ (state self.now).nx + (state self.now).ny }
        requires in_level { index < 2 ^ level }
        ensures output { result.0 ≡ (node_at (state self.now) level index).output }
        ensures carry { result.1 ≡ (node_at (state self.now) level index).carry };
}
