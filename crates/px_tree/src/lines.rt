//! The lines on which a linear form comes into the tree, one bit a feed.
ghost use Rattle.std.specs.Prelude.{◌≡◌};
ghost use Rattle.px_tree.specs.Feeds.{delayed_bit};
ghost use Rattle.px_tree.specs.Feeds.{lines_at as lines_of};
ghost use Rattle.px_tree.specs.Nodes.{IsGrid};

use px_num::{Linear, bit_of};

/// The three bits of one feed.
#[derive(Clone, Copy)]
pub struct Lines {
    pub a: bool,
    pub b: bool,
    pub c: bool,
}

/// The lines of feed `s`, counted from 0, of a form into a tree of `2^nx` by `2^ny` leaves.
///
/// Line c has bit `s` of `c`; lines a and b come later, as docs/MACHINE.md, "The multiplier tree", says.
pub fn lines_at(form: &Linear, nx: u32, ny: u32, s: u32) -> Lines
    requires { IsGrid nx ny }
    ensures { result ≡ lines_of form.now nx ny s }
{
    Lines {
        a: delayed(form.a, nx - 1, s),
        b: delayed(form.b, nx + ny - 1, s),
        c: bit_of(form.c, s),
    }
}

/// Bit `s - delay` of `v`; before it, 0.
fn delayed(v: i64, delay: u32, s: u32) -> bool
    ensures { result ≡ delayed_bit delay v s }
{
    s >= delay && bit_of(v, s - delay)
}
