//! Trees that are fed one form by hand: its value at a pixel, and the latches of their nodes.
ghost use Rattle.std.specs.Prelude.{◌≡◌};

use px_num::Linear;
use px_tree::{NodeTree, Tree, feed_form, value_bit};
use std::process::Abort;
use std::test::Fail;

const FORM: Linear = Linear { a: 3, b: -5, c: 7 };

/// The value of `3 * x - 5 * y + 7` at (3, 2), of 4 by 4 pixels, is 6.
pub(crate) fn try_six<T: Tree>(rt: &impl Abort, tree: &mut T)
    requires columns { (T.state tree.old).nx ≡ 2 }
    requires rows { (T.state tree.old).ny ≡ 2 }
    ensures columns { (T.state tree.new).nx ≡ 2 }
    ensures rows { (T.state tree.new).ny ≡ 2 }
{
    assert!(rt; !value_bit(tree, 2, 2, &FORM, 3, 2, 0));
    assert!(rt; value_bit(tree, 2, 2, &FORM, 3, 2, 1));
    assert!(rt; value_bit(tree, 2, 2, &FORM, 3, 2, 2));
    assert!(rt; !value_bit(tree, 2, 2, &FORM, 3, 2, 3));
}

/// The value is `2^27 * (2048 + x - y)`, so its bit 35 is bit 8 of `2048 + x - y`.
pub(crate) fn try_largest<T: Tree>(rt: &impl Abort, tree: &mut T)
    requires columns { (T.state tree.old).nx ≡ 9 }
    requires rows { (T.state tree.old).ny ≡ 9 }
{
    let form = Linear {
        a: 134217728,
        b: -134217728,
        c: 274877906944,
    };
    assert!(rt; value_bit(tree, 9, 9, &form, 511, 0, 35));
    assert!(rt; !value_bit(tree, 9, 9, &form, 255, 0, 35));
    assert!(rt; value_bit(tree, 9, 9, &form, 0, 1, 35));
    assert!(rt; !value_bit(tree, 9, 9, &form, 511, 511, 35));
}

#[test]
fn four_by_four(rt: HostRuntime) -> Result<(), Fail> {
    let mut tree = NodeTree::new(rt.alloc(), 2, 2)?;
    try_six(&rt, &mut tree);
    feed_form(&mut tree, 2, 2, &FORM, 5);
    assert!(rt; tree.node(1, 1) == (false, false));
    assert!(rt; tree.node(2, 3) == (false, true));
    assert!(rt; tree.node(3, 7) == (true, false));
    assert!(rt; tree.node(4, 14) == (true, false));
    assert!(rt; tree.node(4, 15) == (false, true));
    Ok(())
}

#[test]
fn minus_five_on_the_smallest_tree(rt: HostRuntime) -> Result<(), Fail> {
    let form = Linear { a: 1, b: 2, c: -8 };
    for t in 0..40 {
        let mut tree = NodeTree::new(rt.alloc(), 1, 1)?;
        assert!(rt; value_bit(&mut tree, 1, 1, &form, 1, 1, t) == (t != 2));
    }
    Ok(())
}

#[test]
fn largest_tree(rt: HostRuntime) -> Result<(), Fail> {
    try_largest(&rt, &mut NodeTree::new(rt.alloc(), 9, 9)?);
    Ok(())
}
