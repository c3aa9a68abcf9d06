//! The solids of a product.
ghost use Rattle.std.specs.Prelude.{◌≡◌, ◌<◌, ◌≤◌, ◌+◌, ◌++◌, ◌==◌, filter, length, not};
ghost use Rattle.arrayvec.specs.ArrayVec.{array_vec_len};
ghost use Rattle.px_sched.specs.Passes.{literal_at, literals, literals_of};
ghost use Rattle.px_sched.specs.declared.literal.TheConstants.{MAX_LITERALS};

use arrayvec::ArrayVec;
use px_normal::Product;

/// A product has at most so many literals: each solid of a set, plain and barred.
pub(crate) const MAX_LITERALS: usize = 512;

/// A solid of a product, plain or barred.
#[derive(Clone, Copy, Default)]
pub struct Literal {
    pub solid: u8,
    pub plain: bool,
}

/// The literals of a product: its plain solids in scene order, then its barred ones.
pub fn literals(product: &Product) -> ArrayVec<Literal, MAX_LITERALS>
    ensures { result.items ≡ literals product.now }
{
    let plain = product.plain.solids();
    let barred = product.barred.solids();
    let mut list = ArrayVec::new();
    push_literals(&mut list, plain.as_slice(), true);
    push_literals(&mut list, barred.as_slice(), false);
    list
}

/// The literal at a place of these, of which those stay that are of another solid.
pub(crate) fn take_literal(all: &mut ArrayVec<Literal, MAX_LITERALS>, place: usize) -> Literal
    requires { place < length all.old.items }
    ensures literal { result ≡ literal_at all.old.items place }
    ensures others { all.new.items ≡ filter (λ r. not (r.solid == result.solid)) all.old.items }
    ensures few { place < MAX_LITERALS }
{
    let q = all[place];
    all.retain(|r| r.solid != q.solid);
    q
}

fn push_literals(list: &mut ArrayVec<Literal, MAX_LITERALS>, indices: &[u8], plain: bool)
    requires { array_vec_len list.old + length indices.now ≤ MAX_LITERALS }
    ensures items { list.new.items ≡ list.old.items ++ literals_of plain indices.now }
    ensures len { array_vec_len list.new ≡ array_vec_len list.old + length indices.now }
{
    for solid in indices {
        list.push(Literal {
            solid: *solid,
            plain,
        });
    }
}
