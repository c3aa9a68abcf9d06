//! Products, and the list of them.
ghost use Rattle.std.specs.Prelude.{◌≡◌};
ghost use Rattle.px_normal.specs.Forms.{both, plain_one, barred_one};

use crate::set::SolidSet;
use std::marker::Model;

/// A list of products that is kept has at most so many (docs/SCENES.md, "Limits").
pub const MAX_PRODUCTS: u32 = 1024;

/// The cells inside every plain solid and inside no barred one.
#[derive(Clone, Copy, Default)]
pub struct Product {
    pub plain: SolidSet,
    pub barred: SolidSet,
}

impl Product {
    /// The cells inside a solid.
    pub(crate) fn plain_one(solid: u8) -> Product
        ensures { result ≡ plain_one solid }
    {
        Product {
            plain: SolidSet::one(solid),
            barred: SolidSet::empty(),
        }
    }

    /// The cells outside a solid.
    pub(crate) fn barred_one(solid: u8) -> Product
        ensures { result ≡ barred_one solid }
    {
        Product {
            plain: SolidSet::empty(),
            barred: SolidSet::one(solid),
        }
    }

    /// The cells of both.
    pub(crate) fn both(&self, other: &Product) -> Product
        ensures { result ≡ both self.now other.now }
    {
        Product {
            plain: self.plain.joined(&other.plain),
            barred: self.barred.joined(&other.barred),
        }
    }
}

/// A sum of products, seen by contracts as the list of them.
#[derive(Drop)]
pub struct Products {
    list: Vec<Product>,
}

impl Model for Products {
    ghost use Rattle.std.specs.Prelude.{List};
    ghost use Rattle.px_normal.specs.declared.product.Product.{Product};

    ghost Value = { List Product };

    ghost view = { λ products. products.list.items };
}

impl Products {
    pub fn new(list: Vec<Product>) -> Products
        ensures { result ≡ list.items }
    {
        Products { list }
    }

    pub fn as_slice(&self) -> &[Product]
        ensures { result.now ≡ self.now }
    {
        self.list.as_slice()
    }

    pub fn into_vec(self) -> Vec<Product>
        ensures { result.items ≡ self }
    {
        self.list
    }
}
