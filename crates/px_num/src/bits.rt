//! Single bits of whole numbers, and powers of two.
ghost use Rattle.std.specs.Prelude.{◌≡◌, ◌<◌, ◌≤◌, ◌^◌, ◌≤ℤ◌, ◌<ℤ◌, neg_ℤ, pos, ℕ};
ghost use Rattle.std.specs.Int.{is_negative};
ghost use Rattle.px_num.specs.Bits.{bit_of, modulo, nat_bit};
ghost use Rattle.px_num.specs.Bits.{majority as majority_of};

/// Bit `t` of the two's complement form of `v`; from bit 63 on, the sign.
pub fn bit_of(v: i64, t: u32) -> bool
    ensures value { result ≡ bit_of v t }
    ensures modulo { (width : ℕ) → t < width → result ≡ nat_bit (modulo v width) t }
    ensures sign { neg_ℤ (pos (2 ^ t)) ≤ℤ v → v <ℤ pos (2 ^ t) → result ≡ is_negative v }
{
    if v >= 0 {
        bit_of_word(v as u64, t)
    } else {
        !bit_of_word((-(v + 1)) as u64, t)
    }
}

/// At least two of the three.
pub fn majority(a: bool, b: bool, c: bool) -> bool
    ensures { result ≡ majority_of a b c }
{
    (a && b) || (a && c) || (b && c)
}

/// `2^exponent`.
pub fn power(exponent: u32) -> usize
    requires { exponent < 64 }
    ensures { result ≡ 2 ^ exponent }
{
    1 << exponent
}

/// Bit `t` of `word`; past its last bit, 0.
fn bit_of_word(word: u64, t: u32) -> bool
    ensures { result ≡ nat_bit word t }
{
    t < 64 && (word >> t) & 1 == 1
}
