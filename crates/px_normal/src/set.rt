//! Sets of solids.
ghost use Rattle.std.specs.Prelude.{◌≡◌, ◌<◌, ◌≤◌, ◌||◌, ◌==◌, ◌^◌, ℕ, false, not, nat_eq};
ghost use Rattle.std.specs.Int.{bit_at};
ghost use Rattle.std.specs.List.{list_any};
ghost use Rattle.px_normal.specs.Sets.{has, empty, one, sets_joined, solids};
ghost use Rattle.px_normal.specs.SetLaws.{LawsOfSets};

use arrayvec::ArrayVec;

/// A set of solids: solid `q` is in it where bit `q mod 64` of word `q div 64` is 1.
#[derive(Clone, Copy, Default)]
pub struct SolidSet {
    words: [u64; 4],
}

impl SolidSet {
    /// Whether a solid is in the set.
    pub fn has(&self, solid: u8) -> bool
        ensures { result ≡ has self.now solid }
    {
        (self.words[usize::from(solid / 64)] >> (solid % 64)) & 1 == 1
    }

    /// The set and one solid more.
    pub fn with(&self, solid: u8) -> SolidSet
        ensures set { result ≡ sets_joined self.now (one solid) }
        ensures solids { (q : ℕ) → q < 256 → has result q ≡ (has self.now q || q == solid) }
    {
        self.joined(&SolidSet::one(solid))
    }

    /// The solids of either set.
    pub fn joined(&self, other: &SolidSet) -> SolidSet
        ensures set { result ≡ sets_joined self.now other.now }
        ensures solids { (q : ℕ) → q < 256 → has result q ≡ (has self.now q || has other.now q) }
    {
        let [a, b, c, d] = self.words;
        let [e, f, g, h] = other.words;
        SolidSet {
            words: [a | e, b | f, c | g, d | h],
        }
    }

    /// Whether a solid is in both sets.
    #[tactic(auto, using(crate::proofs::MeetsLaws::meets_is))]
    pub fn meets(&self, other: &SolidSet) -> bool
        ensures { result ≡ list_any (has other.now) (solids self.now) }
    {
        let [a, b, c, d] = self.words;
        let [e, f, g, h] = other.words;
        has_bit((a & e) | (b & f) | (c & g) | (d & h))
    }

    /// The solids of the set, in ascending order.
    #[tactic(auto, using(crate::proofs::EndLemmas::none_below, crate::proofs::EndLemmas::all_below))]
    pub fn solids(&self) -> ArrayVec<u8, 256>
        ensures { result.items ≡ solids self.now }
    {
        let mut list = ArrayVec::new();
        for solid in self.start()..self.end() {
            if self.has(solid as u8) {
                list.push(solid as u8);
            }
        }
        list
    }

    /// The least solid of the set, or 256.
    fn start(&self) -> usize
        ensures most { result ≤ 256 }
        ensures before { (q : ℕ) → q < result → has self.now q ≡ false }
    {
        let [a, b, c, d] = self.words;
        if a != 0 {
            clear_bits(a)
        } else if b != 0 {
            64 + clear_bits(b)
        } else if c != 0 {
            128 + clear_bits(c)
        } else {
            192 + clear_bits(d)
        }
    }

    /// One more than the greatest solid of the set, or 0.
    #[tactic(auto, using(crate::proofs::EndLemmas::none_past))]
    fn end(&self) -> usize
        ensures most { result ≤ 256 }
        ensures past { (q : ℕ) → q < 256 → result ≤ q → has self.now q ≡ false }
    {
        let [a, b, c, d] = self.words;
        if d != 0 {
            192 + used_bits(d)
        } else if c != 0 {
            128 + used_bits(c)
        } else if b != 0 {
            64 + used_bits(b)
        } else {
            used_bits(a)
        }
    }

    /// No solid.
    pub fn empty() -> SolidSet
        ensures { result ≡ empty }
    {
        SolidSet::default()
    }

    /// One solid.
    pub fn one(solid: u8) -> SolidSet
        ensures { result ≡ one solid }
    {
        let mut words = [0; 4];
        words[usize::from(solid / 64)] = 1 << (solid % 64);
        SolidSet { words }
    }
}

/// The bits of a word before its lowest 1.
fn clear_bits(word: u64) -> usize
    ensures most { result ≤ 64 }
    ensures clear { (i : ℕ) → i < result → bit_at word i ≡ 0 }
{
    word.trailing_zeros() as usize
}

/// The bits of a word up to its highest 1.
fn used_bits(word: u64) -> usize
    ensures most { result ≤ 64 }
    ensures past { word < 2 ^ result }
{
    (u64::BITS - word.leading_zeros()) as usize
}

/// Whether a word has a bit: its range, which sets of numbers do not show, is said besides.
fn has_bit(word: u64) -> bool
    ensures bit { result ≡ not (nat_eq word 0) }
    ensures range { word < 2 ^ 64 }
{
    word != 0
}

/// The laws of sets, for whoever reasons of several of them: how a test goes over their solids.
#[tactic(auto, using(crate::proofs::SolidsLaws::solids_laws))]
pub fn laws_of_sets()
    ensures { LawsOfSets }
{}
