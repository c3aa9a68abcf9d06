//! What is written in words and lines is read back.
ghost use Rattle.std.specs.Prelude.{◌≡◌, ◌<◌, ◌^◌, ◌++◌, ◌∷◌, ℕ, ℤ, List, Some, true};
ghost use Rattle.std.specs.Fmt.{signed_decimal};
ghost use Rattle.std.specs.List.{list_all};
ghost use lib.Signed.{mag};
ghost use Rattle.px_text.specs.Text.{Words, words_of, lines_of, number_of};
ghost use Rattle.px_text.specs.Written.{spaced, is_plain, are_plain, is_no_feed, fed};

/// What is written of a number, of words and of lines is read as them.
#[tactic(auto, using(crate::proofs::DecimalLaws::signed_read, crate::proofs::SpacedLaws::words_read, crate::proofs::SpacedLaws::lines_read))]
pub fn written_law()
    ensures numbers { (z : ℤ) → mag z < 10 ^ 18 → number_of (signed_decimal z) ≡ Some z }
    ensures words { (w : List ℕ) (ws : Words) → is_plain w ≡ true → are_plain ws ≡ true →
        words_of (w ++ spaced ws) ≡ w ∷ ws }
    ensures lines { (lines : List (List ℕ)) → list_all (λ l. list_all is_no_feed l) lines ≡ true →
        lines_of (fed lines) ≡ lines }
{}
