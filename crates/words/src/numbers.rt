// Numbers in decimal digits.
ghost use Rattle.std.specs.Prelude.{ℕ, ◌<◌, MatchOption};
ghost use Rattle.std.specs.Int.{IsInRange};
ghost use Rattle.words.specs.Words.{NumberText, PairText};

// A number with no sign.
pub fn number(word: &str) -> Option<u64>
    ensures { MatchOption result ((n : ℕ) → NumberText 64 word.now n → ⊥) (λ n. NumberText 64 word.now n) }
{
    // `parse` would take it.
    if word.starts_with('+') {
        return None;
    }
    word.parse().ok()
}

// Two numbers, and between them an ASCII character that is no digit.
pub(crate) fn two_numbers(piece: &str, between: char) -> Option<(u64, u64)>
    requires ascii { between < 128 }
    requires other { IsInRange 48 57 between → ⊥ }
    ensures { MatchOption result ((m n : ℕ) → PairText between 64 64 piece.now m n → ⊥) (λ p. PairText between 64 64 piece.now p.0 p.1) }
{
    let (first, second) = piece.split_once(between)?;
    Some((number(first)?, number(second)?))
}
