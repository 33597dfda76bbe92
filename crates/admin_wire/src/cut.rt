// Cutting bytes at a mark, and reading them as text.
ghost use Rattle.std.specs.Prelude.{◌≡◌, ◌⊎◌, ◌==◌, ◌∷◌, ◌++◌, ℕ, List, [], IfSome, IsUtf8, MatchOption};
ghost use Rattle.std.specs.List.{position, Contains};

use std::str;

// Where the byte stands first.
fn place_of(bytes: &[u8], mark: u8) -> Option<usize>
    ensures { result ≡ position (λ b. b == mark) bytes.now }
{
    bytes.iter().position(|byte| *byte == mark)
}

/// What stands before and behind the first such byte.
pub(crate) fn cut(bytes: &[u8], mark: u8) -> Option<(&[u8], &[u8])>
    ensures found { IfSome result (λ s. bytes.now ≡ s.0.now ++ (mark ∷ s.1.now)) }
    ensures free { IfSome result (λ s. ¬ Contains s.0.now mark) }
    ensures first { (front back : List ℕ) → ¬ Contains front mark → bytes.now ≡ front ++ (mark ∷ back)
        → MatchOption result ⊥ (λ s. (s.0.now ≡ front) × (s.1.now ≡ back)) }
{
    let at = place_of(bytes, mark)?;
    Some((&bytes[..at], &bytes[at + 1..]))
}

/// The bytes as text, and the empty text where they aren't UTF-8.
pub(crate) fn text_or_empty(bytes: &[u8]) -> &str
    ensures { (result.now ≡ bytes.now) ⊎ ((¬ IsUtf8 bytes.now) × (result.now ≡ [])) }
{
    str::from_utf8(bytes).unwrap_or("")
}
