// Cutting texts at a slash.
ghost use Rattle.std.specs.Prelude.{◌≡◌, ◌∷◌, ◌++◌, ℕ, List, MatchOption};
ghost use Rattle.feed_routes.specs.Cuts.{IsFreeSegment};

// What stands before and behind the first slash.
pub(crate) fn at_slash(text: &str) -> Option<(&str, &str)>
    ensures { (front back : List ℕ) → IsFreeSegment 47 front → text.now ≡ front ++ (47 ∷ back)
        → MatchOption result ⊥ (λ p. (p.0.now ≡ front) × (p.1.now ≡ back)) }
{
    text.split_once('/')
}
