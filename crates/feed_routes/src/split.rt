// Splitting a text.
ghost use Rattle.std.specs.Prelude.{◌≡◌, ◌∷◌, ◌++◌, ℕ, List, IfSome, MatchOption};
ghost use Rattle.feed_routes.specs.Cuts.{IsFreeSegment, behind_slash, first_segment, second_segment, target_path, target_query};

// The path and the query of a target.
pub(crate) fn at_query(target: &str) -> (&str, &str)
    ensures path { result.0.now ≡ target_path target.now }
    ensures query { result.1.now ≡ target_query target.now }
{
    match target.split_once('?') {
        Some((path, query)) => (path, query),
        None => (target, ""),
    }
}

// The first segment of a text, and what stands behind its slash.
fn at_segment(text: &str) -> (&str, &str)
    ensures segment { result.0.now ≡ first_segment text.now }
    ensures behind { result.1.now ≡ behind_slash text.now }
{
    match text.split_once('/') {
        Some((segment, behind)) => (segment, behind),
        None => (text, ""),
    }
}

// The second segment of a path.
pub(crate) fn second_segment(path: &str) -> &str
    ensures { result.now ≡ second_segment path.now }
{
    let (_, path) = at_segment(path);
    let (_, behind) = at_segment(path);
    let (segment, _) = at_segment(behind);
    segment
}

// What stands before and behind the first slash.
pub(crate) fn at_slash(text: &str) -> Option<(&str, &str)>
    ensures found { IfSome result (λ p. text.now ≡ p.0.now ++ (47 ∷ p.1.now)) }
    ensures first { (front back : List ℕ) → IsFreeSegment 47 front → text.now ≡ front ++ (47 ∷ back)
        → MatchOption result ⊥ (λ p. (p.0.now ≡ front) × (p.1.now ≡ back)) }
{
    text.split_once('/')
}

// What stands behind the prefix.
pub(crate) fn after_prefix<'a>(text: &'a str, prefix: &str) -> Option<&'a str>
    ensures { MatchOption result ((rest : List ℕ) → text.now ≡ prefix.now ++ rest → ⊥)
        (λ rest. text.now ≡ prefix.now ++ rest.now) }
{
    text.strip_prefix(prefix)
}

// What stands before the suffix.
pub(crate) fn before_suffix<'a>(text: &'a str, suffix: &str) -> Option<&'a str>
    ensures { MatchOption result ((front : List ℕ) → text.now ≡ front ++ suffix.now → ⊥)
        (λ front. text.now ≡ front.now ++ suffix.now) }
{
    text.strip_suffix(suffix)
}

// What stands between the prefix and the suffix.
pub(crate) fn between<'a>(text: &'a str, prefix: &str, suffix: &str) -> Option<&'a str>
    ensures { MatchOption result ((middle : List ℕ) → text.now ≡ prefix.now ++ (middle ++ suffix.now) → ⊥)
        (λ middle. text.now ≡ prefix.now ++ (middle.now ++ suffix.now)) }
{
    let rest = after_prefix(text, prefix)?;
    before_suffix(rest, suffix)
}
