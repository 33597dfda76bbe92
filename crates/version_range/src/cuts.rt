// Cutting the text of a range.
ghost use Rattle.std.specs.Prelude.{◌≡◌, ◌==◌, ◌≤◌, ◌<◌, ◌+◌, IfSome, length, option_map, Some};
ghost use Rattle.std.specs.List.{position_from};
ghost use Rattle.version_range.specs.Bytes.{is_round};
ghost use Rattle.version_range.specs.Cuts.{trimmed, lead, opened, closed, parted};

// The place of the first such byte.
pub fn find_byte(text: &str, byte: u8) -> Option<usize>
    ensures place { result ≡ position_from (λ b. b == byte) 0 text.now }
    ensures within { IfSome result (λ at. at < length text.now) }
{
    text.as_bytes().iter().position(|b| *b == byte)
}

// The place of the first round bracket.
pub fn find_round(text: &str) -> Option<usize>
    ensures place { result ≡ position_from is_round 0 text.now }
    ensures within { IfSome result (λ at. at < length text.now) }
{
    text.as_bytes()
        .iter()
        .position(|b| *b == b'(' || *b == b')')
}

// The text without the spaces at its ends.
pub fn trim(text: &str) -> &str
    ensures text { result.now ≡ trimmed text.now }
    ensures fits { length result.now ≤ length text.now }
{
    text.trim_start_matches(' ').trim_end_matches(' ')
}

// How many spaces stand at the start of the text.
pub fn count_lead(text: &str) -> usize
    ensures lead { result ≡ lead text.now }
    ensures fits { result + length (trimmed text.now) ≤ length text.now }
{
    text.len() - text.trim_start_matches(' ').len()
}

// Whether the text begins with a square bracket rather than a round one, and what is behind it.
pub fn open(text: &str) -> Option<(bool, &str)>
    ensures cut { option_map (λ cut. (cut.0, cut.1.now)) result ≡ opened text.now }
    ensures shorter { IfSome result (λ cut. length cut.1.now + 1 ≡ length text.now) }
{
    match text.strip_prefix('[') {
        Some(rest) => Some((true, rest)),
        None => match text.strip_prefix('(') {
            Some(rest) => Some((false, rest)),
            None => None,
        },
    }
}

// Whether the text ends with a square bracket rather than a round one, and what is before it.
pub fn close(text: &str) -> Option<(bool, &str)>
    ensures cut { option_map (λ cut. (cut.0, cut.1.now)) result ≡ closed text.now }
    ensures shorter { IfSome result (λ cut. length cut.1.now + 1 ≡ length text.now) }
{
    match text.strip_suffix(']') {
        Some(front) => Some((true, front)),
        None => match text.strip_suffix(')') {
            Some(front) => Some((false, front)),
            None => None,
        },
    }
}

// What stands before the first comma and behind it.
pub fn part(text: &str) -> Option<(&str, &str)>
    ensures cut { option_map (λ cut. (cut.0.now, cut.1.now)) result ≡ parted text.now }
    ensures shorter { IfSome result (λ cut. length cut.0.now + 1 + length cut.1.now ≡ length text.now) }
{
    text.split_once(',')
}
