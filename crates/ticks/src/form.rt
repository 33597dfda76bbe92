// Where a text stops having the form of a stamp.
ghost use Rattle.std.specs.Prelude.{◌≡◌, ◌≤◌, ◌-◌, length, drop, IfOk};
ghost use Rattle.ticks.specs.Scan.{fits, fitting_len, zone_form, is_zone, is_decimals, starts_with_point, is_tail, is_stamp, tail_places, Scans};

// In a form a `d` stands for any digit, and every other byte for itself.
const FRONT: &[u8] = b"dddd-dd-ddTdd:dd:dd";

const DECIMALS: &[u8] = b"ddddddd";

const LETTER: &[u8] = b"Z";

const OFFSET: &[u8] = b"+00:00";

fn fits(want: u8, byte: u8) -> bool
    ensures { result ≡ fits want byte }
{
    if want == b'd' {
        byte.is_ascii_digit()
    } else {
        byte == want
    }
}

// How many bytes at the start of the text fit those of the form.
fn fitting(text: &[u8], form: &[u8]) -> usize
    ensures value { result ≡ fitting_len form.now text.now }
    ensures within_text { result ≤ length text.now }
    ensures within_form { result ≤ length form.now }
{
    for (at, want) in form.iter().enumerate() {
        if at >= text.len() || !fits(*want, text[at]) {
            return at;
        }
    }
    form.len()
}

// The zone that the text can only have.
fn zone_form(text: &[u8]) -> &'static [u8]
    ensures { result.now ≡ zone_form text.now }
{
    match text {
        [b'+', ..] => OFFSET,
        _ => LETTER,
    }
}

// Whether the text is a zone, or where it stops being one.
fn zone(text: &[u8]) -> Result<(), usize>
    ensures { Scans is_zone text.now result }
{
    let form = zone_form(text);
    let at = fitting(text, form);
    if at == form.len() && at == text.len() {
        Ok(())
    } else {
        Err(at)
    }
}

// How many decimals stand behind the point, before a zone, or where the text stops being that.
fn decimals(text: &[u8]) -> Result<usize, usize>
    ensures scans { Scans is_decimals text.now result }
    ensures places { IfOk result (λ n. n ≡ fitting_len DECIMALS.now text.now) }
{
    let places = fitting(text, DECIMALS);
    if places == 0 {
        return Err(0);
    }
    match zone(&text[places..]) {
        Ok(()) => Ok(places),
        Err(at) => Err(places + at),
    }
}

fn starts_with_point(text: &[u8]) -> bool
    ensures { result ≡ starts_with_point text.now }
{
    matches!(text, [b'.', ..])
}

// How many decimals follow the seconds, before a zone, or where the text stops being that.
fn tail(text: &[u8]) -> Result<usize, usize>
    ensures scans { Scans is_tail text.now result }
    ensures places { IfOk result (λ n. n ≡ tail_places text.now) }
{
    if !starts_with_point(text) {
        return match zone(text) {
            Ok(()) => Ok(0),
            Err(at) => Err(at),
        };
    }
    match decimals(&text[1..]) {
        Ok(places) => Ok(places),
        Err(at) => Err(at + 1),
    }
}

/// How many decimals a stamp has, or where the text stops being one.
pub fn scan(text: &[u8]) -> Result<usize, usize>
    ensures scans { Scans is_stamp text.now result }
    ensures places { IfOk result (λ n. n ≡ tail_places (drop 19 text.now)) }
{
    let front = fitting(text, FRONT);
    if front < FRONT.len() {
        return Err(front);
    }
    match tail(&text[front..]) {
        Ok(places) => Ok(places),
        Err(at) => Err(front + at),
    }
}
