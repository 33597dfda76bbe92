// The length that a text announces.
ghost use Rattle.std.specs.Prelude.{◌≡◌, ◌≤◌, true, length};
ghost use Rattle.std.specs.List.{list_all};
ghost use Rattle.std.specs.Char.{is_ascii_digit};
ghost use Rattle.std.specs.Str.Parse.{digits_value};
ghost use Rattle.http_wire.specs.Fields.{is_length, length_in};

// The most bytes of a body.
const MOST_BODY: u64 = 67_108_864;

// The number that decimal digits write.
fn number(digits: &[u8]) -> u64
    requires digits { list_all is_ascii_digit digits.now ≡ true }
    requires short { length digits.now ≤ 18 }
    ensures { result ≡ digits_value 10 digits.now }
{
    let mut number = 0;
    for digit in digits {
        number = number * 10 + u64::from(*digit - b'0');
    }
    number
}

fn are_digits(text: &[u8]) -> bool
    ensures { result ≡ list_all is_ascii_digit text.now }
{
    text.iter().all(|byte| byte.is_ascii_digit())
}

// Whether the text is 1 to 18 digits.
fn is_length_text(text: &[u8]) -> bool
    ensures { result ≡ is_length text.now }
{
    !text.is_empty() && text.len() <= 18 && are_digits(text)
}

/// The length that a text announces (RFC 9110, section 8.6), or the status of its refusal.
pub fn text_length(text: &[u8]) -> Result<usize, u16>
    ensures { result ≡ length_in text.now }
{
    if !is_length_text(text) {
        return Err(400);
    }
    let length = number(text);
    if length > MOST_BODY {
        return Err(413);
    }
    Ok(length as usize)
}
