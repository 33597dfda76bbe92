// Reading a text by the grammar of ids.
ghost use Rattle.std.specs.Prelude.{◌≡◌, OnOk, OnErr, IfErr, ◌&&◌};
ghost use Rattle.package_id.specs.Ids.{is_word_byte, is_joint, is_id, IsId, IsLongestIdFront};

fn is_word(byte: u8) -> bool
    ensures { result ≡ is_word_byte byte }
{
    byte.is_ascii_alphanumeric() || byte == b'_'
}

fn ends_part(in_part: bool, byte: u8) -> bool
    ensures { result ≡ (in_part && is_joint byte) }
{
    in_part && (byte == b'.' || byte == b'-')
}

// The error is the place where the text stops being the beginning of an id.
pub fn check(text: &[u8]) -> Result<(), usize>
    ensures ok { OnOk result (IsId text.now) }
    ensures refused { OnErr result (¬ IsId text.now) }
    ensures place { IfErr result (IsLongestIdFront text.now) }
{
    let mut in_part = false;
    for (at, byte) in text.iter().enumerate() {
        if is_word(*byte) {
            in_part = true;
        } else if ends_part(in_part, *byte) {
            in_part = false;
        } else {
            return Err(at);
        }
    }
    if in_part { Ok(()) } else { Err(text.len()) }
}

/// Whether the text is an id, of any length.
pub fn is_id(text: &str) -> bool
    ensures { result ≡ is_id text.now }
{
    check(text.as_bytes()).is_ok()
}
