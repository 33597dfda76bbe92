// A row of the table.
use std::alloc::{AllocError, Global};

/// Bytes, and the answers that they are to have.
#[derive(Drop)]
pub struct Row {
    pub bytes: Vec<u8>,
    pub answers: Vec<u8>,
}

// The byte that a letter behind a backslash stands for.
fn byte_of(letter: u8) -> u8 {
    match letter {
        b'r' => b'\r',
        b'n' => b'\n',
        b't' => b'\t',
        b's' => b' ',
        b'0' => 0,
        b'd' => 127,
        b'h' => 128,
        b'f' => 255,
        b'u' => 252,
        b'[' => 27,
        letter if letter.is_ascii_uppercase() => letter - b'A' + 1,
        other => other,
    }
}

fn bytes_of(alloc: Global, text: &str) -> Result<Vec<u8>, AllocError> {
    let mut bytes = Vec::new(alloc);
    let mut escaped = false;
    for byte in text.as_bytes() {
        if escaped {
            bytes.push(byte_of(*byte))?;
            escaped = false;
        } else if *byte == b'\\' {
            escaped = true;
        } else {
            bytes.push(*byte)?;
        }
    }
    Ok(bytes)
}

impl Row {
    /// The row that a line has, if it has one: behind the section the bytes and the answers.
    pub fn read(alloc: Global, line: &str) -> Result<Option<Row>, AllocError> {
        match line.split_once('\t') {
            None => Ok(None),
            Some((_, row)) => match row.split_once('\t') {
                None => Ok(None),
                Some((bytes, answers)) => Ok(Some(Row {
                    bytes: bytes_of(alloc, bytes)?,
                    answers: bytes_of(alloc, answers)?,
                })),
            },
        }
    }
}
