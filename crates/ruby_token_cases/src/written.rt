//! How the bytes of cases are spelled, so that each stands on one line.
//!
//! | Spelled | Stands for |
//! |---|---|
//! | `\n`, `\t`, `\r`, `\\` | LF, TAB, CR, a backslash |
//! | `\xFF` | the byte with these two digits |
//! | `\!` | no byte: the place of the first fault |

use std::alloc::{AllocError, Global};

/// The bytes that a text stands for, and the place of its mark.
#[derive(Drop)]
pub struct Written {
    pub bytes: Vec<u8>,
    pub mark: Option<usize>,
}

/// What the next byte is read as.
#[derive(Clone, Copy)]
enum Next {
    Itself,
    Escape,
    Digit,
    LastDigit(u8),
}

/// The value of a digit to the base 16.
fn digit(byte: u8) -> u8 {
    match byte {
        b'0'..=b'9' => byte - b'0',
        b'A'..=b'F' => byte - b'A' + 10,
        _ => 0,
    }
}

impl Written {
    /// Takes the byte behind a backslash.
    fn escape(&mut self, byte: u8) -> Result<Next, AllocError> {
        match byte {
            b'n' => self.bytes.push(b'\n')?,
            b't' => self.bytes.push(b'\t')?,
            b'r' => self.bytes.push(b'\r')?,
            b'x' => return Ok(Next::Digit),
            b'!' => self.mark = Some(self.bytes.len()),
            _ => self.bytes.push(byte)?,
        }
        Ok(Next::Itself)
    }

    /// Takes a byte, and says what the next one is read as.
    fn take(&mut self, next: Next, byte: u8) -> Result<Next, AllocError> {
        match next {
            Next::Itself if byte == b'\\' => return Ok(Next::Escape),
            Next::Itself => self.bytes.push(byte)?,
            Next::Escape => return self.escape(byte),
            Next::Digit => return Ok(Next::LastDigit(digit(byte))),
            Next::LastDigit(high) => self.bytes.push(high.wrapping_mul(16) | digit(byte))?,
        }
        Ok(Next::Itself)
    }
}

/// The bytes that a text stands for.
pub fn bytes_of(alloc: Global, text: &str) -> Result<Written, AllocError> {
    let mut written = Written {
        bytes: Vec::new(alloc),
        mark: None,
    };
    let mut next = Next::Itself;
    for byte in text.as_bytes() {
        next = written.take(next, *byte)?;
    }
    Ok(written)
}

/// These bytes as a text that stands for them.
pub fn escaped(alloc: Global, bytes: &[u8]) -> Result<String, AllocError> {
    let mut text = String::new(alloc);
    for byte in bytes {
        match *byte {
            b'\n' => text.push_str("\\n")?,
            b'\t' => text.push_str("\\t")?,
            b'\r' => text.push_str("\\r")?,
            b'\\' => text.push_str("\\\\")?,
            b' '..=b'~' => text.push(char::from(*byte))?,
            _ => text.push_str(format!(in alloc; "\\x{byte:02X}")?.as_str())?,
        }
    }
    Ok(text)
}
