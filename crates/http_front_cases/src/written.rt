//! How the bytes of cases are spelled, so that each stands on one line.
//!
//! | Spelled | Stands for |
//! |---|---|
//! | `\n`, `\r`, `\t`, `\\` | LF, CR, TAB, a backslash |
//! | `\xFF` | the byte with these two digits |
//! | `\[65:a: b\r\n\]` | what stands behind the first colon, so many times |

use std::alloc::{AllocError, Global};

/// A text that is read.
#[derive(Drop)]
struct Reading {
    bytes: Vec<u8>,
    /// Where what is repeated begins.
    start: usize,
    /// How often it is repeated.
    times: usize,
}

/// What the next byte is read as.
#[derive(Clone, Copy)]
enum Next {
    Itself,
    Escape,
    Digit,
    LastDigit(u8),
    Times,
}

/// The value of a digit to the base 16.
fn digit(byte: u8) -> u8 {
    match byte {
        b'0'..=b'9' => byte - b'0',
        b'A'..=b'F' => byte - b'A' + 10,
        _ => 0,
    }
}

impl Reading {
    /// Puts down once more what is repeated, as often as it is wanted.
    fn repeat(&mut self, alloc: Global) -> Result<(), AllocError> {
        let piece = match self.bytes.as_slice().get(self.start..) {
            Some(piece) => Vec::from_slice(alloc, piece)?,
            None => Vec::new(alloc),
        };
        for _ in 1..self.times {
            self.bytes.extend_from_slice(piece.as_slice())?;
        }
        Ok(())
    }

    /// Takes the byte behind a backslash.
    fn escape(&mut self, alloc: Global, byte: u8) -> Result<Next, AllocError> {
        match byte {
            b'n' => self.bytes.push(b'\n')?,
            b't' => self.bytes.push(b'\t')?,
            b'r' => self.bytes.push(b'\r')?,
            b'x' => return Ok(Next::Digit),
            b'[' => {
                self.times = 0;
                return Ok(Next::Times);
            }
            b']' => self.repeat(alloc)?,
            _ => self.bytes.push(byte)?,
        }
        Ok(Next::Itself)
    }

    /// Takes a digit of the number of times, or the colon behind it.
    fn times(&mut self, byte: u8) -> Next {
        if byte.is_ascii_digit() {
            self.times = self
                .times
                .saturating_mul(10)
                .saturating_add(usize::from(digit(byte)));
            return Next::Times;
        }
        self.start = self.bytes.len();
        Next::Itself
    }

    /// Takes a byte, and says what the next one is read as.
    fn take(&mut self, alloc: Global, next: Next, byte: u8) -> Result<Next, AllocError> {
        match next {
            Next::Itself if byte == b'\\' => return Ok(Next::Escape),
            Next::Itself => self.bytes.push(byte)?,
            Next::Escape => return self.escape(alloc, byte),
            Next::Digit => return Ok(Next::LastDigit(digit(byte))),
            Next::LastDigit(high) => self.bytes.push(high.wrapping_mul(16) | digit(byte))?,
            Next::Times => return Ok(self.times(byte)),
        }
        Ok(Next::Itself)
    }
}

/// The bytes that a text stands for.
pub fn bytes_of(alloc: Global, text: &str) -> Result<Vec<u8>, AllocError> {
    let mut reading = Reading {
        bytes: Vec::new(alloc),
        start: 0,
        times: 0,
    };
    let mut next = Next::Itself;
    for byte in text.as_bytes() {
        next = reading.take(alloc, next, *byte)?;
    }
    let Reading { bytes, .. } = reading;
    Ok(bytes)
}

/// These bytes as a text that stands for them.
pub fn escaped(alloc: Global, bytes: &[u8]) -> Result<String, AllocError> {
    let mut text = String::new(alloc);
    for byte in bytes {
        match *byte {
            b'\n' => text.push_str("\\n")?,
            b'\t' => text.push_str("\\t")?,
            b'\r' => text.push_str("\\r")?,
            b'\\' => text.push_str("\\\\")?,
            b' '..=b'~' => text.push(char::from(*byte))?,
            _ => text.push_str(format!(in alloc; "\\x{byte:02X}")?.as_str())?,
        }
    }
    Ok(text)
}
