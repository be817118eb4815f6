//! How the bytes of cases are spelled, so that each stands on one line.
//!
//! | Spelled | Stands for |
//! |---|---|
//! | `\n`, `\t`, `\r`, `\\` | LF, TAB, CR, a backslash |
//! | `\xFF` | the byte with these two digits |
//! | `\!` | no byte: the place of the first fault |
//! | `\(100 ab\)` | `ab`, a hundred times |

use std::alloc::{AllocError, Global};

/// The bytes that a text stands for, and the place of its mark.
#[derive(Drop)]
pub struct Written {
    pub bytes: Vec<u8>,
    pub mark: Option<usize>,
}

/// What the next byte is read as.
#[derive(Clone, Copy)]
enum Next {
    Itself,
    Escape,
    Digit,
    LastDigit(u8),
    Count(u32),
}

/// What was read so far. In a repetition its text is kept apart.
#[derive(Drop)]
struct Reading {
    done: Written,
    repeated: Vec<u8>,
    times: Option<u32>,
}

/// The value of a digit to the base 16.
fn digit(byte: u8) -> u8 {
    match byte {
        b'0'..=b'9' => byte - b'0',
        b'A'..=b'F' => byte - b'A' + 10,
        _ => 0,
    }
}

impl Reading {
    fn put(&mut self, byte: u8) -> Result<(), AllocError> {
        match self.times {
            Some(_) => Ok(self.repeated.push(byte)?),
            None => Ok(self.done.bytes.push(byte)?),
        }
    }

    fn repeat(&mut self) -> Result<(), AllocError> {
        for _ in 0..self.times.take().unwrap_or(0) {
            self.done.bytes.extend_from_slice(self.repeated.as_slice())?;
        }
        self.repeated.clear();
        Ok(())
    }

    /// Takes the byte behind a backslash.
    fn escape(&mut self, byte: u8) -> Result<Next, AllocError> {
        match byte {
            b'n' => self.put(b'\n')?,
            b't' => self.put(b'\t')?,
            b'r' => self.put(b'\r')?,
            b'x' => return Ok(Next::Digit),
            b'(' => return Ok(Next::Count(0)),
            b')' => self.repeat()?,
            b'!' => self.done.mark = Some(self.done.bytes.len()),
            _ => self.put(byte)?,
        }
        Ok(Next::Itself)
    }

    /// Takes a byte, and says what the next one is read as.
    fn take(&mut self, next: Next, byte: u8) -> Result<Next, AllocError> {
        match next {
            Next::Itself if byte == b'\\' => return Ok(Next::Escape),
            Next::Itself => self.put(byte)?,
            Next::Escape => return self.escape(byte),
            Next::Digit => return Ok(Next::LastDigit(digit(byte))),
            Next::LastDigit(high) => self.put(high.wrapping_mul(16) | digit(byte))?,
            Next::Count(count) if byte == b' ' => self.times = Some(count),
            Next::Count(count) => {
                let more = u32::from(digit(byte));
                return Ok(Next::Count(count.saturating_mul(10).saturating_add(more)));
            }
        }
        Ok(Next::Itself)
    }
}

/// The bytes that a text stands for.
pub fn bytes_of(alloc: Global, text: &str) -> Result<Written, AllocError> {
    let mut reading = Reading {
        done: Written {
            bytes: Vec::new(alloc),
            mark: None,
        },
        repeated: Vec::new(alloc),
        times: None,
    };
    let mut next = Next::Itself;
    for byte in text.as_bytes() {
        next = reading.take(next, *byte)?;
    }
    Ok(reading.done)
}

/// These bytes as a text that stands for them.
pub fn escaped(alloc: Global, bytes: &[u8]) -> Result<String, AllocError> {
    let mut text = String::new(alloc);
    for byte in bytes {
        match *byte {
            b'\n' => text.push_str("\\n")?,
            b'\t' => text.push_str("\\t")?,
            b'\r' => text.push_str("\\r")?,
            b'\\' => text.push_str("\\\\")?,
            b' '..=b'~' => text.push(char::from(*byte))?,
            _ => text.push_str(format!(in alloc; "\\x{byte:02X}")?.as_str())?,
        }
    }
    Ok(text)
}
