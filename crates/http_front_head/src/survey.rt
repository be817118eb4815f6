//! What the header lines of a head say together.
ghost use Rattle.std.specs.Prelude.{◌≡◌, ◌||◌, map, length, All};
ghost use Rattle.httparse.specs.Spans.{IsHeaderWithin, header_bytes};
ghost use Rattle.http_front_head.specs.Loops.Survey as spec;
ghost use Rattle.http_front_head.specs.Parts.{closes, has_body, has_faulty_length};

use crate::lines::{is_body_line, is_close_line, is_faulty_line, is_length_line};
use httparse::spans::HeaderSpan;

/// What header lines say.
#[derive(Clone, Copy)]
pub struct Survey {
    /// The connection closes behind the response.
    pub close: bool,
    /// A body is announced.
    pub body: bool,
    /// The length of the body is given.
    length: bool,
    /// It is given twice.
    repeated: bool,
    /// It is no number.
    faulty: bool,
}

impl Survey {
    /// Nothing is read yet. The version 1.0 closes.
    fn before_lines(minor: u8) -> Survey
        ensures { result ≡ spec.before_lines minor }
    {
        Survey {
            close: minor == 0,
            body: false,
            length: false,
            repeated: false,
            faulty: false,
        }
    }

    /// One line more.
    fn with_line(self, name: &[u8], value: &[u8]) -> Survey
        ensures { result ≡ spec.with_line self (name.now, value.now) }
    {
        Survey {
            close: self.close || is_close_line(name, value),
            body: self.body || is_body_line(name, value),
            length: self.length || is_length_line(name),
            repeated: self.repeated || (self.length && is_length_line(name)),
            faulty: self.faulty || is_faulty_line(name, value),
        }
    }

    /// Whether the length of the body can't be told.
    pub fn has_faulty_length(&self) -> bool
        ensures { result ≡ (self.now.repeated || self.now.faulty) }
    {
        self.repeated || self.faulty
    }
}

/// What these header lines of a head say.
pub fn survey_of(bytes: &[u8], minor: u8, headers: &[HeaderSpan]) -> Survey
    requires { All (IsHeaderWithin (length bytes.now)) headers.now }
    ensures { result ≡ spec.with_lines (spec.before_lines minor) (map (header_bytes bytes.now) headers.now) }
{
    let mut seen = Survey::before_lines(minor);
    'lines: for header in headers {
        seen = seen.with_line(header.name.of(bytes), header.value.of(bytes));
    }
    seen
}
