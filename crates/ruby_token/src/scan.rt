//! How many bytes of a kind stand at the front.

ghost use Rattle.std.specs.Prelude.{◌≡◌, ◌≤◌, ◌<◌, ◌==◌, false, not, ◌&&◌, length, drop};
ghost use Rattle.std.specs.List.{prefix_len};
ghost use Rattle.std.specs.Char.{is_ascii_digit, is_ascii_uppercase};
ghost use Rattle.ruby_token.specs.Bytes.{is_word, is_lower, is_white, not_lf, is_line_end, is_quote, is_suffix};
ghost use Rattle.ruby_token.specs.Bytes.{is_escape, next_is, next_passes};
ghost use Rattle.ruby_token.specs.Lexemes.{ends_line, is_between};
ghost use Rattle.ruby_token.specs.Lengths.{suffix_len, name_len, digits_len, in_comment, goes_on, ends_here, comments};
ghost use Rattle.ruby_token.specs.Lengths.{lines_len, piece_ends, piece_len, single_len};

/// A small letter or `_`: what a name begins with.
pub fn is_lower(b: u8) -> bool
    ensures { result ≡ is_lower b }
{
    b.is_ascii_lowercase() || b == b'_'
}

fn is_word(b: u8) -> bool
    ensures { result ≡ is_word b }
{
    b.is_ascii_alphanumeric() || b == b'_'
}

/// Space, TAB or CR: white never ends a line.
pub fn is_white(b: u8) -> bool
    ensures { result ≡ is_white b }
{
    b == b' ' || b == b'\t' || b == b'\r'
}

/// LF or `;`: what ends a line.
pub fn is_line_end(b: u8) -> bool
    ensures { result ≡ is_line_end b }
{
    b == b'\n' || b == b';'
}

/// `"` or `'`: what a text opens and closes with.
pub fn is_quote(b: u8) -> bool
    ensures { result ≡ is_quote b }
{
    b == b'"' || b == b'\''
}

fn is_suffix(b: u8) -> bool
    ensures { result ≡ is_suffix b }
{
    b == b'?' || b == b'!'
}

fn is_escape(b: u8) -> bool
    ensures { result ≡ is_escape b }
{
    matches!(b, b'n' | b't' | b'r' | b'e' | b'"' | b'\\' | b'#')
}

/// Letters, digits and `_`.
pub fn word_len(bytes: &[u8]) -> usize
    ensures exact { result ≡ prefix_len is_word bytes.now }
    ensures within { result ≤ length bytes.now }
{
    bytes.iter().take_while(|b| is_word(**b)).count()
}

/// Space, TAB and CR.
pub fn white_len(bytes: &[u8]) -> usize
    ensures exact { result ≡ prefix_len is_white bytes.now }
    ensures within { result ≤ length bytes.now }
{
    bytes.iter().take_while(|b| is_white(**b)).count()
}

/// What comes before the next LF.
pub fn comment_len(bytes: &[u8]) -> usize
    ensures exact { result ≡ prefix_len not_lf bytes.now }
    ensures within { result ≤ length bytes.now }
{
    bytes.iter().take_while(|b| **b != b'\n').count()
}

/// Whether the next byte is this one.
pub fn next_is(b: u8, bytes: &[u8]) -> bool
    ensures { result ≡ next_is b bytes.now }
{
    match bytes {
        [] => false,
        [c, ..] => *c == b,
    }
}

fn digit_next(bytes: &[u8]) -> bool
    ensures { result ≡ next_passes is_ascii_digit bytes.now }
{
    match bytes {
        [] => false,
        [c, ..] => c.is_ascii_digit(),
    }
}

fn escape_next(bytes: &[u8]) -> bool
    ensures { result ≡ next_passes is_escape bytes.now }
{
    match bytes {
        [] => false,
        [c, ..] => is_escape(*c),
    }
}

fn suffix_len(bytes: &[u8]) -> usize
    ensures exact { result ≡ suffix_len bytes.now }
    ensures within { result ≤ length bytes.now }
{
    match bytes {
        [] => 0,
        [c, rest @ ..] => {
            if is_suffix(*c) && !next_is(b'=', rest) {
                1
            } else {
                0
            }
        }
    }
}

/// A name behind its first letter, with its suffix.
pub fn name_len(bytes: &[u8]) -> usize
    ensures exact { result ≡ name_len bytes.now }
    ensures within { result ≤ length bytes.now }
{
    let word = word_len(bytes);
    word + suffix_len(&bytes[word..])
}

/// Digits with single underscores between them.
pub fn digits_len(bytes: &[u8]) -> usize
    ensures exact { result ≡ digits_len bytes.now }
    ensures within { result ≤ length bytes.now }
{
    let mut n = 0;
    'digits: while n < bytes.len()
        && (bytes[n].is_ascii_digit() || bytes[n] == b'_' && digit_next(&bytes[n + 1..]))
    {
        n += 1;
    }
    n
}

fn ends_line(in_bracket: bool, b: u8) -> bool
    ensures { result ≡ ends_line in_bracket b }
{
    b == b';' || b == b'\n' && !in_bracket
}

fn is_between(in_bracket: bool, b: u8) -> bool
    ensures { result ≡ is_between in_bracket b }
{
    is_white(b) || b == b'\n' && in_bracket
}

fn in_comment(comment: bool, b: u8) -> bool
    ensures { result ≡ in_comment comment b }
{
    comment && b != b'\n'
}

/// Whether a run of line ends may go on with this byte.
fn goes_on(in_bracket: bool, comment: bool, b: u8) -> bool
    ensures { result ≡ goes_on in_bracket comment b }
{
    in_comment(comment, b) || ends_line(in_bracket, b) || is_between(in_bracket, b) || b == b'#'
}

/// Whether this byte of a run is a line end that counts.
fn ends_here(in_bracket: bool, comment: bool, b: u8) -> bool
    ensures { result ≡ ends_here in_bracket comment b }
{
    !in_comment(comment, b) && ends_line(in_bracket, b)
}

/// Whether the place behind this byte stands in a comment.
fn comments(comment: bool, b: u8) -> bool
    ensures { result ≡ comments comment b }
{
    in_comment(comment, b) || b == b'#'
}

/// Line ends in a row, with white and comments between them, up to the last of them.
pub fn lines_len(in_bracket: bool, bytes: &[u8]) -> usize
    ensures exact { result ≡ lines_len in_bracket false bytes.now }
    ensures within { result ≤ length bytes.now }
{
    let mut n = 0;
    let mut last = 0;
    let mut comment = false;
    'bytes: while n < bytes.len() && goes_on(in_bracket, comment, bytes[n]) {
        let b = bytes[n];
        if ends_here(in_bracket, comment, b) {
            last = n + 1;
        }
        comment = comments(comment, b);
        n += 1;
    }
    last
}

/// Whether the plain text in double quotes ends at this byte, with these bytes after it.
fn piece_ends(b: u8, rest: &[u8]) -> bool
    ensures { result ≡ piece_ends b rest.now }
{
    b == b'"' || b == b'#' && next_is(b'{', rest) || b == b'\\' && !escape_next(rest)
}

fn stops(escaped: bool, b: u8, rest: &[u8]) -> bool
    ensures { result ≡ (not escaped && piece_ends b rest.now) }
{
    !escaped && piece_ends(b, rest)
}

fn stops_single(escaped: bool, b: u8) -> bool
    ensures { result ≡ (not escaped && (b == 39)) }
{
    !escaped && b == b'\''
}

fn escapes(escaped: bool, b: u8) -> bool
    ensures { result ≡ (not escaped && (b == 92)) }
{
    !escaped && b == b'\\'
}

/// Plain bytes and escapes of a text in double quotes.
pub fn piece_len(bytes: &[u8]) -> usize
    ensures exact { result ≡ piece_len bytes.now }
    ensures within { result ≤ length bytes.now }
{
    let mut n = 0;
    let mut escaped = false;
    'bytes: while n < bytes.len() && !stops(escaped, bytes[n], &bytes[n + 1..]) {
        escaped = escapes(escaped, bytes[n]);
        n += 1;
    }
    n
}

/// Plain bytes and escapes of a text in single quotes.
pub fn single_len(bytes: &[u8]) -> usize
    ensures exact { result ≡ single_len bytes.now }
    ensures within { result ≤ length bytes.now }
{
    let mut n = 0;
    let mut escaped = false;
    'bytes: while n < bytes.len() && !stops_single(escaped, bytes[n]) {
        escaped = escapes(escaped, bytes[n]);
        n += 1;
    }
    n
}
