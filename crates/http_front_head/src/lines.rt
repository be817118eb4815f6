//! What a header line says.
ghost use Rattle.std.specs.Prelude.{◌≡◌, ◌<◌, [], ◌∷◌, length, codes, IfSome, IfNone};
ghost use Rattle.std.specs.List.{list_all};
ghost use Rattle.std.specs.Char.{is_ascii_digit};
ghost use Rattle.http_front_head.specs.Parts as spec;

use crate::parts::Verb;
use crate::trimming::trimmed;

/// Whether the two words are the same but for the case of ASCII letters.
fn is_word(text: &[u8], word: &str) -> bool
    ensures { result ≡ spec.is_word text.now word.now }
{
    text.eq_ignore_ascii_case(word.as_bytes())
}

fn says_close(member: &[u8]) -> bool
    ensures { result ≡ spec.says_close member.now }
{
    is_word(trimmed(member), "close")
}

/// The first member of a comma list and what stands behind its comma; none where there is no comma.
fn split_member(list: &[u8]) -> Option<(&[u8], &[u8])>
    ensures member { IfSome result (λ r. spec.members list.now ≡ r.0.now ∷ spec.members r.1.now) }
    ensures shorter { IfSome result (λ r. length r.1.now < length list.now) }
    ensures last { IfNone result (spec.members list.now ≡ list.now ∷ []) }
{
    match list.iter().position(|&byte| byte == b',') {
        Some(place) => Some((&list[..place], &list[place + 1..])),
        None => None,
    }
}

/// Whether a comma list has the member `close`.
#[tactic(auto, using(crate::proofs::Members::member_passed, crate::proofs::Members::member_closes, crate::proofs::Members::last_member))]
fn lists_close(value: &[u8]) -> bool
    ensures { result ≡ spec.lists_close value.now }
{
    let mut list = value;
    'members: while let Some((member, others)) = split_member(list) {
        if says_close(member) {
            return true;
        }
        list = others;
    }
    says_close(list)
}

/// Whether the line asks to close the connection.
pub fn is_close_line(name: &[u8], value: &[u8]) -> bool
    ensures { result ≡ spec.is_close_line (name.now, value.now) }
{
    is_word(name, "connection") && lists_close(value)
}

/// Whether the line gives the length of the body.
pub fn is_length_line(name: &[u8]) -> bool
    ensures { result ≡ spec.is_word name.now (codes "content-length") }
{
    is_word(name, "content-length")
}

fn are_digits(value: &[u8]) -> bool
    ensures { result ≡ list_all is_ascii_digit value.now }
{
    value.iter().all(|byte| byte.is_ascii_digit())
}

fn is_number(value: &[u8]) -> bool
    ensures { result ≡ spec.is_number value.now }
{
    !value.is_empty() && are_digits(value)
}

fn is_zero(value: &[u8]) -> bool
    ensures { result ≡ spec.is_zero value.now }
{
    value.iter().all(|byte| *byte == b'0')
}

/// Whether the line announces a body.
pub fn is_body_line(name: &[u8], value: &[u8]) -> bool
    ensures { result ≡ spec.is_body_line (name.now, value.now) }
{
    is_word(name, "transfer-encoding") || (is_length_line(name) && !is_zero(value))
}

/// Whether the line gives a length that is no number.
pub fn is_faulty_line(name: &[u8], value: &[u8]) -> bool
    ensures { result ≡ spec.is_faulty_line (name.now, value.now) }
{
    is_length_line(name) && !is_number(value)
}

/// The method, as far as it is told apart.
pub fn verb_of(method: &[u8]) -> Verb
    ensures { result ≡ spec.verb_of method.now }
{
    if method == b"GET".as_slice() {
        Verb::Get
    } else if method == b"HEAD".as_slice() {
        Verb::HeadOnly
    } else {
        Verb::Other
    }
}
