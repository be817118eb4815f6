//! The operators and marks.

ghost use Rattle.std.specs.Prelude.{◌≡◌, ◌≤◌, ◌<◌, [], ◌∷◌, Some, length, IfSome, nat_eq, if◌then◌else◌, slice_index};
ghost use Rattle.ruby_token.specs.Operators.{operators};
ghost use Rattle.ruby_token.specs.Steps.{operator_at, first_in};

use crate::token::Op;

/// At a `=`, with these bytes behind it.
fn at_equals(second: u8, third: u8) -> (Op, usize)
    ensures { Some result ≡ first_in operators (61 ∷ second ∷ third ∷ []) }
{
    match second {
        b'=' if third == b'=' => (Op::CaseSame, 3),
        b'=' => (Op::Same, 2),
        b'>' => (Op::Arrow, 2),
        b'~' => (Op::Matches, 2),
        _ => (Op::Assign, 1),
    }
}

/// At a `<`, with these bytes behind it.
fn at_less(second: u8, third: u8) -> (Op, usize)
    ensures { Some result ≡ first_in operators (60 ∷ second ∷ third ∷ []) }
{
    match second {
        b'=' if third == b'>' => (Op::Compare, 3),
        b'=' => (Op::AtMost, 2),
        b'<' => (Op::ShiftLeft, 2),
        _ => (Op::Less, 1),
    }
}

/// At a `>`, with this byte behind it.
fn at_more(second: u8) -> (Op, usize)
    ensures { Some result ≡ first_in operators (62 ∷ second ∷ []) }
{
    match second {
        b'=' => (Op::AtLeast, 2),
        b'>' => (Op::ShiftRight, 2),
        _ => (Op::More, 1),
    }
}

/// At a `!`, with this byte behind it.
fn at_bang(second: u8) -> (Op, usize)
    ensures { Some result ≡ first_in operators (33 ∷ second ∷ []) }
{
    match second {
        b'=' => (Op::Differs, 2),
        b'~' => (Op::MatchesNot, 2),
        _ => (Op::Not, 1),
    }
}

/// At a `.`, with these bytes behind it.
fn at_dot(second: u8, third: u8) -> (Op, usize)
    ensures { Some result ≡ first_in operators (46 ∷ second ∷ third ∷ []) }
{
    match second {
        b'.' if third == b'.' => (Op::OpenRange, 3),
        b'.' => (Op::Range, 2),
        _ => (Op::Dot, 1),
    }
}

/// At a `|`, with these bytes behind it.
fn at_bar(second: u8, third: u8) -> (Op, usize)
    ensures { Some result ≡ first_in operators (124 ∷ second ∷ third ∷ []) }
{
    match second {
        b'|' if third == b'=' => (Op::OrAssign, 3),
        b'|' => (Op::OrElse, 2),
        _ => (Op::Bar, 1),
    }
}

/// At a `&`, with these bytes behind it.
fn at_ampersand(second: u8, third: u8) -> (Op, usize)
    ensures { Some result ≡ first_in operators (38 ∷ second ∷ third ∷ []) }
{
    match second {
        b'&' if third == b'=' => (Op::AndAssign, 3),
        b'&' => (Op::AndAlso, 2),
        b'.' => (Op::SafeDot, 2),
        _ => (Op::BitAnd, 1),
    }
}

/// At a `*`, with this byte behind it.
fn at_star(second: u8) -> (Op, usize)
    ensures { Some result ≡ first_in operators (42 ∷ second ∷ []) }
{
    match second {
        b'*' => (Op::Power, 2),
        b'=' => (Op::TimesAssign, 2),
        _ => (Op::Times, 1),
    }
}

/// At a `-`, with this byte behind it.
fn at_minus(second: u8) -> (Op, usize)
    ensures { Some result ≡ first_in operators (45 ∷ second ∷ []) }
{
    match second {
        b'=' => (Op::MinusAssign, 2),
        b'>' => (Op::Lambda, 2),
        _ => (Op::Minus, 1),
    }
}

/// The longer operator, if the byte behind is this one.
fn one_or_two(second: u8, wanted: u8, two: Op, one: Op) -> (Op, usize)
    ensures { result ≡ (if nat_eq wanted second then (two, 2) else (one, 1)) }
{
    if second == wanted { (two, 2) } else { (one, 1) }
}

/// The longest operator that three bytes begin with, and how many bytes it has.
fn operator_of(first: u8, second: u8, third: u8) -> Option<(Op, usize)>
    ensures { result ≡ first_in operators (first ∷ second ∷ third ∷ []) }
{
    let found = match first {
        b'.' => at_dot(second, third),
        b'=' => at_equals(second, third),
        b'<' => at_less(second, third),
        b'>' => at_more(second),
        b'!' => at_bang(second),
        b'|' => at_bar(second, third),
        b'&' => at_ampersand(second, third),
        b'*' => at_star(second),
        b'-' => at_minus(second),
        b'+' => one_or_two(second, b'=', Op::PlusAssign, Op::Plus),
        b'/' => one_or_two(second, b'=', Op::DivideAssign, Op::Divide),
        b':' => one_or_two(second, b':', Op::Path, Op::Colon),
        b'@' if second == b'@' => (Op::ClassVariable, 2),
        b'(' => (Op::OpenParen, 1),
        b')' => (Op::CloseParen, 1),
        b',' => (Op::Comma, 1),
        b'[' => (Op::OpenBracket, 1),
        b']' => (Op::CloseBracket, 1),
        b'{' => (Op::OpenBrace, 1),
        b'}' => (Op::CloseBrace, 1),
        b'%' => (Op::Modulo, 1),
        b'?' => (Op::Ask, 1),
        b'^' => (Op::BitXor, 1),
        b'~' => (Op::BitNot, 1),
        b'$' => (Op::GlobalVariable, 1),
        _ => return None,
    };
    Some(found)
}

/// The byte at a place, and 0 past the end.
fn byte_at(bytes: &[u8], place: usize) -> u8
    ensures { result ≡ slice_index bytes.now place }
{
    if place < bytes.len() { bytes[place] } else { 0 }
}

/// The longest operator at the front, and how many bytes it has.
pub fn operator_at(bytes: &[u8]) -> Option<(Op, usize)>
    ensures exact { result ≡ operator_at bytes.now }
    ensures within { IfSome result (λ f. (0 < f.1) × (f.1 ≤ length bytes.now)) }
{
    operator_of(byte_at(bytes, 0), byte_at(bytes, 1), byte_at(bytes, 2))
}
