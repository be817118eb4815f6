//! The words of Ruby that are no names, with their codes: the 17 that the profile reserves and the 30 that it leaves
//! out.
#![tactic(auto)]

ghost use Rattle.std.specs.Prelude.{◌≡◌, ◌≤◌, ◌↔◌, IsTrue, IfSome, IfNone};
ghost use Rattle.case_table.specs.Rows.{HasCode, HasNone};
ghost use Rattle.ruby_words.specs.Words.{word_rows};
ghost use Rattle.ruby_words.specs.Shapes.{is_shape};

use case_table::{Case, CaseTable};

/// The code of `module`.
pub const MODULE: u16 = 1;

/// The code of `class`.
pub const CLASS: u16 = 2;

/// The code of `def`.
pub const DEF: u16 = 3;

/// The code of `end`.
pub const END: u16 = 4;

/// The code of `if`.
pub const IF: u16 = 5;

/// The code of `elsif`.
pub const ELSIF: u16 = 6;

/// The code of `else`.
pub const ELSE: u16 = 7;

/// The code of `unless`.
pub const UNLESS: u16 = 8;

/// The code of `then`.
pub const THEN: u16 = 9;

/// The code of `return`.
pub const RETURN: u16 = 10;

/// The code of `self`.
pub const SELF: u16 = 11;

/// The code of `nil`.
pub const NIL: u16 = 12;

/// The code of `true`.
pub const TRUE: u16 = 13;

/// The code of `false`.
pub const FALSE: u16 = 14;

/// The code of `raise`.
pub const RAISE: u16 = 15;

/// The code of `include`.
pub const INCLUDE: u16 = 16;

/// The code of `attr_reader`.
pub const ATTR_READER: u16 = 17;

/// The last code of a reserved word. Those of the left-out words are greater.
pub const LAST_RESERVED: u16 = 17;

/// The words in the order of their bytes.
static ROWS: [Case; 47] = [
    Case {
        name: b"alias",
        code: 18,
    },
    Case {
        name: b"and",
        code: 19,
    },
    Case {
        name: b"attr_accessor",
        code: 47,
    },
    Case {
        name: b"attr_reader",
        code: ATTR_READER,
    },
    Case {
        name: b"attr_writer",
        code: 46,
    },
    Case {
        name: b"begin",
        code: 20,
    },
    Case {
        name: b"break",
        code: 21,
    },
    Case {
        name: b"case",
        code: 22,
    },
    Case {
        name: b"class",
        code: CLASS,
    },
    Case {
        name: b"def",
        code: DEF,
    },
    Case {
        name: b"do",
        code: 23,
    },
    Case {
        name: b"else",
        code: ELSE,
    },
    Case {
        name: b"elsif",
        code: ELSIF,
    },
    Case {
        name: b"end",
        code: END,
    },
    Case {
        name: b"ensure",
        code: 24,
    },
    Case {
        name: b"extend",
        code: 25,
    },
    Case {
        name: b"false",
        code: FALSE,
    },
    Case {
        name: b"for",
        code: 26,
    },
    Case {
        name: b"if",
        code: IF,
    },
    Case {
        name: b"in",
        code: 27,
    },
    Case {
        name: b"include",
        code: INCLUDE,
    },
    Case {
        name: b"module",
        code: MODULE,
    },
    Case {
        name: b"next",
        code: 28,
    },
    Case {
        name: b"nil",
        code: NIL,
    },
    Case {
        name: b"not",
        code: 29,
    },
    Case {
        name: b"or",
        code: 30,
    },
    Case {
        name: b"prepend",
        code: 31,
    },
    Case {
        name: b"private",
        code: 32,
    },
    Case {
        name: b"protected",
        code: 33,
    },
    Case {
        name: b"public",
        code: 34,
    },
    Case {
        name: b"raise",
        code: RAISE,
    },
    Case {
        name: b"redo",
        code: 35,
    },
    Case {
        name: b"require",
        code: 36,
    },
    Case {
        name: b"require_relative",
        code: 37,
    },
    Case {
        name: b"rescue",
        code: 38,
    },
    Case {
        name: b"retry",
        code: 39,
    },
    Case {
        name: b"return",
        code: RETURN,
    },
    Case {
        name: b"self",
        code: SELF,
    },
    Case {
        name: b"super",
        code: 40,
    },
    Case {
        name: b"then",
        code: THEN,
    },
    Case {
        name: b"true",
        code: TRUE,
    },
    Case {
        name: b"undef",
        code: 41,
    },
    Case {
        name: b"unless",
        code: UNLESS,
    },
    Case {
        name: b"until",
        code: 42,
    },
    Case {
        name: b"when",
        code: 43,
    },
    Case {
        name: b"while",
        code: 44,
    },
    Case {
        name: b"yield",
        code: 45,
    },
];

/// The table of these words. It takes no memory.
pub fn ruby_words() -> CaseTable<47>
    ensures { result ≡ word_rows }
{
    match CaseTable::new(ROWS) {
        Ok(table) => table,
        Err(_) => unreachable!(),
    }
}

/// Whether a word begins with this byte and has this many, as few other names do.
fn is_shape(first: u8, size: usize) -> bool
    ensures { result ≡ is_shape first size }
{
    match first {
        b'a' => size == 3 || size == 5 || size == 11 || size == 13,
        b'b' => size == 5,
        b'c' => size == 4 || size == 5,
        b'd' => size == 2 || size == 3,
        b'e' => size == 3 || size == 4 || size == 5 || size == 6,
        b'f' => size == 3 || size == 5,
        b'i' => size == 2 || size == 7,
        b'm' => size == 6,
        b'n' => size == 3 || size == 4,
        b'o' => size == 2,
        b'p' => size == 6 || size == 7 || size == 9,
        b'r' => size == 4 || size == 5 || size == 6 || size == 7 || size == 16,
        b's' => size == 4 || size == 5,
        b't' => size == 4,
        b'u' => size == 5 || size == 6,
        b'w' => size == 4 || size == 5,
        b'y' => size == 5,
        _ => false,
    }
}

/// The code of a name in the table of these words. A name of another shape than theirs isn't looked up.
pub fn code_of(words: &CaseTable<47>, name: &[u8]) -> Option<u16>
    requires { words.now ≡ word_rows }
    // A word is spelled so, and has that code.
    ensures found { IfSome result (λ c. HasCode words.now name.now c) }
    // No word is spelled so.
    ensures none { IfNone result (HasNone words.now name.now) }
{
    match name {
        [] => None,
        [first, ..] => if is_shape(*first, name.len()) {
            words.find(name)
        } else {
            None
        },
    }
}

/// Whether the code is that of a reserved word, and not of one that is left out.
pub fn is_reserved(code: u16) -> bool
    ensures { IsTrue result ↔ (code ≤ 17) }
{
    code <= LAST_RESERVED
}

#[cfg(test)]
mod tests {
    use super::*;
    use case_table::cases;

    #[test]
    fn words_are_chosen_by_their_codes(rt: HostRuntime) {
        let words = ruby_words();
        for (name, code) in [
            (b"module".as_slice(), 1),
            (b"attr_reader", 17),
            (b"alias", 18),
            (b"attr_accessor", 47),
        ] {
            assert_eq!(rt; words.find(name), Some(code));
        }
        for name in [b"".as_slice(), b"Module", b"model", b"puts", b"yields"] {
            assert_eq!(rt; words.find(name), None);
        }
        let kind = cases!(words.find(b"end"); END => 'e', DEF => 'd'; '-');
        assert_eq!(rt; kind, 'e');
        assert!(rt; is_reserved(ATTR_READER));
        assert!(rt; !is_reserved(18));
    }
}
