//! Texts of small things: numbers in decimal digits, texts in quotes, printed constant paths, the segments of a path.
#![tactic(auto)]

mod number;
mod paths;
mod quoting;

pub use number::{decimal, decimal_len, push_decimal};
pub use paths::{path_text, push_path, segments};
pub use quoting::{INSPECT_ESCAPES, push_escaped, push_quoted, quoted, quoted_len};

#[cfg(test)]
mod tests {
    use super::*;
    use lists::Text;
    use ruby_types::CPath;
    use std::alloc::{AllocError, Global};
    use std::test::Fail;

    #[test]
    fn numbers_are_written_in_decimal_digits(rt: HostRuntime) -> Result<(), Fail> {
        assert_eq!(rt; decimal(rt.alloc(), 0)?.as_bytes(), b"0".as_slice());
        assert_eq!(rt; decimal(rt.alloc(), -7)?.as_bytes(), b"-7".as_slice());
        assert_eq!(rt;
            decimal(rt.alloc(), 1_000_000)?.as_bytes(),
            b"1000000".as_slice()
        );
        assert_eq!(rt;
            decimal(rt.alloc(), i64::MAX)?.as_bytes(),
            b"9223372036854775807".as_slice()
        );
        assert_eq!(rt;
            decimal(rt.alloc(), i64::MIN)?.as_bytes(),
            b"-9223372036854775808".as_slice()
        );
        Ok(())
    }

    #[test]
    fn quotes_escape_what_ruby_shows_by_a_backslash(rt: HostRuntime) -> Result<(), Fail> {
        assert_eq!(rt; quoted(rt.alloc(), b"")?.as_bytes(), b"\"\"".as_slice());
        let shown = quoted(rt.alloc(), b"a\"b\\c\nd\te\rf'#{\x00\x1b\xc3\xa9")?;
        assert_eq!(rt;
            shown.as_bytes(),
            b"\"a\\\"b\\\\c\\nd\\te\\rf'#{\x00\x1b\xc3\xa9\"".as_slice()
        );
        let twice = quoted(rt.alloc(), quoted(rt.alloc(), b"x\n")?.as_bytes())?;
        assert_eq!(rt; twice.as_bytes(), b"\"\\\"x\\\\n\\\"\"".as_slice());
        Ok(())
    }

    /// The segments of a path, each with a `|` behind it.
    fn barred(alloc: Global, path: &[u8]) -> Result<Vec<u8>, AllocError> {
        let mut all = Vec::new(alloc);
        for piece in segments(alloc, path)?.as_slice() {
            all.extend_from_slice(piece.as_bytes())?;
            all.push(b'|')?;
        }
        Ok(all)
    }

    #[test]
    fn segments_stand_around_each_slash(rt: HostRuntime) -> Result<(), Fail> {
        let cases = [
            (b"".as_slice(), b"|".as_slice()),
            (b"/".as_slice(), b"||".as_slice()),
            (b"lib".as_slice(), b"lib|".as_slice()),
            (b"a//b".as_slice(), b"a||b|".as_slice()),
            (b"/a.b/".as_slice(), b"|a.b||".as_slice()),
            (
                b"app/models/user.rb".as_slice(),
                b"app|models|user.rb|".as_slice(),
            ),
        ];
        for (path, wanted) in cases {
            assert_eq!(rt; barred(rt.alloc(), path)?.as_slice(), wanted);
        }
        Ok(())
    }

    #[test]
    fn constant_paths_have_colons_between_their_names(rt: HostRuntime) -> Result<(), Fail> {
        let mut path = CPath::new(rt.alloc());
        assert_eq!(rt; path_text(rt.alloc(), &path)?.as_bytes(), b"".as_slice());
        path.push(Text::from_bytes(rt.alloc(), b"Admin")?)?;
        assert_eq!(rt;
            path_text(rt.alloc(), &path)?.as_bytes(),
            b"Admin".as_slice()
        );
        path.push(Text::from_bytes(rt.alloc(), b"User")?)?;
        path.push(Text::from_bytes(rt.alloc(), b"HTML")?)?;
        assert_eq!(rt;
            path_text(rt.alloc(), &path)?.as_bytes(),
            b"Admin::User::HTML".as_slice()
        );
        Ok(())
    }
}
