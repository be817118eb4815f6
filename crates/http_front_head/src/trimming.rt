//! Bytes without the spaces and tabs around them.
ghost use Rattle.std.specs.Prelude.{◌≡◌, reverse};
ghost use Rattle.httparse.specs.Grammar.{is_ows, skip_ows, trim_ows};

fn is_ows(byte: u8) -> bool
    ensures { result ≡ is_ows byte }
{
    byte == b' ' || byte == b'\t'
}

fn without_front(bytes: &[u8]) -> &[u8]
    ensures { result.now ≡ skip_ows bytes.now }
{
    let mut rest = bytes;
    'front: while let Some((first, others)) = rest.split_first() {
        if !is_ows(*first) {
            return rest;
        }
        rest = others;
    }
    rest
}

fn without_back(bytes: &[u8]) -> &[u8]
    ensures { result.now ≡ reverse (skip_ows (reverse bytes.now)) }
{
    let mut rest = bytes;
    'back: while let Some((last, others)) = rest.split_last() {
        if !is_ows(*last) {
            return rest;
        }
        rest = others;
    }
    rest
}

/// The bytes without the spaces and tabs at both ends.
#[tactic(auto, unfolding(httparse::specs::Grammar::trim_ows))]
pub fn trimmed(bytes: &[u8]) -> &[u8]
    ensures { result.now ≡ trim_ows bytes.now }
{
    without_back(without_front(bytes))
}
