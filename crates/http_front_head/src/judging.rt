//! Judges a head.
ghost use Rattle.std.specs.Prelude.{◌≡◌, ◌⊎◌, length};
ghost use Rattle.httparse.specs.Spans.{IsRequestWithin, IsRequestOf};
ghost use Rattle.http_front_head.specs.Heads.{most_lines, IsJudged};
ghost use Rattle.http_front_head.specs.declared.parts.Head.TheVariants.{Memory};

use crate::lines::verb_of;
use crate::parts::{Head, HeadParts};
use crate::survey::survey_of;
use httparse::spans::{HeaderSpan, RequestSpans};
use ruby_types::Text;
use std::alloc::Global;

/// The head whose parts stand there.
pub fn judged(alloc: Global, bytes: &[u8], headers: &[HeaderSpan], spans: &RequestSpans) -> Head
    requires room { length headers.now ≡ most_lines }
    requires within { IsRequestWithin bytes.now headers.now spans.now }
    requires head { IsRequestOf bytes.now headers.now spans.now }
    ensures { (result ≡ Memory) ⊎ IsJudged bytes.now result }
{
    let survey = survey_of(bytes, spans.version, &headers[..spans.headers]);
    if survey.has_faulty_length() {
        return Head::Bad;
    }
    let Ok(target) = Text::from_bytes(alloc, spans.path.of(bytes)) else {
        return Head::Memory;
    };
    let parts = HeadParts {
        verb: verb_of(spans.method.of(bytes)),
        target,
        close: survey.close,
        body: survey.body,
    };
    Head::Whole(spans.len, parts)
}
