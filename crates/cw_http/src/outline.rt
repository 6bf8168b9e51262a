//! What is kept of a head.
ghost use Rattle.std.specs.Prelude.{◌≡◌, ◌≤◌, ℕ, List, length, map, All, None, IfOk, IfErr, IfSome, IfNone};
ghost use Rattle.httparse.specs.Spans.{IsHeaderWithin, IsRequestWithin, header_bytes};
ghost use Rattle.cw_http.specs.Head.{refusal_of_lines, lines_between};
ghost use Rattle.cw_http.specs.Fields.{body_length, closes};
ghost use Rattle.cw_http.specs.Reading.{refused, IsNoHead, ReadsHead};
ghost use Rattle.cw_http.specs.Kept.{IsRefusalCode};
ghost use Rattle.cw_http.specs.Parsed.{IsHeadAt};
ghost use Rattle.cw_http.specs.Outline.{IsOutline, FitsHead};

use crate::fields::{body_length, closes};
use crate::head::refusal_of_lines;
use httparse::Status;
use httparse::spans::{EMPTY_HEADER_SPAN, HeaderSpan, RequestSpans, Span, parse_request};

// Where the parts of a head stand that are kept.
#[derive(Debug, Drop)]
pub(crate) struct Outline {
    pub(crate) method: Span,
    pub(crate) target: Span,
    pub(crate) body: usize,
    pub(crate) close: bool,
}

// The outline of a head, or the code of its refusal.
pub(crate) fn outline_of(head: &[u8]) -> Result<Outline, u16>
    ensures lines { IfOk result (λ _. refusal_of_lines head.now ≡ None) }
    ensures outline { IfOk result (IsOutline head.now) }
    ensures fits { IfOk result (FitsHead (length head.now)) }
    ensures refused { IfErr result (λ code. (rest : List ℕ)
        → ReadsHead head.now rest (refusal_of_lines head.now) (refused code)) }
    ensures code { IfErr result IsRefusalCode }
{
    if let Some(code) = refusal_of_lines(head) {
        return Err(code);
    }
    let mut spans = [EMPTY_HEADER_SPAN; 64];
    match parsed(head, &mut spans) {
        Some(found) => outline_with(head, &found, &spans[..found.headers]),
        None => Err(400),
    }
}

// The head that all of the bytes are.
fn parsed(head: &[u8], spans: &mut [HeaderSpan]) -> Option<RequestSpans>
    requires { lines_between head.now ≤ length spans.old }
    ensures within { IfSome result (IsRequestWithin head.now spans.new) }
    ensures found { IfSome result (IsHeadAt head.now spans.new) }
    ensures none { IfNone result (IsNoHead head.now) }
{
    match parse_request(head, spans) {
        Ok(Status::Complete(found)) if found.len == head.len() => Some(found),
        _ => None,
    }
}

// The outline of a head by its fields.
fn outline_with(head: &[u8], found: &RequestSpans, fields: &[HeaderSpan]) -> Result<Outline, u16>
    requires { All (IsHeaderWithin (length head.now)) fields.now }
    ensures body { IfOk result (λ o. body_length (map (header_bytes head.now) fields.now) ≡ Ok o.body) }
    ensures close { IfOk result (λ o. o.close ≡ closes found.now.version (map (header_bytes head.now) fields.now)) }
    ensures method { IfOk result (λ o. o.method ≡ found.now.method) }
    ensures target { IfOk result (λ o. o.target ≡ found.now.path) }
    ensures refused { IfErr result (λ code. body_length (map (header_bytes head.now) fields.now) ≡ Err code) }
    ensures code { IfErr result IsRefusalCode }
{
    Ok(Outline {
        method: found.method,
        target: found.path,
        body: body_length(head, fields)?,
        close: closes(head, fields, found.version),
    })
}
