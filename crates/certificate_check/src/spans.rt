//! Spans of bits.
ghost use Rattle.std.specs.Prelude.{◌≡◌};
ghost use Rattle.certificate_laws.specs.Trees.{same_span, is_span};

use certificate_laws::Span;

/// Whether two spans are one.
fn same_span(a: Span, b: Span) -> bool
    ensures { result ≡ same_span a b }
{
    a.first == b.first && a.count == b.count
}

/// Whether a span is one of some.
pub fn is_span(spans: &[Span], span: Span) -> bool
    ensures { result ≡ is_span spans.now span }
{
    spans.iter().any(|one| same_span(span, *one))
}
