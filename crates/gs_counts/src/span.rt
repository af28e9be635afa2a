//! The lowest and the highest of several values.
ghost use Rattle.std.specs.Prelude.{◌≡◌};
ghost use Rattle.gs_counts.specs.Meshes.{widened};

/// The lowest and the highest of several values.
#[derive(Clone, Copy, Debug, PartialEq, Eq)]
pub struct Span {
    pub lowest: i128,
    pub highest: i128,
}

/// A span with one more value.
pub(crate) fn widened(span: &Option<Span>, value: &i128) -> Option<Span>
    ensures { result ≡ widened span.now value.now }
{
    match span {
        Some(span) => Some(Span {
            lowest: span.lowest.min(*value),
            highest: span.highest.max(*value),
        }),
        None => Some(Span {
            lowest: *value,
            highest: *value,
        }),
    }
}
