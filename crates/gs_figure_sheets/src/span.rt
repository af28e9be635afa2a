//! The lowest and the highest of several values.
ghost use Rattle.std.specs.Prelude.{◌≡◌, if◌then◌else◌};
ghost use Rattle.gs_counts.specs.Meshes.{widened};
ghost use Rattle.gs_figure_sheets.specs.Rows.{is_below, joined_spans, lower};

use gs_counts::Span;
use gs_opinions::Lowest;

/// Returns a span that also includes one more value.
pub(crate) fn widened(span: &Option<Span>, value: &i128) -> Option<Span>
    ensures { result ≡ widened span.now value.now }
{
    match span {
        Some(span) => Some(Span {
            lowest: span.lowest.min(*value),
            highest: span.highest.max(*value),
        }),
        None => Some(Span {
            lowest: *value,
            highest: *value,
        }),
    }
}

/// Returns the span that includes both.
pub(crate) fn joined_spans(first: &Option<Span>, second: &Option<Span>) -> Option<Span>
    ensures { result ≡ joined_spans first.now second.now }
{
    match second {
        Some(span) => {
            let wider = widened(first, &span.lowest);
            widened(&wider, &span.highest)
        }
        None => *first,
    }
}

/// Returns the lower one of two scores, or the earlier one if they are equal.
pub(crate) fn lower(first: &Option<Lowest>, second: &Option<Lowest>) -> Option<Lowest>
    ensures { result ≡ lower first.now second.now }
{
    match first {
        None => *second,
        Some(one) => match second {
            None => *first,
            Some(other) => Some(lower_one(one, other)),
        },
    }
}

fn lower_one(one: &Lowest, other: &Lowest) -> Lowest
    ensures { result ≡ (if is_below other.now one.now then other.now else one.now) }
{
    if is_below(other, one) {
        return *other;
    }
    *one
}

/// Says whether a score is lower than another, or equal and earlier.
fn is_below(one: &Lowest, other: &Lowest) -> bool
    ensures { result ≡ is_below one.now other.now }
{
    one.score < other.score || (!(other.score < one.score) && one.at.0 < other.at.0)
}
