//! How amounts are written.
ghost use Rattle.std.specs.Prelude.{◌≡◌, ◌++◌, OnOk};
ghost use Rattle.gs_report.specs.Text.{score_text};

use gs_report::push_millionths;
use std::alloc::AllocError;

/// Appends an amount: whole millionths, as a number with six digits after the point.
pub(crate) fn push_shown(out: &mut Vec<u8>, amount: &i128) -> Result<(), AllocError>
    ensures { OnOk result (out.new.items ≡ out.old.items ++ score_text amount.now) }
{
    push_millionths(*out.allocator(), out, *amount)
}

/// Appends a threshold: a score that neighbours need.
pub(crate) fn push_threshold(out: &mut Vec<u8>, threshold: &i64) -> Result<(), AllocError>
    ensures { OnOk result (out.new.items ≡ out.old.items ++ score_text threshold.now) }
{
    push_millionths(*out.allocator(), out, i128::from(*threshold))
}
