//! The number and the text of each fault.
use super::*;

const A_CHECK: Check = Check::Count(Parameter::DLow, 7, CountRule::NotAbove(Parameter::D, 6));

/// Faults, with the number and the text of each.
static TEXTS: [(ParamFault, u8, &str); 4] = [
    (
        ParamFault::Degrees(A_CHECK),
        1,
        "the degrees don't fit together",
    ),
    (
        ParamFault::Thresholds(A_CHECK),
        2,
        "a threshold is out of range",
    ),
    (
        ParamFault::Factor(A_CHECK),
        3,
        "a factor, a weight or a cap is out of range",
    ),
    (
        ParamFault::Timing(A_CHECK),
        4,
        "a time or a budget is out of range",
    ),
];

#[test]
fn each_refusal_has_its_text(rt: HostRuntime) -> Result<(), AllocError> {
    for (fault, number, text) in &TEXTS {
        let shown = format!(in rt.alloc(); "{fault}")?;
        assert_eq!(rt; shown.as_str(), *text);
        assert_eq!(rt; fault.number(), *number);
    }
    Ok(())
}
