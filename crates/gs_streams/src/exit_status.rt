//! How a program ends, as the status of its process.
ghost use Rattle.std.specs.Prelude.{◌≡◌};
ghost use Rattle.std.specs.Process.{exit_status};
ghost use Rattle.gs_streams.specs.Statuses.{status_of};

use std::process::ExitCode;

/// How a program ends. The contract of a call that returns this says what is then on its streams.
#[derive(Clone, Copy, Debug, PartialEq, Eq)]
pub enum ExitStatus {
    /// The whole text is on the output. Status 0.
    Done,
    /// The scenario, or a change of it, is refused. A run without memory for its plan also ends so. Status 1.
    Refused,
    /// A run met a fault, or memory ran out. Nothing of the text is on the output, where `check` writes its answer `32`. No
    /// clause says that either happened. Status 2.
    Unfinished,
    /// Out of memory for the rest of the text. A front of it is on the output, which by the clauses may be all of it. No clause
    /// says that memory ran out. Status 2.
    CutOff,
    /// A read of the input failed, or the input had not ended after `MOST_READS` reads. No clause says that
    /// either happened. Status 3.
    InputFailed,
    /// A write of the text failed, or took no bytes. A front of the text is on the output, which by the clauses may be all of
    /// it. No clause says that either happened. Status 3.
    OutputFailed,
    /// The arguments are wrong. Status 64, which `sysexits.h` calls `EX_USAGE`.
    WrongArguments,
}

impl From<ExitStatus> for ExitCode {
    ghost from_gives = { λ status code. exit_status code ≡ status_of status };

    fn from(status: ExitStatus) -> ExitCode {
        ExitCode::from(match status {
            ExitStatus::Done => 0u8,
            ExitStatus::Refused => 1,
            ExitStatus::Unfinished | ExitStatus::CutOff => 2,
            ExitStatus::InputFailed | ExitStatus::OutputFailed => 3,
            ExitStatus::WrongArguments => 64,
        })
    }
}
