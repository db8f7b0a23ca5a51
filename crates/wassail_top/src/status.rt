//! The exit status.

ghost use Rattle.std.specs.Prelude.{◌≡◌};
ghost use Rattle.module_run.specs.Runs.{ends_as};
ghost use Rattle.wassail_top.specs.RunAnswers.{ended_status, run_status};
ghost use Rattle.wassail_top.specs.Statuses.{refusal_status, status_code};

use module_run::RunEnd;
use report_text::Refusal;
use wasm_types::Ended;

/// How the program ends.
#[derive(Clone, Copy, Debug, PartialEq, Eq)]
pub enum Status {
    /// The answer was written.
    Answered,
    /// The bytes that were read are too many, or no module that is analysed.
    ModuleRefused,
    /// The words are no command.
    WordsRefused,
    /// A read failed.
    ReadFailed,
    /// A write failed.
    WriteFailed,
    /// An allocation was refused.
    NoMemory,
    /// The query about the module is refused.
    QueryRefused,
    /// A segment doesn't fit, or the start function or the run trapped.
    Trapped,
    /// The start function and the run didn't end within the budget.
    OutOfTurns,
}

impl Status {
    /// The exit status: 0 for an answer, and then 1 to 8 in the order above.
    pub fn code(self) -> u8
        ensures { result ≡ status_code self }
    {
        match self {
            Status::Answered => 0,
            Status::ModuleRefused => 1,
            Status::WordsRefused => 2,
            Status::ReadFailed => 3,
            Status::WriteFailed => 4,
            Status::NoMemory => 5,
            Status::QueryRefused => 6,
            Status::Trapped => 7,
            Status::OutOfTurns => 8,
        }
    }

    /// The status that tells of a refusal.
    pub fn of(refusal: Refusal) -> Status
        ensures { status_code result ≡ refusal_status refusal }
    {
        match refusal {
            Refusal::Words => Status::WordsRefused,
            Refusal::ReadFailed => Status::ReadFailed,
            Refusal::Module(_) => Status::ModuleRefused,
            Refusal::Query(_) => Status::QueryRefused,
        }
    }

    /// The status that tells how a run ended.
    pub fn of_run(end: &RunEnd) -> Status
        ensures { result ≡ run_status (ends_as end.now) }
    {
        match end {
            RunEnd::ElemOut { .. } | RunEnd::DataOut { .. } => Status::Trapped,
            RunEnd::InStart { ended } => Status::of_ended(*ended),
            RunEnd::Ran { ended, .. } => Status::of_ended(*ended),
        }
    }

    fn of_ended(ended: Ended) -> Status
        ensures { result ≡ ended_status ended }
    {
        match ended {
            Ended::Returned { .. } => Status::Answered,
            Ended::Trapped { .. } => Status::Trapped,
            Ended::OutOfTurns => Status::OutOfTurns,
        }
    }
}
