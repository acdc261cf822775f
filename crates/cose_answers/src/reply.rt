//! What a run prints, and how it ends.

ghost use Rattle.std.specs.Prelude.{◌≡◌};
ghost use Rattle.cose_answers.specs.Printed.{code_of};

/// How a run ends.
#[derive(Clone, Copy, Debug, PartialEq, Eq)]
pub enum Status {
    /// The message is authentic, shown or made, or its digest is printed, a token is admitted, or help or the version
    /// was asked for.
    Done,
    /// The message or the token is refused.
    Refused,
    /// There is no answer, and no whole message: the command line is wrong, the keys are refused, memory, input or output fails.
    Fault,
}

impl Status {
    /// The exit status of the process: 0, 1 and 2, in this order.
    pub fn code(self) -> u8
        ensures { result ≡ code_of self }
    {
        match self {
            Status::Done => 0,
            Status::Refused => 1,
            Status::Fault => 2,
        }
    }
}

/// What a run prints, and how it ends.
#[derive(Drop)]
pub struct Reply {
    /// How it ends.
    pub status: Status,
    /// The text, whole.
    pub text: String,
}
