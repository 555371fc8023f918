//! Why a line of a case can't be read.

/// Why a line of a case can't be read.
#[derive(Clone, Copy)]
pub enum CaseFault {
    UnknownWord,
    NoNumber,
    NoBytes,
    NoName,
    BadBraces,
    SaidTwice,
    NoMoment,
    Empty,
    TooMuch,
    Spent,
    NoMemory,
}

/// A fault, and the number of the line that has it.
#[derive(Clone, Copy)]
pub struct Malformed {
    pub at: u64,
    pub fault: CaseFault,
}

impl CaseFault {
    /// The fault in words.
    pub fn text(self) -> &'static str {
        match self {
            CaseFault::UnknownWord => "this kind of case has no such line",
            CaseFault::NoNumber => "a number is wanted",
            CaseFault::NoBytes => "bytes are wanted",
            CaseFault::NoName => "no bytes have this name",
            CaseFault::BadBraces => "a brace is open, or what it has can't be read",
            CaseFault::SaidTwice => "this was said before",
            CaseFault::NoMoment => "the run before has no such moment",
            CaseFault::Empty => "the case says nothing",
            CaseFault::TooMuch => "this is more than a line may have",
            CaseFault::Spent => "all that a run of cases may do was done before",
            CaseFault::NoMemory => "out of memory",
        }
    }
}
