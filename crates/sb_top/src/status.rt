/// How a call of the program ends; its number is the exit status.
#[derive(Clone, Copy, PartialEq, Eq)]
pub enum Status {
    /// The report has no warning.
    Clean = 0,
    /// The report has a warning.
    Warned = 1,
    /// The file is refused.
    Refused = 2,
    /// The words are no command.
    Usage = 3,
    /// The library failed.
    ReadFault = 4,
    /// The sink failed.
    WriteFault = 5,
    /// Want of memory.
    Memory = 6,
}
