// The answers of the top call, which are the program's exit codes.
ghost use Rattle.std.specs.Prelude.{◌≡◌, ◌≢◌};
ghost use Rattle.lucid_top_words.specs.Status.{code_of, IsDetermined};

/// How a call ended.
#[derive(Clone, Copy, Debug, PartialEq, Eq)]
pub enum Status {
    /// The work was done.
    Ok,
    /// The words are none of the forms, or the event's name and arguments fit no event.
    Usage,
    /// A call on a named file failed.
    ReadFault,
    /// A named file has more bytes than its limit.
    TooLong,
    /// The text is no program.
    Syntax,
    /// A declaration has no typing, or passes a limit.
    Types,
    /// A declaration touches arrays in no order.
    Order,
    /// The program doesn't fit the pipeline.
    NoFit,
    /// The limits file says nothing that can be used.
    BadLimits,
    /// The scenario says nothing that can be used.
    BadScene,
    /// A write of the output failed.
    WriteFault,
    /// Memory ran out.
    Memory,
    /// The placement file says nothing that can be used, or breaks a rule.
    BadPlacement,
    /// The width instances of the program can't be expanded.
    BadSizes,
}

impl Status {
    /// Returns the process's exit code (`code_of`).
    pub fn code(self) -> u8
        ensures { result ≡ code_of self }
    {
        self as u8
    }
}

/// Every status but those of the two faults and of a failed allocation is that of an answer (`IsDetermined`).
pub fn faults_alone_are_free()
    ensures { (s : Status) → s ≢ Status.ReadFault → s ≢ Status.WriteFault → s ≢ Status.Memory → IsDetermined s }
{}
