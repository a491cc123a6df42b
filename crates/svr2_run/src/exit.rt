//! The exit status of a command.
ghost use Rattle.std.specs.Prelude.{◌≡◌};

/// How a command ended.
#[derive(Clone, Copy, Debug, PartialEq, Eq)]
pub enum Status {
    /// The source was read to its end, and everything was written.
    Done,
    /// Memory ran out.
    Memory,
    /// The words are no command.
    Usage,
    /// A record means nothing.
    Schedule,
    /// The source failed.
    ReadFault,
    /// The sink failed.
    WriteFault,
    /// What a command asks of replicas failed. Replicas in memory do not.
    FieldFault,
    /// The source holds more bytes than are read, 67,108,864 of a schedule and 1,099,511,627,776 of a trace, or another limit
    /// would be passed.
    Limit,
    /// A frame of a session is bad.
    Frame,
    /// A trace is refused.
    Refused,
}

impl Status {
    /// The exit status of the program.
    pub fn code(self) -> u8
        ensures done { self ≡ Status.Done → result ≡ 0 }
        ensures memory { self ≡ Status.Memory → result ≡ 1 }
        ensures usage { self ≡ Status.Usage → result ≡ 2 }
        ensures schedule { self ≡ Status.Schedule → result ≡ 3 }
        ensures read_fault { self ≡ Status.ReadFault → result ≡ 4 }
        ensures write_fault { self ≡ Status.WriteFault → result ≡ 5 }
        ensures field_fault { self ≡ Status.FieldFault → result ≡ 6 }
        ensures limit { self ≡ Status.Limit → result ≡ 7 }
        ensures frame { self ≡ Status.Frame → result ≡ 8 }
        ensures refused { self ≡ Status.Refused → result ≡ 9 }
    {
        match self {
            Status::Done => 0,
            Status::Memory => 1,
            Status::Usage => 2,
            Status::Schedule => 3,
            Status::ReadFault => 4,
            Status::WriteFault => 5,
            Status::FieldFault => 6,
            Status::Limit => 7,
            Status::Frame => 8,
            Status::Refused => 9,
        }
    }
}
