//! What a call comes to.
ghost use Rattle.std.specs.Prelude.{◌≡◌, Result};
ghost use Rattle.enc_c.specs.Status.{number_of_status, TellsValue};

/// The status of a call. Those that the program has too have its numbers.
#[derive(Clone, Copy)]
pub enum Status {
    /// All is done.
    Done,
    /// A file is refused.
    Refused,
    /// There is no memory.
    Memory,
    /// The handle is closed.
    Closed,
    /// The handle is open.
    Open,
    /// The buffer is too short, or the events that nobody has taken leave no room.
    Short,
    /// There is no such row, entry or body.
    Absent,
    /// The column, the table or the heap isn't of the kind that is asked for.
    Unlike,
    /// There is no such generation.
    Later,
    /// A stated limit would be passed.
    Limit,
    /// There are fewer than two deltas, or a session would have room for fewer events than a step may tell.
    Few,
}

impl Status {
    /// The number that C sees.
    pub fn number(self) -> u32
        ensures { result ≡ number_of_status self }
    {
        match self {
            Status::Done => 0,
            Status::Refused => 1,
            Status::Memory => 3,
            Status::Closed => 7,
            Status::Open => 8,
            Status::Short => 9,
            Status::Absent => 10,
            Status::Unlike => 11,
            Status::Later => 12,
            Status::Limit => 13,
            Status::Few => 14,
        }
    }
}

/// Tells a value, or why there is none.
pub fn tell<T: Copy>(answer: Result<T, Status>, told: &mut T) -> u32
    ensures { TellsValue result told.old told.new answer }
{
    match answer {
        Ok(value) => {
            *told = value;
            Status::Done.number()
        }
        Err(status) => status.number(),
    }
}
