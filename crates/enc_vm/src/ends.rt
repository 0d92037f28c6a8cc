//! What steps and spawns come to.
use enc_objects::Trap;

/// What comes of a step.
#[derive(Clone, Copy, Debug, PartialEq, Eq)]
pub enum StepEnd {
    /// The task goes on.
    Ran,
    /// Its last frame was left.
    Ended,
    /// It stopped in front of its next instruction.
    Trapped(Trap),
    /// It had ended or trapped before.
    Idle,
    /// No task has the number.
    Absent,
}

/// What comes of a spawn.
#[derive(Clone, Copy, Debug, PartialEq, Eq)]
pub enum SpawnEnd {
    /// The number of the new task, from 1.
    Task(u32),
    /// There are 64 tasks.
    Limit,
    /// A task can't begin with the method.
    Method,
}

/// How it stands with a task.
#[derive(Clone, Copy, Debug, PartialEq, Eq)]
pub enum TaskState {
    /// It goes on.
    Running,
    /// Its last frame was left.
    Ended,
    /// It stopped.
    Trapped(Trap),
}
