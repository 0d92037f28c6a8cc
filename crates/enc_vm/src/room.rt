//! Room for what a step writes.
ghost use Rattle.std.specs.Prelude.{◌≡◌, ◌+◌, ◌≤◌, ℕ, length, List, Option, Some, IfSome};
ghost use Rattle.enc_frames.specs.Console.{digits_of_number, or_empty};
ghost use Rattle.enc_frames.specs.Machine.{version_world};
ghost use Rattle.enc_frames.specs.Values.{upper};
ghost use Rattle.enc_il.specs.Seen.{arg_seen, instr_seen};
ghost use Rattle.enc_objects.specs.Objects.{units_held};
ghost use Rattle.enc_plain.specs.Module.{Module};
ghost use Rattle.enc_versions.specs.Version.{Version};
ghost use Rattle.enc_vm.specs.Placed.{IsFramePlaced, IsTaskPlaced};
ghost use Rattle.enc_vm.specs.Room.{WritesAtMost};
ghost use Rattle.enc_vm.specs.RoomSeen.{act_of, may_write, IsRoomAt, IsRoomForTask, IsRoomForTop, IsRoomForValue};
ghost use Rattle.enc_vm.specs.Step.{instruction_of, task_at};
ghost use Rattle.enc_vm.specs.Turns.{machine_turn};

use crate::advance::instruction_in;
use crate::ends::TaskState;
use crate::machine::Machine;
use crate::task::Task;
use crate::thread::Thread;
use enc_base::tables::METHOD_DEF;
use enc_frames::{Act, Stack, bare_act, branch_act, numbered_act, token_act};
use enc_objects::{Objects, Value};
use enc_opcodes::{Arg, Instr};
use enc_plain::ModuleView;

/// As many units as the digits of a number, with a sign, and a line end have at most.
const NUMBER_ROOM: u32 = 12;

/// Room for the digits of a number and a line end.
fn number_room(_number: i32) -> u32
    ensures { length (digits_of_number _number) + 1 ≤ result }
{
    NUMBER_ROOM
}

/// Room for a text and a line end.
fn text_room(objects: &Objects, id: u32) -> u32
    ensures { length (or_empty (units_held objects.now id)) + 1 ≤ result }
{
    match objects.text_len(id) {
        None => 1,
        Some(len) => len + 1,
    }
}

/// Room for a line end, and for the text or the digits of a value before it.
fn value_room(objects: &Objects, value: Value) -> u32
    ensures { IsRoomForValue objects.now result value }
{
    match value {
        Value::I4(number) => number_room(number),
        Value::I8(_) | Value::Null => 1,
        Value::Obj(id) => text_room(objects, id),
    }
}

/// The same of the value on the top of a stack, where there is one.
fn top_room(objects: &Objects, stack: &Stack) -> u32
    ensures { IsRoomForTop objects.now result (upper stack.now) }
{
    match stack.upper() {
        Err(_) => 1,
        Ok(value) => value_room(objects, value),
    }
}

/// What an instruction is for, None where that is something on values alone.
fn act_of(instr: Instr<'_>) -> Option<Act>
    ensures { (end : ℕ) → result ≡ act_of instr.entry.op (arg_seen end instr.entry.arg) }
{
    let code = instr.op.byte;
    match instr.arg {
        Arg::None => bare_act(code),
        Arg::Num(n) => numbered_act(code, n),
        Arg::Target(goal) => branch_act(code, goal),
        Arg::Token(token) => token_act(code, token),
        Arg::Targets(_) | Arg::User(_) | Arg::Raw(_) => None,
    }
}

/// Whether it may write: a call of a member outside.
fn may_write(act: Option<Act>) -> bool
    ensures { result ≡ may_write act }
{
    match act {
        Some(Act::Call(method)) => method.table != METHOD_DEF,
        Some(Act::CallVirtual(method)) => method.table != METHOD_DEF,
        Some(_) | None => false,
    }
}

/// Room for what an instruction writes, by the stack that it finds.
fn instruction_room(objects: &Objects, stack: &Stack, instr: Instr<'_>) -> u32
    ensures { (end : ℕ) → IsRoomAt objects.now result stack.now (Some (instr_seen (instr.entry, end))) }
{
    if !may_write(act_of(instr)) {
        return 0;
    }
    top_room(objects, stack)
}

impl Thread {
    /// Room for what the instruction writes at which the innermost frame stands.
    #[tactic(auto, using(crate::proofs::RoomAt::room_at))]
    fn room(&self, objects: &Objects) -> u32
        ensures { (users : ℕ → Option (List ℕ)) (m : Module) (methods : List (Option Version))
            → IsFramePlaced (version_world users m methods) self.now.top → IsRoomAt objects.now result
            self.now.top.stack (instruction_of (version_world users m methods) self.now.top) }
    {
        let code = self.top.code();
        match instruction_in(code.as_ref(), self.top.offset()) {
            None => 0,
            Some((instr, _)) => instruction_room(objects, self.top.stack(), instr),
        }
    }
}

impl Task {
    /// Room for what its next step writes.
    fn room(&self, objects: &Objects) -> u32
        ensures { (users : ℕ → Option (List ℕ)) (m : Module) (methods : List (Option Version))
            → IsTaskPlaced (version_world users m methods) self.now
            → IsRoomForTask (version_world users m methods) objects.now result self.now }
    {
        match self.state {
            TaskState::Ended => 0,
            TaskState::Trapped(_) => 0,
            TaskState::Running => match self.thread.flight {
                Some(_) => 0,
                None => self.thread.room(objects),
            },
        }
    }
}

impl Machine {
    /// Room for what a task's next step writes.
    fn room(&self, task: u32) -> u32
        ensures { (users : ℕ → Option (List ℕ)) (m : Module) (methods : List (Option Version))
            → IfSome (task_at self.now task)
            (IsRoomForTask (version_world users m methods) self.now.shared.store result) }
    {
        let Some(i) = task.checked_sub(1) else {
            return 0;
        };
        match self.tasks.get(i as usize) {
            None => 0,
            Some(task) => task.room(&self.shared.objects),
        }
    }

    /// A number that isn't less than that of the UTF-16 units that a task's next step writes, so that room for them
    /// can be made first: none unless it calls a member outside. It takes no memory.
    pub fn write_units<V: ModuleView>(&self, _view: &V, task: u32) -> u32
        ensures { (users : ℕ → Option (List ℕ)) (methods : List (Option Version))
            → WritesAtMost result (machine_turn (version_world users (V.meaning _view.now) methods) task self.now) }
    {
        self.room(task)
    }
}
