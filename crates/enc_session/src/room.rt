//! Room for what a step writes, by the value on the top of the innermost frame's stack alone.
ghost use Rattle.std.specs.Prelude.{◌≡◌, ◌+◌, ◌≤◌, ℕ, List, Option, Ok, IfSome, length, reverse};
ghost use Rattle.enc_frames.specs.Console.{digits_of_number};
ghost use Rattle.enc_frames.specs.Machine.{version_world};
ghost use Rattle.enc_frames.specs.Values.{upper};
ghost use Rattle.enc_versions.specs.Version.{Version};
ghost use Rattle.enc_vm.specs.Looks.{innermost_in};
ghost use Rattle.enc_vm.specs.Room.{WritesAtMost};
ghost use Rattle.enc_vm.specs.Turns.{machine_turn};
ghost use Rattle.enc_session.specs.Room.{has_text_on_top, is_text, is_text_on, IsShortUnless};

use enc_objects::{Objects, Value};
use enc_plain::ModuleView;
use enc_vm::Machine;

/// As many units as a step writes at most where no text is on the top of the stack: the digits of a number, with a
/// sign, and a line end.
const SHORT: u32 = 12;

/// The digits of a number, with a sign, and a line end are no more.
fn number_law(_number: i32)
    ensures { length (digits_of_number _number) + 1 ≤ 12 }
{}

/// Whether a value is a text.
fn is_text(objects: &Objects, value: Value) -> bool
    ensures text { result ≡ is_text objects.now value }
    ensures short { IsShortUnless result objects.now (Ok value) }
{
    match value {
        Value::I4(number) => {
            number_law(number);
            false
        }
        Value::I8(_) | Value::Null => false,
        Value::Obj(id) => match objects.text_len(id) {
            None => false,
            Some(_) => true,
        },
    }
}

/// Whether one is on the top of a stack, which is told from the bottom up.
fn is_text_on(objects: &Objects, stack: &[Value]) -> bool
    ensures text { result ≡ is_text_on objects.now (reverse stack.now) }
    ensures short { IsShortUnless result objects.now (upper (reverse stack.now)) }
{
    match stack.last() {
        None => false,
        Some(value) => is_text(objects, *value),
    }
}

/// Whether one is on the top of the stack of a task's innermost frame.
fn has_text_on_top(machine: &Machine, task: u32) -> bool
    ensures text { result ≡ has_text_on_top machine.now task }
    ensures short { IfSome (innermost_in machine.now task)
        (λ f. IsShortUnless result machine.now.shared.store (upper f.stack)) }
{
    match machine.innermost(task) {
        None => false,
        Some(frame) => is_text_on(machine.objects(), frame.stack()),
    }
}

/// A number that isn't less than that of the UTF-16 units that a task's next step writes. What its instruction is for
/// is asked only where a text is on the top of the stack.
pub(crate) fn write_units<V: ModuleView>(machine: &Machine, view: &V, task: u32) -> u32
    ensures { (users : ℕ → Option (List ℕ)) (methods : List (Option Version))
        → WritesAtMost result (machine_turn (version_world users (V.meaning view.now) methods) task machine.now) }
{
    if has_text_on_top(machine, task) {
        return machine.write_units(view, task);
    }
    SHORT
}
