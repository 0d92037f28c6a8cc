//! Members outside of the module: each is one step.
ghost use Rattle.std.specs.Prelude.{◌≡◌, false, []};
ghost use Rattle.enc_machine_types.specs.declared.outside.Outside.TheVariants as outside;
ghost use Rattle.enc_objects.specs.Objects.{Store};
ghost use Rattle.enc_plain.specs.Module.{cells_of};
ghost use Rattle.enc_plain.specs.Rows.{token_at};
ghost use Rattle.enc_schema.specs.Columns.{member_ref_class};
ghost use Rattle.enc_base.specs.Tables.{member_ref};
ghost use Rattle.enc_frames.specs.FramesSeen.{shared_by};
ghost use Rattle.enc_frames.specs.Console.{run_constructor, run_outside, call_outside, is_outside_constructor, new_outside};
ghost use Rattle.enc_frames.specs.ConsoleSeen.{frame_alone, object_loaded, MakesWriting};
ghost use Rattle.enc_frames.specs.Machine.{version_world};

use crate::frame::Frame;
use crate::stop::Stop;
use crate::texts::{
    count_of, digits, ended, joined, or_empty, text, texts_equal, truth, unit_at, units_copied,
};
use crate::values::{reference, word};
use enc_base::{Token, Units};
use enc_machine_types::{Outside, outside_of};
use enc_objects::{Objects, Trap, Value};
use enc_plain::{CellView, ModuleView, Viewed};
use enc_schema::columns::MEMBER_REF_CLASS;
use std::alloc::Global;

/// What a step writes, in UTF-16 units, or why it changes nothing.
pub type Written = Result<Option<Units>, Stop>;

impl Frame {
    /// A constructor outside, which does nothing with its object. X5 where that may not be null and is.
    fn run_constructor(&mut self, asked: bool, next: u32) -> Written
        ensures { (s : Store) → MakesWriting result s s self.new [] (frame_alone self.old)
            (run_constructor asked next (shared_by s []) (frame_alone self.old)) }
    {
        let value = self.stack.upper()?;
        let object = reference(value)?;
        if asked && object.is_none() {
            return Err(Stop::Trap(Trap::X5));
        }
        self.stack.remove(1);
        self.offset = next;
        Ok(None)
    }

    /// `Console.WriteLine()`.
    #[tactic(auto, unfolding(crate::specs::Console::run_outside))]
    fn write_line(&mut self, alloc: Global, next: u32) -> Written
        ensures { (s : Store) → MakesWriting result s s self.new [] (frame_alone self.old)
            (run_outside outside.WriteLine false next (shared_by s []) (frame_alone self.old)) }
    {
        let line = ended(Units::begin(alloc))?;
        self.offset = next;
        Ok(Some(line))
    }

    /// `Console.WriteLine(int)`.
    #[tactic(auto, unfolding(crate::specs::Console::run_outside))]
    fn write_number(&mut self, alloc: Global, next: u32) -> Written
        ensures { (s : Store) → MakesWriting result s s self.new [] (frame_alone self.old)
            (run_outside outside.WriteLineNumber false next (shared_by s []) (frame_alone self.old)) }
    {
        let value = self.stack.upper()?;
        let number = word(value)?;
        let units = digits(alloc, number)?;
        let line = ended(units)?;
        self.stack.remove(1);
        self.offset = next;
        Ok(Some(line))
    }

    /// `Console.WriteLine(string)`.
    #[tactic(auto, unfolding(crate::specs::Console::run_outside))]
    fn write_text_line(&mut self, alloc: Global, objects: &Objects, next: u32) -> Written
        ensures { MakesWriting result objects.now objects.now self.new [] (frame_alone self.old)
            (run_outside outside.WriteLineText false next (shared_by objects.now []) (frame_alone self.old)) }
    {
        let value = self.stack.upper()?;
        let text = text(objects, value)?;
        let units = units_copied(alloc, or_empty(text))?;
        let line = ended(units)?;
        self.stack.remove(1);
        self.offset = next;
        Ok(Some(line))
    }

    /// `Console.Write(string)`.
    #[tactic(auto, unfolding(crate::specs::Console::run_outside))]
    fn write_text(&mut self, alloc: Global, objects: &Objects, next: u32) -> Written
        ensures { MakesWriting result objects.now objects.now self.new [] (frame_alone self.old)
            (run_outside outside.WriteText false next (shared_by objects.now []) (frame_alone self.old)) }
    {
        let value = self.stack.upper()?;
        let text = text(objects, value)?;
        let units = units_copied(alloc, or_empty(text))?;
        self.stack.remove(1);
        self.offset = next;
        Ok(Some(units))
    }

    /// `String.Concat(string, string)`.
    #[tactic(auto, unfolding(crate::specs::Console::run_outside))]
    fn join_two(&mut self, alloc: Global, objects: &mut Objects, next: u32) -> Written
        ensures { MakesWriting result objects.new objects.old self.new [] (frame_alone self.old)
            (run_outside outside.ConcatTwo false next (shared_by objects.old []) (frame_alone self.old)) }
    {
        let (a, b) = self.stack.upper_two()?;
        let a = text(objects, a)?;
        let b = text(objects, b)?;
        let units = joined(alloc, or_empty(a), or_empty(b))?;
        let id = objects.new_text(units.as_slice())?;
        self.stack.replace(2, Value::Obj(id));
        self.offset = next;
        Ok(None)
    }

    /// `String.Concat(string, string, string)`.
    #[tactic(auto, unfolding(crate::specs::Console::run_outside))]
    fn join_three(&mut self, alloc: Global, objects: &mut Objects, next: u32) -> Written
        ensures { MakesWriting result objects.new objects.old self.new [] (frame_alone self.old)
            (run_outside outside.ConcatThree false next (shared_by objects.old []) (frame_alone self.old)) }
    {
        let (a, b, c) = self.stack.upper_three()?;
        let a = text(objects, a)?;
        let b = text(objects, b)?;
        let c = text(objects, c)?;
        let front = joined(alloc, or_empty(a), or_empty(b))?;
        let units = joined(alloc, front.as_slice(), or_empty(c))?;
        let id = objects.new_text(units.as_slice())?;
        self.stack.replace(3, Value::Obj(id));
        self.offset = next;
        Ok(None)
    }

    /// `String.op_Equality(string, string)`.
    #[tactic(auto, unfolding(crate::specs::Console::run_outside))]
    fn compare_texts(&mut self, objects: &Objects, next: u32) -> Written
        ensures { MakesWriting result objects.now objects.now self.new [] (frame_alone self.old)
            (run_outside outside.AreEqual false next (shared_by objects.now []) (frame_alone self.old)) }
    {
        let (a, b) = self.stack.upper_two()?;
        let a = text(objects, a)?;
        let b = text(objects, b)?;
        let value = truth(texts_equal(a, b));
        self.stack.replace(2, value);
        self.offset = next;
        Ok(None)
    }

    /// `String.get_Length()`.
    #[tactic(auto, unfolding(crate::specs::Console::run_outside))]
    fn text_length(&mut self, objects: &Objects, next: u32) -> Written
        ensures { MakesWriting result objects.now objects.now self.new [] (frame_alone self.old)
            (run_outside outside.TextLength false next (shared_by objects.now []) (frame_alone self.old)) }
    {
        let value = self.stack.upper()?;
        let Some(units) = text(objects, value)? else {
            return Err(Stop::Trap(Trap::X5));
        };
        self.stack
            .replace(1, Value::I4(count_of(units).cast_signed()));
        self.offset = next;
        Ok(None)
    }

    /// `String.get_Chars(int)`.
    #[tactic(auto, unfolding(crate::specs::Console::run_outside))]
    fn text_unit(&mut self, objects: &Objects, next: u32) -> Written
        ensures { MakesWriting result objects.now objects.now self.new [] (frame_alone self.old)
            (run_outside outside.TextUnit false next (shared_by objects.now []) (frame_alone self.old)) }
    {
        let (value, index) = self.stack.upper_two()?;
        let text = text(objects, value)?;
        let index = word(index)?;
        let Some(units) = text else {
            return Err(Stop::Trap(Trap::X5));
        };
        let unit = unit_at(units, index)?;
        self.stack.replace(2, Value::I4(i32::from(unit)));
        self.offset = next;
        Ok(None)
    }

    /// A call of a member outside; asked says that the object may not be null.
    #[tactic(auto, unfolding(crate::specs::Console::run_outside))]
    fn run_outside(
        &mut self,
        alloc: Global,
        objects: &mut Objects,
        member: Outside,
        asked: bool,
        next: u32,
    ) -> Written
        ensures { MakesWriting result objects.new objects.old self.new [] (frame_alone self.old)
            (run_outside member asked next (shared_by objects.old []) (frame_alone self.old)) }
    {
        match member {
            Outside::NewObject | Outside::NewException => self.run_constructor(asked, next),
            Outside::WriteLine => self.write_line(alloc, next),
            Outside::WriteLineText => self.write_text_line(alloc, objects, next),
            Outside::WriteLineNumber => self.write_number(alloc, next),
            Outside::WriteText => self.write_text(alloc, objects, next),
            Outside::ConcatTwo => self.join_two(alloc, objects, next),
            Outside::ConcatThree => self.join_three(alloc, objects, next),
            Outside::AreEqual => self.compare_texts(objects, next),
            Outside::TextLength => self.text_length(objects, next),
            Outside::TextUnit => self.text_unit(objects, next),
        }
    }
}

/// `call`, `callvirt` of a member outside (ECMA-335 III.3.19, III.4.2); asked says that the object may not be
/// null.
#[tactic(auto, unfolding(crate::specs::Console::call_outside, crate::specs::Machine::version_world))]
pub fn call_outside<V: ModuleView>(
    alloc: Global,
    view: &V,
    objects: &mut Objects,
    frame: &mut Frame,
    asked: bool,
    next: u32,
    member: Token,
) -> Written
    ensures { MakesWriting result objects.new objects.old frame.new [] (frame_alone frame.old)
        (call_outside (version_world (V.users view.now) (V.meaning view.now) []) asked next member
        (shared_by objects.old []) (frame_alone frame.old)) }
{
    match outside_of(view, member) {
        None => Err(Stop::Trap(Trap::X2)),
        Some(outside) => frame.run_outside(alloc, objects, outside, asked, next),
    }
}

/// Whether a member is a constructor.
fn is_constructor(member: Outside) -> bool
    ensures { result ≡ is_outside_constructor member }
{
    matches!(member, Outside::NewObject | Outside::NewException)
}

/// The type that a row of MemberRef is of (ECMA-335 II.22.25).
#[tactic(auto, using(enc_plain::proofs::ColumnKinds::member_class))]
fn class_of<V: ModuleView>(view: &V, member: Token) -> Token
    requires { member.table ≡ member_ref }
    ensures { result ≡ token_at (cells_of (V.meaning view.now)) member member_ref_class }
{
    let rows = Viewed { view };
    rows.token(member, MEMBER_REF_CLASS)
}

/// A new object of a type goes on the stack.
#[tactic(auto, unfolding(crate::specs::Straight::load))]
fn load_object(objects: &mut Objects, frame: &mut Frame, next: u32, class: Token) -> Written
    ensures { MakesWriting result objects.new objects.old frame.new [] (frame_alone frame.old)
        (object_loaded frame.old.code.code.max next class (shared_by objects.old []) (frame_alone frame.old)) }
{
    if objects.is_full(0) {
        return Err(Stop::Trap(Trap::X12));
    }
    if frame.stack.len() >= frame.max() as usize {
        return Err(Stop::Trap(Trap::X13));
    }
    frame.stack.push(Value::Null)?;
    match objects.new_object(class) {
        Err(fault) => {
            frame.stack.remove(1);
            Err(Stop::from(fault))
        }
        Ok(id) => {
            frame.stack.replace(1, Value::Obj(id));
            frame.offset = next;
            Ok(None)
        }
    }
}

#[tactic(auto, unfolding(crate::specs::Console::new_outside, // a new object of another module
crate::specs::Machine::version_world, // what the frames see
enc_opcodes::specs::Body::body_of // what a body's parts mean
))]
/// `newobj` of a constructor outside: an object of the type that it is of (ECMA-335 III.4.21).
pub fn new_outside<V: ModuleView>(
    view: &V,
    objects: &mut Objects,
    frame: &mut Frame,
    next: u32,
    member: Token,
) -> Written
    ensures { MakesWriting result objects.new objects.old frame.new [] (frame_alone frame.old)
        (new_outside (version_world (V.users view.now) (V.meaning view.now) []) next member (shared_by objects.old [])
        (frame_alone frame.old)) }
{
    let Some(outside) = outside_of(view, member) else {
        return Err(Stop::Trap(Trap::X2));
    };
    if !is_constructor(outside) {
        return Err(Stop::Trap(Trap::X2));
    }
    let class = class_of(view, member);
    load_object(objects, frame, next, class)
}
