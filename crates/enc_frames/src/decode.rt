//! What each instruction is for, by its code and its argument (ECMA-335 III.1.2.1).
ghost use Rattle.std.specs.Prelude.{◌≡◌};
ghost use Rattle.enc_objects.specs.Values.{modulo};
ghost use Rattle.enc_frames.specs.Acts.{loaded_kind, stored_kind, element_act, bare_act, numbered_act, test_at, branch_act, token_act};

use crate::act::{Act, FrameAct, ObjectAct, Test};
use enc_base::Token;
use enc_objects::{Kind, Value};

/// The kind of an element by the instruction that loads it (ECMA-335 III.4.8).
#[inline(always)]
#[tactic(auto, unfolding(crate::specs::Acts::loaded_kind))]
fn loaded_kind(code: u16) -> Option<Kind>
    ensures { result ≡ loaded_kind code }
{
    match code {
        0x90 => Some(Kind::I1),
        0x91 => Some(Kind::U1),
        0x92 => Some(Kind::I2),
        0x93 => Some(Kind::U2),
        0x94 => Some(Kind::I4),
        0x95 => Some(Kind::U4),
        0x96 => Some(Kind::I8),
        0x9A => Some(Kind::Ref),
        _ => None,
    }
}

/// And by the one that stores it (ECMA-335 III.4.26).
#[inline(always)]
#[tactic(auto, unfolding(crate::specs::Acts::stored_kind))]
fn stored_kind(code: u16) -> Option<Kind>
    ensures { result ≡ stored_kind code }
{
    match code {
        0x9C => Some(Kind::I1),
        0x9D => Some(Kind::I2),
        0x9E => Some(Kind::I4),
        0x9F => Some(Kind::I8),
        0xA2 => Some(Kind::Ref),
        _ => None,
    }
}

/// Instructions on the elements of arrays.
#[inline(always)]
fn element_act(code: u16) -> Option<Act>
    ensures { result ≡ element_act code }
{
    if code < 0x9B {
        return match loaded_kind(code) {
            None => None,
            Some(kind) => Some(Act::Object(ObjectAct::LoadElement(kind))),
        };
    }
    match stored_kind(code) {
        None => None,
        Some(kind) => Some(Act::Object(ObjectAct::StoreElement(kind))),
    }
}

/// Those that stand alone.
#[inline(always)]
#[tactic(auto, unfolding(crate::specs::Acts::bare_act))]
pub fn bare_act(code: u16) -> Option<Act>
    ensures { result ≡ bare_act code }
{
    match code {
        0x00 | 0x01 => Some(Act::Frame(FrameAct::Nothing)),
        0x02..=0x05 => Some(Act::Frame(FrameAct::LoadArg(u32::from(code - 0x02)))),
        0x06..=0x09 => Some(Act::Frame(FrameAct::LoadLocal(u32::from(code - 0x06)))),
        0x0A..=0x0D => Some(Act::Frame(FrameAct::StoreLocal(u32::from(code - 0x0A)))),
        0x14 => Some(Act::Frame(FrameAct::Constant(Value::Null))),
        0x15..=0x1E => Some(Act::Frame(FrameAct::Constant(Value::I4(i32::from(code) - 0x16)))),
        0x25 => Some(Act::Frame(FrameAct::Duplicate)),
        0x26 => Some(Act::Frame(FrameAct::Discard)),
        0x2A => Some(Act::Return),
        0x7A => Some(Act::Throw),
        0x8E => Some(Act::Object(ObjectAct::Length)),
        0xDC => Some(Act::EndFinally),
        _ => element_act(code),
    }
}

/// The number as four bytes hold it.
#[inline(always)]
fn low_word(n: i64) -> u32
    ensures { result ≡ modulo 32 n }
{
    n.rem_euclid(1 << 32) as u32
}

/// Those with a number.
#[inline(always)]
#[tactic(auto, unfolding(crate::specs::Acts::numbered_act))]
pub fn numbered_act(code: u16, n: i64) -> Option<Act>
    ensures { result ≡ numbered_act code n }
{
    let low = low_word(n);
    match code {
        0x0E | 0xFE09 => Some(Act::Frame(FrameAct::LoadArg(low))),
        0x10 | 0xFE0B => Some(Act::Frame(FrameAct::StoreArg(low))),
        0x11 | 0xFE0C => Some(Act::Frame(FrameAct::LoadLocal(low))),
        0x13 | 0xFE0E => Some(Act::Frame(FrameAct::StoreLocal(low))),
        0x1F | 0x20 => Some(Act::Frame(FrameAct::Constant(Value::I4(low.cast_signed())))),
        0x21 => Some(Act::Frame(FrameAct::Constant(Value::I8(n)))),
        _ => None,
    }
}

/// A branch by a comparison, short or long.
#[inline(always)]
#[tactic(auto, unfolding(crate::specs::Acts::test_at))]
fn test_at(code: u16) -> Option<Test>
    ensures { result ≡ test_at code }
{
    match code {
        0x2E | 0x3B => Some(Test::Eq),
        0x2F | 0x3C => Some(Test::Ge),
        0x30 | 0x3D => Some(Test::Gt),
        0x31 | 0x3E => Some(Test::Le),
        0x32 | 0x3F => Some(Test::Lt),
        0x33 | 0x40 => Some(Test::NeUn),
        0x34 | 0x41 => Some(Test::GeUn),
        0x35 | 0x42 => Some(Test::GtUn),
        0x36 | 0x43 => Some(Test::LeUn),
        0x37 | 0x44 => Some(Test::LtUn),
        _ => None,
    }
}

/// Those that go to an offset.
#[inline(always)]
#[tactic(auto, unfolding(crate::specs::Acts::branch_act))]
pub fn branch_act(code: u16, goal: u32) -> Option<Act>
    ensures { result ≡ branch_act code goal }
{
    match code {
        0x2B | 0x38 => Some(Act::Frame(FrameAct::Branch(goal))),
        0x2C | 0x39 => Some(Act::Frame(FrameAct::BranchIf(false, goal))),
        0x2D | 0x3A => Some(Act::Frame(FrameAct::BranchIf(true, goal))),
        0xDD | 0xDE => Some(Act::Frame(FrameAct::Leave(goal))),
        _ => match test_at(code) {
            None => None,
            Some(test) => Some(Act::Frame(FrameAct::BranchBy(test, goal))),
        },
    }
}

/// Those that name a member or a type.
#[inline(always)]
#[tactic(auto, unfolding(crate::specs::Acts::token_act))]
pub fn token_act(code: u16, token: Token) -> Option<Act>
    ensures { result ≡ token_act code token }
{
    match code {
        0x28 => Some(Act::Call(token)),
        0x6F => Some(Act::CallVirtual(token)),
        0x73 => Some(Act::NewObject(token)),
        0x74 => Some(Act::Object(ObjectAct::Cast(token))),
        0x75 => Some(Act::Object(ObjectAct::IsInstance(token))),
        0x7B => Some(Act::Object(ObjectAct::LoadField(token))),
        0x7D => Some(Act::Object(ObjectAct::StoreField(token))),
        0x7E => Some(Act::LoadStatic(token)),
        0x80 => Some(Act::StoreStatic(token)),
        0x8D => Some(Act::Object(ObjectAct::NewArray(token))),
        0xA3 => Some(Act::Object(ObjectAct::LoadElementOf(token))),
        0xA4 => Some(Act::Object(ObjectAct::StoreElementOf(token))),
        _ => None,
    }
}
