//! Which method a virtual call reaches, and which clause of a body catches or runs (ECMA-335 I.12.4.2.5, II.12.2).

use crate::lines::{Args, Fault, told};
use enc_base::{ReadFault, Token};
use enc_dispatch::Dispatch;
use enc_image::Image;
use enc_opcodes::CodeRef;
use enc_unwind::{Thrown, WayOut, catch_in, next_handler};
use std::alloc::Global;

/// As many questions as a line has at most.
const MOST: u32 = 1000;

/// A module by its bytes.
fn module(alloc: Global, args: &mut Args<'_>) -> Result<Image, Fault> {
    let bytes = args.bytes(alloc)?;
    match Image::read(alloc, bytes) {
        Ok(image) => Ok(image),
        Err(ReadFault::Memory) => Err(Fault::Memory),
        Err(ReadFault::Refused(_)) => Err(Fault::Form),
    }
}

/// Whether another question follows, behind a semicolon.
fn has_another(args: &mut Args<'_>) -> Result<bool, Fault> {
    if !args.has_more() {
        return Ok(false);
    }
    if args.word()? != ";" {
        return Err(Fault::Form);
    }
    Ok(true)
}

/// The method that a call of a method on an object of a class reaches, `none` where the object hasn't it.
fn target(alloc: Global, dispatch: &Dispatch, args: &mut Args<'_>) -> Result<String, Fault> {
    let (class, method) = (args.token()?, args.token()?);
    match dispatch.target(class, method) {
        Some(method) => told::token(alloc, method),
        None => Ok(String::from_str(alloc, "none")?),
    }
}

/// The answer to a question of targets.
fn targets(alloc: Global, dispatch: &Dispatch, args: &mut Args<'_>) -> Result<String, Fault> {
    match args.word()? {
        "target" => target(alloc, dispatch, args),
        "extends" => {
            let (class, base) = (args.token()?, args.token()?);
            Ok(format!(in alloc; "{}", dispatch.extends(class, base))?)
        }
        "implements" => {
            let (class, interface) = (args.token()?, args.token()?);
            Ok(format!(in alloc; "{}", dispatch.implements(class, interface))?)
        }
        _ => Err(Fault::Form),
    }
}

/// The index of a module's virtual methods.
#[tactic(auto, unfolding(enc_image::specs::Base::chain_of_base))]
fn index(alloc: Global, image: &Image) -> Result<Dispatch, Fault> {
    image.sound();
    Ok(Dispatch::begin(alloc, image)?)
}

/// The answers to `dispatch MODULE QUESTION ; QUESTION ..`.
fn dispatch(alloc: Global, args: &mut Args<'_>) -> Result<String, Fault> {
    let image = module(alloc, args)?;
    let dispatch = index(alloc, &image)?;
    let mut text = String::new(alloc);
    for _ in 0..MOST {
        text.push_str(targets(alloc, &dispatch, args)?.as_str())?;
        if !has_another(args)? {
            return Ok(text);
        }
        text.push_str(" ; ")?;
    }
    Err(Fault::Form)
}

/// The number of a clause, from 0, or `none`.
fn clause(alloc: Global, clause: Option<u32>) -> Result<String, Fault> {
    match clause {
        Some(number) => Ok(format!(in alloc; "{number}")?),
        None => Ok(String::from_str(alloc, "none")?),
    }
}

/// What is thrown: an object of a class, by its token, a `text` or an `array`.
fn thrown(args: &mut Args<'_>) -> Result<Thrown, Fault> {
    let word = args.word()?;
    match word {
        "text" => Ok(Thrown::Text),
        "array" => Ok(Thrown::Array),
        _ => match u32::from_str_radix(word, 16) {
            Ok(class) => Ok(Thrown::Class(Token::of(class))),
            Err(_) => Err(Fault::Form),
        },
    }
}

/// The clause that catches, for `MAX OFFSET THROWN`.
fn caught(
    alloc: Global,
    image: &Image,
    sections: &[u8],
    args: &mut Args<'_>,
) -> Result<String, Fault> {
    let (max, offset, thrown) = (args.number()?, args.number()?, thrown(args)?);
    if max > 0xFFFF || sections.len() > 0xFFFF {
        return Err(Fault::Form);
    }
    let code = CodeRef {
        max: max as u16,
        init: false,
        locals: Token { table: 0, row: 0 },
        code: &[],
        sections,
    };
    clause(alloc, catch_in(image, &code, offset, thrown))
}

/// The answers to `catch MODULE SECTIONS MAX OFFSET THROWN ; MAX OFFSET THROWN ..`.
fn catch(alloc: Global, args: &mut Args<'_>) -> Result<String, Fault> {
    let image = module(alloc, args)?;
    let sections = args.bytes(alloc)?;
    let mut text = String::new(alloc);
    for _ in 0..MOST {
        text.push_str(caught(alloc, &image, &sections, args)?.as_str())?;
        if !has_another(args)? {
            return Ok(text);
        }
        text.push_str(" ; ")?;
    }
    Err(Fault::Form)
}

/// The number of a clause, None for `-`.
fn past(args: &mut Args<'_>) -> Result<Option<u32>, Fault> {
    let word = args.word()?;
    if word == "-" {
        return Ok(None);
    }
    match word.parse::<u32>() {
        Ok(number) => Ok(Some(number)),
        Err(_) => Err(Fault::Form),
    }
}

/// How far clauses run: at a `leave OFFSET`, `all`, or those `before CLAUSE`.
fn stop(args: &mut Args<'_>) -> Result<WayOut, Fault> {
    match args.word()? {
        "leave" => Ok(WayOut::Leave(args.number()?)),
        "all" => Ok(WayOut::All),
        "before" => Ok(WayOut::Before(args.number()?)),
        _ => Err(Fault::Form),
    }
}

/// The answer to `next_handler SECTIONS PAST OFFSET STOP`.
fn next(alloc: Global, args: &mut Args<'_>) -> Result<String, Fault> {
    let sections = args.bytes(alloc)?;
    let (past, offset, stop) = (past(args)?, args.number()?, stop(args)?);
    if sections.len() > 0xFFFF {
        return Err(Fault::Form);
    }
    let code = CodeRef {
        max: 8,
        init: false,
        locals: Token { table: 0, row: 0 },
        code: &[],
        sections: &sections,
    };
    clause(alloc, next_handler(&code, past, offset, stop))
}

/// The answer to a call of this file, None where the call is another. A MODULE is the bytes of metadata, SECTIONS
/// those behind a body's code (II.25.4.5); clauses count from 0.
///
/// - `dispatch MODULE QUESTION ; QUESTION ..`, of which each is `target CLASS METHOD`: the method that a call reaches,
///   `extends CLASS BASE` or `implements CLASS INTERFACE`
/// - `catch MODULE SECTIONS MAX OFFSET THROWN ; ..`: the clause that catches at an offset of a body with so many
///   values on its stack; THROWN is a class, `text` or `array`
/// - `next_handler SECTIONS PAST OFFSET STOP`: the clause that runs next on the way out, behind the one PAST, `-` for
///   the first; STOP is `leave OFFSET`, `all` or `before CLAUSE`
pub fn answer(alloc: Global, call: &str, args: &mut Args<'_>) -> Result<Option<String>, Fault> {
    Ok(Some(match call {
        "dispatch" => dispatch(alloc, args)?,
        "catch" => catch(alloc, args)?,
        "next_handler" => next(alloc, args)?,
        _ => return Ok(None),
    }))
}
