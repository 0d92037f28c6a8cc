//! The sections of a module's file, kept so that the first that holds a range of RVAs is found by
//! halves.
ghost use Rattle.std.specs.Prelude.{◌≡◌, ◌++◌, ◌∷◌, IfOk, find};
ghost use Rattle.std.specs.List.{list_any};
ghost use Rattle.enc_pe.specs.Sections.{sections_from, sections_of, holds};
ghost use Rattle.enc_pe.specs.Reach.{ReachOf};

use crate::container::Container;
use crate::reach::{Reach, corner_of, joined};
use crate::section::{Section, holds, section_at};
use std::alloc::{AllocError, Global};
use std::marker::Model;

/// How many sections stand in a list at most; more are a tree.
const LIST: usize = 32;

/// The sections of a file in the order of their headers: a short list, or one that stands between those
/// before it and those behind it. Each part knows which ranges of RVAs its sections hold.
#[cycle(sections)]
#[derive(Drop)]
pub struct Sections {
    reach: Reach,
    node: Node,
}

#[cycle(sections)]
#[derive(Drop)]
enum Node {
    List(Vec<Section>),
    Fork(Box<Sections>, Section, Box<Sections>),
}

impl Model for Sections {
    ghost use Rattle.std.specs.Prelude.{List, length};
    ghost use Rattle.enc_pe.specs.declared.section.Section.{Section as ASection};

    ghost Value = { List ASection };

    ghost use Rattle.enc_pe.specs.Reach.{ReachOf};
    ghost use Rattle.enc_pe.specs.SectionTree.{tree_sections};

    ghost view = { λ s. tree_sections s.node };

    ghost invariant = { λ s. ReachOf (tree_sections s.node) s.reach };

    ghost size = { length };

    ghost use Rattle.enc_pe.specs.SectionsFall.{depth_le-length-sections};

    ghost size_decreases = { λ s h. depth_le-length-sections s.node };
}

/// The sections whose headers stand one behind the other from a place.
fn list_of(
    alloc: Global,
    bytes: &[u8],
    first: usize,
    count: usize,
) -> Result<Vec<Section>, AllocError>
    ensures { IfOk result (λ l. l.items ≡ sections_from bytes.now first count) }
{
    let mut list = Vec::new(alloc);
    let mut at = first;
    for i in 0..count {
        let _ = i;
        match section_at(bytes, at) {
            None => return Ok(list),
            Some(section) => {
                list.push(section)?;
                at += 40;
            }
        }
    }
    Ok(list)
}

/// The ranges of RVAs that the sections of a list hold.
fn reach_of(alloc: Global, list: &[Section]) -> Result<Reach, AllocError>
    ensures { IfOk result (ReachOf list.now) }
{
    let mut reach = Reach::begin(alloc);
    for i in 0..list.len() {
        let own = Reach::one(alloc, corner_of(list[i]))?;
        reach = joined(alloc, &reach, &own)?;
    }
    Ok(reach)
}

/// The first section of a list that holds the whole range of RVAs.
fn first_in(list: &[Section], rva: u32, len: u32) -> Option<Section>
    ensures { result ≡ find (holds rva len) list.now }
{
    for i in 0..list.len() {
        let section = list[i];
        if holds(rva, len, section) {
            return Some(section);
        }
    }
    None
}

impl Sections {
    /// The sections of a short list.
    fn listed(alloc: Global, list: &[Section]) -> Result<Sections, AllocError>
        ensures { IfOk result (λ s. s ≡ list.now) }
    {
        let reach = reach_of(alloc, list)?;
        let sections = Vec::from_slice(alloc, list)?;
        Ok(Sections {
            reach,
            node: Node::List(sections),
        })
    }

    /// The ranges of RVAs that two parts and the section between them hold.
    fn reach_with(
        alloc: Global,
        left: &Sections,
        middle: Section,
        right: &Sections,
    ) -> Result<Reach, AllocError>
        ensures { IfOk result (ReachOf (left.now ++ middle ∷ right.now)) }
    {
        let own = Reach::one(alloc, corner_of(middle))?;
        let behind = joined(alloc, &own, right.reach())?;
        let reach = joined(alloc, left.reach(), &behind)?;
        Ok(reach)
    }

    /// The sections of two parts and the one between them.
    fn fork(
        alloc: Global,
        left: Sections,
        middle: Section,
        right: Sections,
    ) -> Result<Sections, AllocError>
        ensures { IfOk result (λ s. s ≡ left ++ middle ∷ right) }
    {
        let reach = Sections::reach_with(alloc, &left, middle, &right)?;
        let left = Box::new(alloc, left)?;
        let right = Box::new(alloc, right)?;
        Ok(Sections {
            reach,
            node: Node::Fork(left, middle, right),
        })
    }

    /// The sections of a list.
    fn over(alloc: Global, list: &[Section]) -> Result<Sections, AllocError>
        ensures { IfOk result (λ s. s ≡ list.now) }
    {
        if list.len() <= LIST {
            return Sections::listed(alloc, list);
        }
        let (front, back) = list.split_at(list.len() / 2);
        let [middle, rest @ ..] = back else {
            unreachable!()
        };
        let left = Sections::over(alloc, front)?;
        let right = Sections::over(alloc, rest)?;
        Sections::fork(alloc, left, *middle, right)
    }

    /// The ranges of RVAs that the sections hold.
    fn reach(&self) -> &Reach
        ensures { ReachOf self.now result.now }
    {
        &self.reach
    }

    /// Whether a section holds the whole range of RVAs.
    fn reaches(&self, rva: u32, len: u32) -> bool
        ensures { result ≡ list_any (holds rva len) self.now }
    {
        let first = u64::from(rva);
        self.reach.covers(first, first + u64::from(len))
    }

    /// The first section that holds the whole range of RVAs.
    pub fn first_with(&self, rva: u32, len: u32) -> Option<Section>
        ensures { result ≡ find (holds rva len) self.now }
    {
        match &self.node {
            Node::List(list) => first_in(list, rva, len),
            Node::Fork(left, middle, right) => {
                if left.reaches(rva, len) {
                    return left.first_with(rva, len);
                }
                if holds(rva, len, *middle) {
                    return Some(*middle);
                }
                right.first_with(rva, len)
            }
        }
    }

    /// The sections of the file that a container was read from. It takes memory for each of them, as
    /// often as they can be halved before a short list is left.
    pub fn read(alloc: Global, bytes: &[u8], container: &Container) -> Result<Sections, AllocError>
        ensures { IfOk result (λ s. s ≡ sections_of bytes.now container.now.sections) }
    {
        let headers = container.sections;
        let list = list_of(alloc, bytes, headers.start, headers.len / 40)?;
        Sections::over(alloc, &list)
    }
}
