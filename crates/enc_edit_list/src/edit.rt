//! Edits of a module by their values.
use crate::body::BodyValue;
use crate::list::ListOf;
use enc_base::{Bytes, Token};
use enc_seqpoints::Point;

/// What stands in a column of an added row.
#[derive(Drop)]
pub enum Cell {
    Num(u32),
    /// Bytes without a zero.
    Text(Bytes),
    Blob(Bytes),
    Guid([u8; 16]),
    Refer(Token),
}

/// The cells of an added row, in the order of its table's columns, without runs and RVA.
pub type Cells = ListOf<Cell>;

/// The sequence points of a method.
pub type PointList = ListOf<Point>;

/// An edit.
#[derive(Drop)]
pub enum Edit {
    /// Adds a row at the end of a table. The owner is nil but for Field, MethodDef, Param, Property
    /// and Event; only a MethodDef has a body, and only one with a body has points.
    Add {
        table: u8,
        owner: Token,
        cells: Cells,
        code: Option<BodyValue>,
        points: PointList,
    },
    /// Replaces the body of a method, and its points.
    Body {
        method: Token,
        code: BodyValue,
        points: PointList,
    },
}

/// Edits, in order.
pub type Edits = ListOf<Edit>;

/// A document that points name (Portable PDB v1.0, Document table).
#[derive(Drop)]
pub struct DocumentValue {
    pub name: Bytes,
    pub language: [u8; 16],
    /// Its text, of which the hash is taken.
    pub source: Bytes,
}

/// Documents, which points count from 1.
pub type Documents = ListOf<DocumentValue>;

/// What a delta is written from: its EncId and its edits, with the documents of their points.
#[derive(Drop)]
pub struct EditList {
    pub enc_id: [u8; 16],
    pub edits: Edits,
    pub documents: Documents,
}
