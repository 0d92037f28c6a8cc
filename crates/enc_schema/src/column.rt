/// The kinds of coded indices (ECMA-335 II.24.2.6): a row of one of several tables, told by a tag in
/// the low bits.
#[derive(Clone, Copy, Debug, PartialEq, Eq)]
pub enum Coding {
    TypeDefOrRef,
    HasConstant,
    HasCustomAttribute,
    HasFieldMarshal,
    HasDeclSecurity,
    MemberRefParent,
    HasSemantics,
    MethodDefOrRef,
    MemberForwarded,
    Implementation,
    CustomAttributeType,
    ResolutionScope,
    TypeOrMethodDef,
    /// Used in PDBs alone (Portable PDB v1.0).
    HasCustomDebugInformation,
}

/// What a column of a metadata table holds.
#[derive(Clone, Copy, Debug, PartialEq, Eq)]
pub enum Column {
    /// A number of one byte, with a byte 0 behind it.
    Num8,
    Num16,
    Num32,
    /// An offset in `#Strings`.
    Text,
    /// An entry of `#GUID`, from 1.
    Guid,
    /// An offset in `#Blob`.
    Blob,
    /// A row of this table.
    Index(u8),
    /// A row of one of several tables.
    Coded(Coding),
    /// The first row of a run of rows of this table. The run ends before that of the next row.
    Run(u8),
}
