/// Of which file a table stream is.
#[derive(Clone, Copy, Debug, PartialEq, Eq)]
pub enum Form {
    /// A module: one row of Module, none of EncLog and EncMap, no table past GenericParamConstraint.
    Base,
    /// The metadata of a delta: as a module, and EncLog and EncMap may have rows.
    Delta,
    /// A Portable PDB: its own tables, EncLog and EncMap.
    Pdb,
}
