//! How far an index has read its module.

/// How many rows an index has read of the tables whose rows it keeps something of.
#[derive(Clone, Copy, Debug, PartialEq, Eq)]
pub struct RowsRead {
    /// Of TypeDef.
    pub classes: u32,
    /// Of MethodDef.
    pub methods: u32,
    /// Of MethodImpl.
    pub impls: u32,
    /// Of InterfaceImpl.
    pub interfaces: u32,
    /// Of StandAloneSig.
    pub locals: u32,
}
