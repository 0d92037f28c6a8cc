//! Columns of InterfaceImpl and MethodImpl (ECMA-335 II.22.23, II.22.27).

/// The class that has an interface.
pub(crate) const INTERFACE_IMPL_CLASS: u8 = 0;

/// The interface that it has.
pub(crate) const INTERFACE_IMPL_INTERFACE: u8 = 1;

/// The class of a row of MethodImpl.
pub(crate) const METHOD_IMPL_CLASS: u8 = 0;

/// The method that the row gives.
pub(crate) const METHOD_IMPL_BODY: u8 = 1;

/// The method that this one stands for.
pub(crate) const METHOD_IMPL_DECLARATION: u8 = 2;
