//! The operations of EncLog, in the words of System.Reflection.Metadata (`EditAndContinueOperation`).

/// The row is inserted or updated.
pub const DEFAULT: u32 = 0;
/// The type gets a method: the row of the next entry.
pub const ADD_METHOD: u32 = 1;
/// The type gets a field.
pub const ADD_FIELD: u32 = 2;
/// The method gets a parameter.
pub const ADD_PARAMETER: u32 = 3;
/// The type, by its row of PropertyMap, gets a property.
pub const ADD_PROPERTY: u32 = 4;
/// The type, by its row of EventMap, gets an event.
pub const ADD_EVENT: u32 = 5;
