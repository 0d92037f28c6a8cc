//! What the parts of the index stand by.
ghost use Rattle.std.specs.Prelude.{◌≡◌};
ghost use Rattle.enc_dispatch.specs.Stored.{own_key, impl_key, interface_key};

use enc_base::Token;
use enc_base::tables::{METHOD_DEF, METHOD_IMPL};
use enc_key_map::Key;

/// What a class's virtual method stands by: the class's row and the slot.
pub(crate) fn own_key(class: u32, slot: u32) -> Key
    ensures { result ≡ own_key class slot }
{
    Key {
        table: METHOD_DEF,
        row: class,
        place: slot,
    }
}

/// What a row of MethodImpl stands by: the rows of its class and of its declaration, a MethodDef.
pub(crate) fn impl_key(class: u32, declaration: u32) -> Key
    ensures { result ≡ impl_key class declaration }
{
    Key {
        table: METHOD_IMPL,
        row: class,
        place: declaration,
    }
}

/// What an interface of a class stands by: the class's row and the interface.
pub(crate) fn interface_key(class: u32, interface: Token) -> Key
    ensures { result ≡ interface_key class interface }
{
    Key {
        table: interface.table,
        row: class,
        place: interface.row,
    }
}
