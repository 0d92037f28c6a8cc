//! In which form a metadata root is written.
ghost use Rattle.std.specs.Prelude.{◌≡◌};
ghost use Rattle.enc_emit.specs.Written.{has_jtd as form_has_jtd, is_delta as form_is_delta};

/// The form of a metadata root.
#[derive(Clone, Copy, Debug, PartialEq, Eq)]
pub enum RootForm {
    /// A module's, whose indices are as narrow as the counts of rows allow.
    Module,
    /// A module's with a stream `#JTD`, whose indices all take four bytes.
    WideModule,
    /// That of a delta, with `#JTD` and the uncompressed table stream `#-`.
    Delta,
}

/// Whether all indices take four bytes, as a stream `#JTD` says.
pub(crate) fn has_jtd(form: RootForm) -> bool
    ensures { result ≡ form_has_jtd form }
{
    match form {
        RootForm::Module => false,
        RootForm::WideModule => true,
        RootForm::Delta => true,
    }
}

/// Whether it is the root of a delta.
pub(crate) fn is_delta(form: RootForm) -> bool
    ensures { result ≡ form_is_delta form }
{
    match form {
        RootForm::Module => false,
        RootForm::WideModule => false,
        RootForm::Delta => true,
    }
}
