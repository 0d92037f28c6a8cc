//! The distinct values of a module before they are copied.
ghost use Rattle.std.specs.Prelude.{◌≡◌, [], ◌∷◌, ◌==◌, ◌%◌, not, length, IsTrue, IfOk, OnOk, OnErr};
ghost use Rattle.std.specs.List.{list_any};
ghost use Rattle.enc_meta.specs.Built.{AreWithinLimits, joined_size};
ghost use Rattle.enc_rewriter.specs.Values.{with_all, no_starts, no_heaps, IsPast};
ghost use Rattle.enc_rewriter.specs.declared.pass.Pass.TheVariants.{Texts, Users, Blobs, Guids};

use crate::distinct::Distinct;
use crate::pass::Pass;
use enc_meta::{BuildFault, HeapBuilder, HeapLengths};
use std::alloc::{AllocError, Global};
use std::marker::Model;

/// Heaps that stand behind no others.
const NO_STARTS: HeapLengths = HeapLengths {
    strings: 0,
    users: 0,
    blobs: 0,
    guids: 0,
};

/// The distinct values of a module, in the order of their first use. All but GUIDs are borrowed, so that they
/// take no memory for their bytes until all limits are known to hold.
pub(crate) struct ModuleValues<'a> {
    texts: Distinct<'a>,
    users: Distinct<'a>,
    blobs: Distinct<'a>,
    // has the GUIDs alone
    heaps: HeapBuilder,
}

// By hand: a caller's proof then takes its end as one call.
impl<'a> Drop for ModuleValues<'a> {
    fn drop(self) {
        let ModuleValues {
            texts: _texts,
            users: _users,
            blobs: _blobs,
            heaps: _heaps,
        } = self;
    }
}

impl<'a> Model for ModuleValues<'a> {
    ghost use Rattle.enc_meta.specs.Built.{Built};
    ghost use Rattle.enc_rewriter.specs.Distinct.{AreApart, together};

    ghost Value = { Built };

    ghost view = { λ g. together g.texts g.users g.blobs g.heaps };

    ghost invariant = { λ g. AreApart g.texts g.users g.blobs g.heaps };
}

impl<'a> ModuleValues<'a> {
    /// No value.
    #[tactic(auto, unfolding(crate::specs::Values::no_heaps))]
    pub(crate) fn begin(alloc: Global) -> Result<ModuleValues<'a>, AllocError>
        ensures { IfOk result (λ g. g ≡ no_heaps) }
    {
        Ok(ModuleValues {
            texts: Distinct::begin(alloc, Pass::Texts),
            users: Distinct::begin(alloc, Pass::Users),
            blobs: Distinct::begin(alloc, Pass::Blobs),
            heaps: HeapBuilder::begin(alloc, NO_STARTS)?,
        })
    }

    /// Adds a text.
    pub(crate) fn add_text(&mut self, text: &'a [u8]) -> Result<(), BuildFault>
        requires { IsTrue (not (list_any (λ c. c == 0) text.now)) }
        ensures filled { OnOk result (self.new ≡ with_all Texts self.old (text.now ∷ [])) }
        ensures past { IsPast result Texts (with_all Texts self.old (text.now ∷ [])) }
    {
        self.texts.add(text)
    }

    /// Adds a user text, by the bytes of its UTF-16 units.
    pub(crate) fn add_units(&mut self, units: &'a [u8]) -> Result<(), BuildFault>
        requires { length units.now % 2 ≡ 0 }
        ensures filled { OnOk result (self.new ≡ with_all Users self.old (units.now ∷ [])) }
        ensures past { IsPast result Users (with_all Users self.old (units.now ∷ [])) }
    {
        self.users.add(units)
    }

    /// Adds a blob.
    pub(crate) fn add_blob(&mut self, blob: &'a [u8]) -> Result<(), BuildFault>
        ensures filled { OnOk result (self.new ≡ with_all Blobs self.old (blob.now ∷ [])) }
        ensures past { IsPast result Blobs (with_all Blobs self.old (blob.now ∷ [])) }
    {
        self.blobs.add(blob)
    }

    /// Adds a GUID.
    pub(crate) fn add_guid(&mut self, guid: [u8; 16]) -> Result<(), BuildFault>
        ensures filled { OnOk result (self.new ≡ with_all Guids self.old (guid ∷ [])) }
        ensures past { IsPast result Guids (with_all Guids self.old (guid ∷ [])) }
    {
        copy_guid(guid, &mut self.heaps)
    }

    /// How long the four heaps are together, in bytes.
    pub(crate) fn size(&self) -> u64
        ensures { result ≡ joined_size self.now }
    {
        self.heaps.laws();
        self.heaps.size() + self.texts.bytes() + self.users.bytes() + self.blobs.bytes()
    }

    /// What holds of the values.
    pub(crate) fn laws(&self)
        ensures starts { self.now.starts ≡ no_starts }
        ensures within { AreWithinLimits self.now }
    {
        self.texts.laws();
        self.users.laws();
        self.blobs.laws();
        self.heaps.laws();
    }

    /// Heaps with copies of the values.
    pub(crate) fn copy(self) -> Result<HeapBuilder, AllocError>
        ensures { IfOk result (λ h. h ≡ self.entry) }
    {
        let ModuleValues {
            texts,
            users,
            blobs,
            mut heaps,
        } = self;
        texts.copy(&mut heaps)?;
        users.copy(&mut heaps)?;
        blobs.copy(&mut heaps)?;
        Ok(heaps)
    }
}

/// Adds a GUID to heaps.
#[tactic(auto, using(crate::proofs::Fills::guid_past), unfolding(crate::specs::Values::with_all))]
fn copy_guid(guid: [u8; 16], heaps: &mut HeapBuilder) -> Result<(), BuildFault>
    ensures filled { OnOk result (heaps.new ≡ with_all Guids heaps.old (guid ∷ [])) }
    ensures past { IsPast result Guids (with_all Guids heaps.old (guid ∷ [])) }
    ensures err { OnErr result (heaps.new ≡ heaps.old) }
{
    match heaps.add_guid(guid) {
        Ok(_) => Ok(()),
        Err(fault) => Err(fault),
    }
}
