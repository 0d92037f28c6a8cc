//! The owners and the children in an aggregate.
ghost use Rattle.std.specs.Prelude.{◌≡◌, ◌<◌, [], Some, IsTrue, IfOk, length, slice_get};
ghost use Rattle.enc_schema.specs.Children.{is_child_table, owner_table};
ghost use Rattle.enc_plain.specs.Module.{has_row, owner_of, kids_of};
ghost use Rattle.enc_plain.specs.Sound.{HasOwners};
ghost use Rattle.enc_agg.specs.Extend.{chain_with};
ghost use Rattle.enc_agg.specs.Seen.{module_of_all};

use crate::aggregate::Aggregate;
use enc_base::Token;
use enc_image::Image;
use enc_plain::ModuleView;
use std::alloc::{AllocError, Global};

/// How many children in a child table a row has in the base; a new row has none.
fn kids_of_image(image: &Image, owner: Token, table: u8) -> u32
    requires row { 0 < owner.row }
    requires table { IsTrue (is_child_table table) }
    requires owners { owner.table ≡ owner_table table }
    ensures { result ≡ length (kids_of (chain_with image.now []).plain owner table) }
{
    if owner.row <= image.count(owner.table) {
        image.kids(owner, table)
    } else {
        0
    }
}

/// The rows of a row's children in a child table in the base; a new row has none.
fn kid_rows_of_image(
    alloc: Global,
    image: &Image,
    owner: Token,
    table: u8,
) -> Result<Vec<u32>, AllocError>
    requires row { 0 < owner.row }
    requires table { IsTrue (is_child_table table) }
    requires owners { owner.table ≡ owner_table table }
    ensures { IfOk result (λ rows. rows.items ≡ kids_of (chain_with image.now []).plain owner table) }
{
    if owner.row > image.count(owner.table) {
        return Ok(Vec::new(alloc));
    }
    image.kid_rows(alloc, owner, table)
}

impl Aggregate {
    /// Each child row has its owner: a law, of which a caller makes use.
    pub(crate) fn has_owners(&self)
        ensures { HasOwners (module_of_all self.now) }
    {
        let _ = &self.image;
    }

    /// The owner of a row of a child table.
    pub(crate) fn owner_row(&self, child: Token) -> Token
        requires row { IsTrue (has_row (module_of_all self.now) child) }
        requires table { IsTrue (is_child_table child.table) }
        ensures { owner_of (module_of_all self.now) child ≡ Some result }
    {
        if child.row <= self.image.count(child.table) {
            return self.image.owner(child);
        }
        match self.directory.owner(child) {
            Some(owner) => owner,
            None => unreachable!(),
        }
    }

    /// How many children in a child table a row has; a row that isn't there has none.
    pub(crate) fn count_kids(&self, owner: Token, table: u8) -> u32
        requires row { 0 < owner.row }
        requires table { IsTrue (is_child_table table) }
        requires owners { owner.table ≡ owner_table table }
        ensures { result ≡ length (kids_of (module_of_all self.now) owner table) }
    {
        match self.directory.count(owner, table) {
            Some(count) => count,
            None => kids_of_image(&self.image, owner, table),
        }
    }

    /// A row's child in a child table, by its place.
    pub(crate) fn kid_row(&self, owner: Token, table: u8, i: u32) -> u32
        requires row { 0 < owner.row }
        requires table { IsTrue (is_child_table table) }
        requires owners { owner.table ≡ owner_table table }
        requires there { i < length (kids_of (module_of_all self.now) owner table) }
        ensures { slice_get (kids_of (module_of_all self.now) owner table) i ≡ Some result }
    {
        if i < kids_of_image(&self.image, owner, table) {
            return self.image.kid(owner, table, i).row;
        }
        match self.directory.kid(owner, table, i) {
            Some(row) => row,
            None => unreachable!(),
        }
    }

    /// The rows of a row's children in a child table, in order of attachment; a row that isn't there
    /// has none.
    pub(crate) fn rows_of_kids(
        &self,
        alloc: Global,
        owner: Token,
        table: u8,
    ) -> Result<Vec<u32>, AllocError>
        requires row { 0 < owner.row }
        requires table { IsTrue (is_child_table table) }
        requires owners { owner.table ≡ owner_table table }
        ensures { IfOk result (λ rows. rows.items ≡ kids_of (module_of_all self.now) owner table) }
    {
        let mut rows = kid_rows_of_image(alloc, &self.image, owner, table)?;
        self.directory.push_kids(&mut rows, owner, table)?;
        Ok(rows)
    }
}
