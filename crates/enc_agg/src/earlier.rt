//! An aggregate as it was after its first deltas, as a view of the module that they mean.
ghost use Rattle.std.specs.Prelude.{◌≡◌, ℕ, ◌<◌, ◌≤◌, ◌^◌, Some, None, IfOk, IfSome, IsTrue, length, option_map, reverse, slice_get, refl};
ghost use Rattle.enc_opcodes.specs.Body.{body_of, code_seen, texts_are_there};
ghost use Rattle.enc_schema.specs.Children.{is_child_table, owner_table};
ghost use Rattle.enc_base.specs.Tables.{method_def};
ghost use Rattle.enc_plain.specs.Cell.{body};
ghost use Rattle.enc_plain.specs.Module.{cell_of, has_row, kids_of};
ghost use Rattle.enc_plain.specs.Sound.{IsSound};
ghost use Rattle.enc_generation_map.specs.Places.{KeepsPlaces};
ghost use Rattle.enc_agg.specs.Earlier.{earlier_of};
ghost use Rattle.enc_agg.specs.Place.{place_of};
ghost use Rattle.enc_agg.specs.Places.{every_place};
ghost use Rattle.enc_agg.specs.Seen.{sources, found_in, found_seen, module_of_all, chain_of_all, users_of_all, body_of_all, blob_of_all};
ghost use Rattle.enc_agg.specs.Stored.{code_stored};

use crate::added::{Added, Found, body_in, count_in, id_in, lengths_in, number};
use crate::aggregate::Aggregate;
use crate::code::place_of_all;
use crate::directory::front;
use crate::heaps::{entry_in, guid_in, has_text_in};
use crate::view::{row_found, token_meant};
use enc_base::Token;
use enc_generation_map::Places;
use enc_image::Image;
use enc_meta::{Heap, HeapLengths};
use enc_opcodes::CodeRef;
use enc_plain::{ChainView, ModuleView, RowPlace};
use enc_schema::columns::METHOD_DEF_RVA;
use std::alloc::{AllocError, Global};
use std::marker::Model;

/// An aggregate as it was after its first deltas: the module and the chain that they mean, whatever
/// deltas were added since. It copies nothing.
#[derive(Drop)]
pub struct Earlier<'a> {
    whole: &'a Aggregate,
    image: &'a Image,
    added: &'a [Added],
    places: &'a Places,
}

impl<'a> Model for Earlier<'a> {
    ghost use Rattle.std.specs.Prelude.{reverse};
    ghost use Rattle.enc_agg.specs.Earlier.{IsEarlier};
    ghost use Rattle.enc_agg.specs.Seen.{History, sources};

    ghost Value = { History };

    ghost view = { λ e. record { base = e.image.now; deltas = sources (reverse e.added.now); room = 0 } };

    ghost invariant = { λ e. IsEarlier e.image.now (reverse e.added.now) e.places.now e.whole.now };
}

/// The deltas up to the newest that lists a token, and the token's position there.
fn find<'a>(added: &'a [Added], places: &Places, token: Token) -> Option<Found<'a>>
    requires { KeepsPlaces (every_place (sources (reverse added.now)))
        (length (sources (reverse added.now))) places.now }
    ensures { option_map found_seen result ≡ found_in (reverse added.now) token }
{
    match places.last_upto(token, added.len()) {
        None => None,
        Some(place) => Some(Found {
            upto: front(added, place.generation),
            row: place.row,
        }),
    }
}

impl Aggregate {
    /// The aggregate as it was after its first deltas.
    pub fn at(&self, generation: u32) -> Earlier<'_>
        requires { generation ≤ length self.now.deltas }
        ensures { result ≡ earlier_of generation self.now }
    {
        Earlier {
            whole: self,
            image: &self.image,
            added: front(&self.added, generation),
            places: &self.places,
        }
    }
}

impl Earlier<'_> {
    /// The module is sound: a law, of which a caller makes use.
    pub fn sound(&self)
        ensures { IsSound (module_of_all self.now) }
    {
        let _ = &self.image;
    }

    /// Where a token stands: in the newest of these generations whose map has it, and else in the base,
    /// at its own row.
    pub fn place(&self, token: Token) -> RowPlace
        ensures { result ≡ place_of self.now.deltas token }
    {
        match find(self.added, self.places, token) {
            Some(found) => RowPlace {
                generation: found.upto.len() as u32,
                row: found.row,
            },
            None => RowPlace {
                generation: 0,
                row: token.row,
            },
        }
    }

    /// The parts of a method's body as they stood in the newest file that had it, None where the method
    /// had none. They mean its body by the user texts of these generations, each of which is there.
    pub fn code_of(&self, method: Token) -> Option<CodeRef<'_>>
        requires row { IsTrue (has_row (module_of_all self.now) method) }
        requires table { method.table ≡ method_def }
        ensures stored { option_map code_seen result ≡ code_stored self.now.base self.now.deltas method }
        ensures body { cell_of (module_of_all self.now) method 0
            ≡ Some (body (option_map (λ c. body_of (users_of_all self.now) (code_seen c)) result)) }
        ensures texts { IfSome result (λ c. IsTrue (texts_are_there (users_of_all self.now) c.code.now)) }
        ensures few { IfSome result (λ c. length c.code.now < 2 ^ 32) }
        ensures short { IfSome result (λ c. length c.sections.now < 2 ^ 32) }
    {
        let Some(found) = find(self.added, self.places, method) else {
            return self.image.body(method);
        };
        let place = number(
            found.upto,
            row_found(method.table, found.row),
            METHOD_DEF_RVA,
        );
        body_in(found.upto, place)
    }

    /// How many of a row's children in a child table were there: searched for by halves, since those
    /// that came later are rows past all that there were.
    fn count_kids(&self, owner: Token, table: u8) -> u32
        requires row { 0 < owner.row }
        requires table { IsTrue (is_child_table table) }
        requires owners { owner.table ≡ owner_table table }
        ensures { result ≡ length (kids_of (module_of_all self.now) owner table) }
    {
        let last = count_in(self.image, self.added, table);
        let all = self.whole.count_kids(owner, table);
        let mut low = 0;
        let mut high = all;
        while low < high {
            let middle = low + (high - low) / 2;
            if self.whole.kid_row(owner, table, middle) <= last {
                low = middle + 1;
            } else {
                high = middle;
            }
        }
        low
    }
}

impl ModuleView for Earlier<'_> {
    ghost meaning = { module_of_all };

    ghost users = { users_of_all };

    ghost places = { body_of_all };

    ghost stored = { blob_of_all };

    fn count(&self, table: u8) -> u32 {
        count_in(self.image, self.added, table)
    }

    fn num(&self, row: Token, column: u8) -> u32 {
        match find(self.added, self.places, row) {
            None => self.image.num(row, column),
            Some(found) => number(found.upto, row_found(row.table, found.row), column),
        }
    }

    fn text(&self, row: Token, column: u8) -> &[u8] {
        let Some(found) = find(self.added, self.places, row) else {
            return self.image.text(row, column);
        };
        let offset = number(found.upto, row_found(row.table, found.row), column);
        match entry_in(self.image, found.upto, Heap::Strings, offset) {
            Some(text) => text,
            None => unreachable!(),
        }
    }

    fn blob(&self, row: Token, column: u8) -> &[u8] {
        let Some(found) = find(self.added, self.places, row) else {
            return self.image.blob(row, column);
        };
        let offset = number(found.upto, row_found(row.table, found.row), column);
        match entry_in(self.image, found.upto, Heap::Blobs, offset) {
            Some(blob) => blob,
            None => unreachable!(),
        }
    }

    fn blob_place(&self, row: Token, column: u8) -> u64 {
        let Some(found) = find(self.added, self.places, row) else {
            return self.image.blob_place(row, column);
        };
        u64::from(number(found.upto, row_found(row.table, found.row), column))
    }

    fn guid(&self, row: Token, column: u8) -> [u8; 16] {
        let Some(found) = find(self.added, self.places, row) else {
            return self.image.guid(row, column);
        };
        let entry = number(found.upto, row_found(row.table, found.row), column);
        match guid_in(self.image, found.upto, entry) {
            Some(guid) => guid,
            None => unreachable!(),
        }
    }

    fn refer(&self, row: Token, column: u8) -> Token {
        let Some(found) = find(self.added, self.places, row) else {
            return self.image.refer(row, column);
        };
        let number = number(found.upto, row_found(row.table, found.row), column);
        token_meant(row.table, column, number)
    }

    fn code(&self, method: Token) -> Option<CodeRef<'_>> {
        self.code_of(method)
    }

    fn code_place(&self, method: Token) -> u64 {
        let Some(found) = find(self.added, self.places, method) else {
            return place_of_all(0, self.image.rva(method));
        };
        let place = number(
            found.upto,
            row_found(method.table, found.row),
            METHOD_DEF_RVA,
        );
        place_of_all(found.upto.len() as u32, place)
    }

    fn field_bytes(&self, row: Token) -> &[u8] {
        match find(self.added, self.places, row) {
            None => self.image.field_bytes(row),
            Some(_) => &[],
        }
    }

    fn user_text(&self, offset: u32) -> Option<&[u8]> {
        entry_in(self.image, self.added, Heap::Users, offset)
    }

    fn resources(&self) -> &[u8] {
        let _ = &self.added;
        self.image.resources()
    }

    fn entry(&self) -> u32 {
        let _ = &self.added;
        self.image.entry()
    }

    fn owner(&self, child: Token) -> Token {
        let _ = &self.added;
        self.whole.owner_row(child)
    }

    fn kids(&self, owner: Token, table: u8) -> u32 {
        self.count_kids(owner, table)
    }

    fn kid(&self, owner: Token, table: u8, i: u32) -> Token {
        let _ = &self.added;
        row_found(table, self.whole.kid_row(owner, table, i))
    }

    fn kid_rows(&self, alloc: Global, owner: Token, table: u8) -> Result<Vec<u32>, AllocError> {
        let mut rows = Vec::new(alloc);
        for i in 0..self.count_kids(owner, table) {
            rows.push(self.whole.kid_row(owner, table, i))?;
        }
        Ok(rows)
    }
}

impl ChainView for Earlier<'_> {
    ghost chain = { chain_of_all };

    fn generations(&self) -> u32 {
        self.added.len() as u32 + 1
    }

    fn enc_id(&self, generation: u32) -> [u8; 16] {
        if generation == 0 {
            return [0; 16];
        }
        id_in(self.added, generation - 1)
    }

    fn lengths(&self) -> HeapLengths {
        lengths_in(self.image, self.added)
    }

    fn entry_at(&self, heap: Heap, offset: u32) -> Option<&[u8]> {
        entry_in(self.image, self.added, heap, offset)
    }

    fn has_text(&self, offset: u32) -> bool {
        has_text_in(self.image, self.added, offset)
    }

    fn guid_at(&self, k: u32) -> Option<[u8; 16]> {
        guid_in(self.image, self.added, k)
    }

    ghost means = { λ h. refl };

    ghost tells = { λ h offset. refl };

    ghost joins = { λ h offset. refl };
}
