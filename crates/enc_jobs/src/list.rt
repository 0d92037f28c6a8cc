//! Edit lists.
ghost use Rattle.std.specs.Prelude.{◌≡◌, List, [], map, option_and_then, ok_or, codes, true, IfOk};
ghost use Rattle.std.specs.Borrow.{Bor};
ghost use Rattle.std.specs.List.{list_all};
ghost use Rattle.std.specs.Result.{result_map_both};
ghost use Rattle.serde_json.specs.Find.{get};
ghost use Rattle.serde_json.specs.View.{view};
ghost use Rattle.serde_json.specs.declared.value.Value.{Value as TheValue};
ghost use Rattle.enc_jobs.specs.declared.fault.JobFault.TheVariants.{J1};
ghost use Rattle.enc_edit_list.specs.Form.{list_fits};
ghost use Rattle.enc_pdb_writer.specs.Stated.{points_lie_within};
ghost use Rattle.enc_jobs.specs.Outcome.{ReadsAs, GivesList, fault_of_element};
ghost use Rattle.enc_jobs.specs.Json.{at_key_or, elements_of};
ghost use Rattle.enc_jobs.specs.Lists.{every, read_in_turn};
ghost use Rattle.enc_jobs.specs.Edits.{document_said, documents_said, head_said, edit_said, with_head, list_said, json_value, edits_said};

use crate::edit::one_edit;
use crate::fault::{JobFault, Refused};
use crate::laws::{form_law, points_law};
use crate::value::{at_key, bytes_of, elements, guid, has_only, text};
use enc_edit_list::{DocumentValue, Documents, EditList, Edits};
use serde_json::Value;
use std::alloc::Global;

/// What a list says but for its edits.
#[derive(Drop)]
pub struct Head {
    pub enc_id: [u8; 16],
    pub documents: Documents,
}

/// A document.
#[tactic(auto, unfolding(crate::specs::Edits::document_said))]
fn document(alloc: Global, value: &Value) -> Result<DocumentValue, Refused>
    ensures { ReadsAs result (document_said (view value.now)) }
{
    if !has_only(value, &["name", "language", "source"]) {
        return Err(Refused::Form);
    }
    let name = bytes_of(alloc, text(at_key(value, "name")?)?)?;
    let language = guid(at_key(value, "language")?)?;
    let source = bytes_of(alloc, text(at_key(value, "source")?)?)?;
    Ok(DocumentValue {
        name,
        language,
        source,
    })
}

/// Documents.
#[tactic(auto, using(crate::proofs::Loops::every_steps))]
fn documents_of(alloc: Global, items: &[Value]) -> Result<Documents, Refused>
    ensures { ReadsAs result (every document_said (map view items.now)) }
{
    let mut list = Documents::begin(alloc);
    for value in items {
        list.push(document(alloc, value)?)?;
    }
    Ok(list)
}

/// The documents of a list: none, where nothing is said.
#[tactic(auto, unfolding(crate::specs::Edits::documents_said))]
fn documents(alloc: Global, value: &Value) -> Result<Documents, Refused>
    ensures { ReadsAs result (at_key_or [] documents_said (get (codes "documents") (view value.now))) }
{
    match value.get("documents") {
        None => Ok(Documents::begin(alloc)),
        Some(said) => {
            let items = elements(said)?;
            documents_of(alloc, items)
        }
    }
}

/// What a list says but for its edits.
#[tactic(auto, unfolding(crate::specs::Edits::head_said))]
fn head_of(alloc: Global, value: &Value) -> Result<Head, Refused>
    ensures { ReadsAs result (head_said (view value.now)) }
{
    if !has_only(value, &["encId", "edits", "documents"]) {
        return Err(Refused::Form);
    }
    let enc_id = guid(at_key(value, "encId")?)?;
    let documents = documents(alloc, value)?;
    Ok(Head { enc_id, documents })
}

/// Why the element with this number isn't read.
pub fn at_number(number: u32, refused: Refused) -> JobFault
    ensures { result ≡ fault_of_element number refused }
{
    match refused {
        Refused::Memory => JobFault::Memory,
        Refused::Form => JobFault::J2(number),
    }
}

/// Edits, the first with number 1.
#[tactic(auto, using(crate::proofs::Numbered::numbered_steps))]
fn edits(alloc: Global, items: &[Value]) -> Result<Edits, JobFault>
    ensures { GivesList result (read_in_turn edit_said 1 (map view items.now)) }
{
    let mut list = Edits::begin(alloc);
    let mut number: u32 = 1;
    for value in items {
        let edit = match one_edit(alloc, value) {
            Ok(edit) => edit,
            Err(refused) => return Err(at_number(number, refused)),
        };
        list.push(edit)?;
        number = number.saturating_add(1);
    }
    Ok(list)
}

/// The elements at the key `edits`.
fn items_of(value: &Value) -> Result<&[Value], Refused>
    ensures { ReadsAs (result_map_both (λ (s : Bor (List TheValue)). map view s.now) (λ e. e) result)
        (option_and_then elements_of (get (codes "edits") (view value.now))) }
{
    elements(at_key(value, "edits")?)
}

/// The edit list of these parts.
fn list_of_parts(alloc: Global, head: Head, items: &[Value]) -> Result<EditList, JobFault>
    ensures { GivesList result (with_head head (read_in_turn edit_said 1 (map view items.now))) }
{
    let edits = edits(alloc, items)?;
    let enc_id = head.enc_id;
    Ok(EditList {
        enc_id,
        edits,
        documents: head.documents,
    })
}

/// The edit list of a value.
#[tactic(auto, unfolding(crate::specs::Edits::list_said))]
fn list_of(alloc: Global, value: &Value) -> Result<EditList, JobFault>
    ensures { GivesList result (list_said (view value.now)) }
{
    let head = match head_of(alloc, value) {
        Ok(head) => head,
        Err(refused) => return Err(at_number(0, refused)),
    };
    match items_of(value) {
        Ok(items) => list_of_parts(alloc, head, items),
        Err(refused) => Err(at_number(0, refused)),
    }
}

/// The value of a text.
#[tactic(auto, using(crate::proofs::Texts::text_values))]
pub fn parsed(alloc: Global, text: &[u8]) -> Result<Value, JobFault>
    ensures { GivesList (result_map_both view (λ e. e) result) (ok_or (json_value text.now) J1) }
{
    match Value::from_slice(alloc, text) {
        Ok(value) => Ok(value),
        Err(error) if error.is_memory() => Err(JobFault::Memory),
        Err(_) => Err(JobFault::J1),
    }
}

/// The edit list that a text says, as JSON: `J1` where the text is no JSON, `J2` with the number, from 1, of the first
/// edit that isn't of the form, or with 0 where the whole isn't, and `Memory` where there is none. The numbers of edits
/// past 2^32 - 1 are that number.
#[tactic(auto, unfolding(crate::specs::Edits::edits_said))]
pub fn read_edits(alloc: Global, text: &[u8]) -> Result<EditList, JobFault>
    ensures said { GivesList result (edits_said text.now) }
    ensures fits { IfOk result (λ l. list_fits l ≡ true) }
    ensures points { IfOk result (λ l. list_all points_lie_within l.edits ≡ true) }
{
    form_law();
    points_law();
    let value = parsed(alloc, text)?;
    list_of(alloc, &value)
}
