//! Values of JSON: texts, numbers, tokens, blobs and GUIDs, and the elements and keys that they have.
ghost use Rattle.std.specs.Prelude.{◌≡◌, ℕ, List, map, option_map, IfOk, ◌≤◌};
ghost use Rattle.std.specs.Borrow.{Bor};
ghost use Rattle.std.specs.List.{list_all};
ghost use Rattle.std.specs.Result.{result_map_both};
ghost use Rattle.serde_json.specs.Find.{get, as_str, as_bool};
ghost use Rattle.serde_json.specs.View.{view, members_view};
ghost use Rattle.serde_json.specs.declared.value.Value.{Value as TheValue};
ghost use Rattle.enc_jobs.specs.Outcome.{ReadsAs};
ghost use Rattle.enc_jobs.specs.Json.{elements_of, is_one_of, keys_in, has_only as has_only_keys};
ghost use Rattle.enc_jobs.specs.Json.{number_said, word_said, pair_in, pair_said, hex_said, bytes_said, token_number_said, token_said, guid_said};

use crate::fault::Refused;
use enc_base::{Bytes, Token};
use serde_json::{Map, Value};
use std::alloc::{AllocError, Global};
use uuid::Uuid;

/// The elements of an array.
#[tactic(auto, using(crate::proofs::Values::elements_seen), unfolding(crate::specs::Json::elements_of))]
pub fn elements(value: &Value) -> Result<&[Value], Refused>
    ensures { ReadsAs (result_map_both (λ (s : Bor (List TheValue)). map view s.now) (λ e. e) result)
        (elements_of (view value.now)) }
{
    match value.as_array() {
        Some(items) => Ok(items.as_slice()),
        None => Err(Refused::Form),
    }
}

/// Whether a text is among these.
fn is_one_of(names: &[&str], text: &str) -> bool
    ensures { result ≡ is_one_of (map (λ (s : Bor (List ℕ)). s.now) names.now) text.now }
{
    names.contains(&text)
}

/// Whether each key is among these.
#[tactic(auto, using(crate::proofs::Values::keys_seen))]
fn are_among(names: &[&str], members: &Map<String, Value>) -> bool
    ensures { result ≡ list_all (is_one_of (map (λ (s : Bor (List ℕ)). s.now) names.now))
        (keys_in (members_view members.now.entries)) }
{
    for key in members.keys() {
        if !is_one_of(names, key.as_str()) {
            return false;
        }
    }
    true
}

/// Whether a value is an object, and each of its keys is among these.
#[tactic(auto, unfolding(crate::specs::Json::has_only))]
pub fn has_only(value: &Value, names: &[&str]) -> bool
    ensures { result ≡ has_only_keys (map (λ (s : Bor (List ℕ)). s.now) names.now) (view value.now) }
{
    match value.as_object() {
        Some(members) => are_among(names, members),
        None => false,
    }
}

/// The value at a key.
pub fn at_key<'v>(value: &'v Value, name: &str) -> Result<&'v Value, Refused>
    ensures { ReadsAs (result_map_both (λ (v : Bor TheValue). view v.now) (λ e. e) result)
        (get name.now (view value.now)) }
{
    match value.get(name) {
        Some(found) => Ok(found),
        None => Err(Refused::Form),
    }
}

/// A text.
pub fn text(value: &Value) -> Result<&str, Refused>
    ensures { ReadsAs (result_map_both (λ (s : Bor (List ℕ)). s.now) (λ e. e) result) (as_str (view value.now)) }
{
    match value.as_str() {
        Some(text) => Ok(text),
        None => Err(Refused::Form),
    }
}

/// A whole number up to a bound.
#[tactic(auto, unfolding(crate::specs::Json::number_said))]
pub fn number(most: u64, value: &Value) -> Result<u64, Refused>
    ensures said { ReadsAs result (number_said most (view value.now)) }
    ensures few { IfOk result (λ n. n ≤ most) }
{
    match value.as_u64() {
        Some(n) if n <= most => Ok(n),
        _ => Err(Refused::Form),
    }
}

/// A whole number below 2^32.
pub fn word(value: &Value) -> Result<u32, Refused>
    ensures { ReadsAs result (word_said (view value.now)) }
{
    let number = number(0xFFFF_FFFF, value)?;
    Ok(number as u32)
}

/// Two numbers.
fn pair_of(items: &[Value]) -> Result<(u32, u32), Refused>
    ensures { ReadsAs result (pair_in (map view items.now)) }
{
    match items {
        [first, second] => {
            let first = word(first)?;
            let second = word(second)?;
            Ok((first, second))
        }
        _ => Err(Refused::Form),
    }
}

/// An array of two numbers below 2^32.
#[tactic(auto, unfolding(crate::specs::Json::pair_said))]
pub fn pair(value: &Value) -> Result<(u32, u32), Refused>
    ensures { ReadsAs result (pair_said (view value.now)) }
{
    let items = elements(value)?;
    pair_of(items)
}

/// The bytes that a text of hexadecimal digits of either case spells.
#[tactic(auto, unfolding(crate::specs::Json::hex_said))]
pub fn blob(alloc: Global, value: &Value) -> Result<Bytes, Refused>
    ensures { ReadsAs result (hex_said (view value.now)) }
{
    let text = text(value)?;
    match hex::decode(alloc, text) {
        Ok(bytes) => Ok(Bytes::from_vec(bytes)),
        Err(hex::FromHexError::OutOfMemory) => Err(Refused::Memory),
        Err(_) => Err(Refused::Form),
    }
}

/// So many bytes.
#[tactic(auto, unfolding(crate::specs::Json::bytes_said))]
pub fn exact_bytes(alloc: Global, len: usize, value: &Value) -> Result<Bytes, Refused>
    ensures { ReadsAs result (bytes_said len (view value.now)) }
{
    let bytes = blob(alloc, value)?;
    if bytes.len() == len {
        return Ok(bytes);
    }
    Err(Refused::Form)
}

/// A copy of a text's bytes.
pub fn bytes_of(alloc: Global, text: &str) -> Result<Bytes, AllocError>
    ensures { IfOk result (λ bytes. bytes ≡ text.now) }
{
    let bytes = text.as_bytes().to_vec(alloc)?;
    Ok(Bytes::from_vec(bytes))
}

/// The number of a token, by eight hexadecimal digits.
#[tactic(auto, unfolding(crate::specs::Json::token_number_said))]
pub fn token_number(value: &Value) -> Result<u32, Refused>
    ensures { ReadsAs result (token_number_said (view value.now)) }
{
    let text = text(value)?;
    let mut bytes = [0; 4];
    match hex::decode_to_slice(text, &mut bytes) {
        Ok(()) => Ok(u32::from_be_bytes(bytes)),
        Err(_) => Err(Refused::Form),
    }
}

/// A token, by eight hexadecimal digits.
#[tactic(auto, unfolding(crate::specs::Json::token_said))]
pub fn token(value: &Value) -> Result<Token, Refused>
    ensures { ReadsAs result (token_said (view value.now)) }
{
    let number = token_number(value)?;
    Ok(Token::of(number))
}

/// A GUID, its first three fields little-endian.
#[tactic(auto, unfolding(crate::specs::Json::guid_said))]
pub fn guid(value: &Value) -> Result<[u8; 16], Refused>
    ensures { ReadsAs result (guid_said (view value.now)) }
{
    let text = text(value)?;
    match Uuid::parse_str(text) {
        Ok(id) => Ok(id.to_bytes_le()),
        Err(_) => Err(Refused::Form),
    }
}
