//! A certificate that is read.

ghost use Rattle.std.specs.Prelude.{◌≡◌, ◌≢◌, ◌⊎◌, length, map, IfErr, IfOk, Ok, Err, Some, None, pos, option_map, option_and_then};
ghost use Rattle.semantics.specs.Numbers.{number_in};
ghost use Rattle.serde_json.specs.Find.{as_object};
ghost use Rattle.serde_json.specs.Events.{members_len};
ghost use Rattle.serde_json.specs.View.{view};
ghost use Rattle.answer_check.specs.declared.certificate.CertErr.TheVariants.{Form, Memory as no_memory, NotJson};
ghost use Rattle.answer_check.specs.declared.certificate.CertKey.TheVariants.{Cut};
ghost use Rattle.answer_check.specs.Json.{as_place, as_flag, certificate_in, certificate_of, cut_under, each, json_in, list_of, lists_of, natural_under, number_under, pair_of, row_of, rows_of, text_under};

use crate::certificate::{Cert, CertErr, CertKey, CertList, CertLists, Triples};
use num_text::{Text, read_i128};
use serde_json::{Category, Value};
use std::alloc::Global;

/// The value that bytes spell.
fn read_json(alloc: Global, bytes: &[u8]) -> Result<Value, CertErr>
    ensures ok { IfOk result (λ v. json_in bytes.now ≡ Some (view v)) }
    ensures not_json { IfErr result (λ e. (e ≡ no_memory) ⊎ ((e ≡ NotJson) × (json_in bytes.now ≡ None))) }
{
    match Value::from_slice(alloc, bytes) {
        Ok(value) => Ok(value),
        Err(e) => match e.classify() {
            Category::Memory => Err(CertErr::Memory),
            _ => Err(CertErr::NotJson),
        },
    }
}

fn place_of(value: &Value) -> Option<u32>
    ensures { result ≡ as_place (view value.now) }
{
    match value.as_u64() {
        Some(n) => u32::try_from(n).ok(),
        None => None,
    }
}

fn flag_of(value: &Value) -> Option<bool>
    ensures { result ≡ as_flag (view value.now) }
{
    match value.as_u64() {
        Some(0) => Some(false),
        Some(1) => Some(true),
        _ => None,
    }
}

/// The row that a value is.
fn read_row(value: &Value) -> Option<(u32, u32, bool)>
    ensures { result ≡ row_of (view value.now) }
{
    let items = value.as_array()?;
    match items.as_slice() {
        [start, len, opened] => {
            let start = place_of(start)?;
            let len = place_of(len)?;
            let opened = flag_of(opened)?;
            Some((start, len, opened))
        }
        _ => None,
    }
}

/// The rows that values are.
fn rows_in(alloc: Global, values: &[Value]) -> Result<Triples, CertErr>
    ensures ok { IfOk result (λ rows. each (map row_of (map view values.now)) ≡ Some rows) }
    ensures err { IfErr result (λ e. (e ≡ no_memory)
        ⊎ ((e ≡ Form Cut) × (each (map row_of (map view values.now)) ≡ None))) }
{
    let mut rows = Vec::new(alloc);
    for value in values {
        let Some(row) = read_row(value) else {
            return Err(CertErr::Form(CertKey::Cut));
        };
        rows.push(row)?;
    }
    Ok(Triples::of(rows))
}

/// The rows that a value is.
fn read_rows(alloc: Global, value: &Value) -> Result<Triples, CertErr>
    ensures ok { IfOk result (λ rows. rows_of (view value.now) ≡ Some rows) }
    ensures err { IfErr result (λ e. (e ≡ no_memory) ⊎ ((e ≡ Form Cut) × (rows_of (view value.now) ≡ None))) }
{
    let Some(items) = value.as_array() else {
        return Err(CertErr::Form(CertKey::Cut));
    };
    rows_in(alloc, items.as_slice())
}

fn copied(alloc: Global, text: &str) -> Result<Text, CertErr>
    ensures ok { IfOk result (λ copy. copy ≡ text.now) }
    ensures err { IfErr result (λ e. e ≡ no_memory) }
{
    let bytes = Vec::from_slice(alloc, text.as_bytes())?;
    Ok(Text::of(bytes))
}

/// A name and rows.
fn named_rows(alloc: Global, name: &str, rows: &Value) -> Result<CertList, CertErr>
    ensures ok { IfOk result (λ list. (list.name ≡ name.now) × (rows_of (view rows.now) ≡ Some list.rows)) }
    ensures err { IfErr result (λ e. (e ≡ no_memory) ⊎ ((e ≡ Form Cut) × (rows_of (view rows.now) ≡ None))) }
{
    let rows = read_rows(alloc, rows)?;
    let name = copied(alloc, name)?;
    Ok(CertList { name, rows })
}

/// A text, and a value beside it.
fn pair_of(value: &Value) -> Option<(&str, &Value)>
    ensures { option_map (λ p. (p.0.now, view p.1.now)) result ≡ pair_of (view value.now) }
{
    let items = value.as_array()?;
    match items.as_slice() {
        [name, rows] => {
            let name = name.as_str()?;
            Some((name, rows))
        }
        _ => None,
    }
}

/// The list that a value is.
fn read_list(alloc: Global, value: &Value) -> Result<CertList, CertErr>
    ensures ok { IfOk result (λ list. list_of (view value.now) ≡ Some list) }
    ensures err { IfErr result (λ e. (e ≡ no_memory) ⊎ ((e ≡ Form Cut) × (list_of (view value.now) ≡ None))) }
{
    match pair_of(value) {
        Some((name, rows)) => named_rows(alloc, name, rows),
        None => Err(CertErr::Form(CertKey::Cut)),
    }
}

/// The lists that values are.
fn lists_in(alloc: Global, values: &[Value]) -> Result<CertLists, CertErr>
    ensures ok { IfOk result (λ lists. each (map list_of (map view values.now)) ≡ Some lists) }
    ensures err { IfErr result (λ e. (e ≡ no_memory)
        ⊎ ((e ≡ Form Cut) × (each (map list_of (map view values.now)) ≡ None))) }
{
    let mut lists = Vec::new(alloc);
    for value in values {
        let list = match read_list(alloc, value) {
            Ok(list) => list,
            Err(e) => return Err(e),
        };
        lists.push(list)?;
    }
    Ok(CertLists::of(lists))
}

fn text_under<'a>(value: &'a Value, key: &str) -> Option<&'a str>
    ensures { option_map (λ s. s.now) result ≡ text_under key.now (view value.now) }
{
    value.get(key).and_then(Value::as_str)
}

fn number_under(value: &Value, key: &str) -> Option<i128>
    ensures { result ≡ number_under key.now (view value.now) }
{
    match text_under(value, key) {
        Some(text) => read_i128(text.as_bytes()),
        None => None,
    }
}

fn natural_under(value: &Value, key: &str) -> Option<u128>
    ensures { result ≡ natural_under key.now (view value.now) }
{
    match number_under(value, key) {
        Some(v) => u128::try_from(v).ok(),
        None => None,
    }
}

/// The lists that a value is.
fn read_lists(alloc: Global, value: &Value) -> Result<CertLists, CertErr>
    ensures ok { IfOk result (λ cut. lists_of (view value.now) ≡ Some cut) }
    ensures err { IfErr result (λ e. (e ≡ no_memory) ⊎ ((e ≡ Form Cut) × (lists_of (view value.now) ≡ None))) }
{
    let Some(items) = value.as_array() else {
        return Err(CertErr::Form(CertKey::Cut));
    };
    lists_in(alloc, items.as_slice())
}

/// The lists under the key of the cut.
fn read_cut(alloc: Global, value: &Value) -> Result<CertLists, CertErr>
    ensures ok { IfOk result (λ cut. cut_under (view value.now) ≡ Some cut) }
    ensures err { IfErr result (λ e. (e ≡ no_memory) ⊎ ((e ≡ Form Cut) × (cut_under (view value.now) ≡ None))) }
{
    match value.get("cut") {
        Some(cut) => read_lists(alloc, cut),
        None => Err(CertErr::Form(CertKey::Cut)),
    }
}

/// How many keys an object has.
fn keys_in(value: &Value) -> Option<usize>
    ensures { result ≡ option_map members_len (as_object (view value.now)) }
{
    match value.as_object() {
        Some(members) => Some(members.len()),
        None => None,
    }
}

/// The certificate that a value is.
fn read_value(alloc: Global, value: &Value) -> Result<Cert, CertErr>
    ensures ok { IfOk result (λ c. certificate_of (view value.now) ≡ Ok c) }
    ensures err { IfErr result (λ e. (e ≡ no_memory) ⊎ (certificate_of (view value.now) ≡ Err e)) }
{
    let Some(keys) = keys_in(value) else {
        return Err(CertErr::Form(CertKey::Object));
    };
    let Some(budget) = natural_under(value, "budget") else {
        return Err(CertErr::Form(CertKey::Budget));
    };
    let cut = read_cut(alloc, value)?;
    let Some(hi) = number_under(value, "hi") else {
        return Err(CertErr::Form(CertKey::Hi));
    };
    let Some(lo) = number_under(value, "lo") else {
        return Err(CertErr::Form(CertKey::Lo));
    };
    let Some(query) = text_under(value, "query") else {
        return Err(CertErr::Form(CertKey::Query));
    };
    if keys != 5 {
        return Err(CertErr::Form(CertKey::Other));
    }
    let query = copied(alloc, query)?;
    Ok(Cert {
        budget,
        lo,
        hi,
        query,
        cut,
    })
}

/// The certificate that bytes spell, or why they spell none.
pub fn read_cert(alloc: Global, bytes: &[u8]) -> Result<Cert, CertErr>
    ensures ok { IfOk result (λ c. certificate_in bytes.now ≡ Ok c) }
    ensures err { IfErr result (λ e. (e ≡ no_memory) ⊎ (certificate_in bytes.now ≡ Err e)) }
{
    let value = read_json(alloc, bytes)?;
    let cert = read_value(alloc, &value)?;
    Ok(cert)
}
