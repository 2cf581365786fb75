//! A certificate's text.

ghost use Rattle.std.specs.Prelude.{◌≡◌, ◌≤◌, ◌<◌, ◌^◌, ◌==◌, map, true, IfOk, Ok, Some, unsigned_abs};
ghost use Rattle.semantics.specs.Most.{most_number};
ghost use Rattle.semantics.specs.Names.{is_name};
ghost use Rattle.expr.specs.Terms.{query_term_of};
ghost use Rattle.serde_json.specs.View.{view};
ghost use Rattle.answer_check.specs.Certificate.{certificate_for, cert_text, lists_for, rows_for};
ghost use Rattle.answer_check.specs.Json.{certificate_in, cert_data, each, json_data, list_data, row_data, row_of};
ghost use Rattle.answer_check.specs.Written.{AreReadAgain, IsWritten};

use crate::naming::is_in_query;
use crate::text::text_of;
use descent::{Answer, CutRow};
use expr::{Name, Query};
use expr_parse::print;
use interval::Iv;
use num_text::Memory;
use serde_json::{Value, json};
use std::alloc::{AllocError, Global};

fn row_value(alloc: Global, row: CutRow) -> Result<Value, AllocError>
    ensures value { IfOk result (λ v. view v ≡ row_data (row.start, row.len, row.opened)) }
    ensures start { row.start < 2 ^ 32 }
    ensures len { row.len < 2 ^ 32 }
{
    let opened = u32::from(row.opened);
    json!(in alloc; [row.start, row.len, opened])
}

fn is_of(row: &CutRow, series: usize) -> bool
    ensures { result ≡ (row.now.series == series) }
{
    row.series as usize == series
}

/// The rows of a series.
fn row_values(alloc: Global, rows: &[CutRow], series: usize) -> Result<Vec<Value>, AllocError>
    ensures values { IfOk result (λ v. map view v.items ≡ map row_data (rows_for series rows.now)) }
    ensures read_again { IfOk result (λ v.
        each (map row_of (map row_data (rows_for series rows.now))) ≡ Some (rows_for series rows.now)) }
{
    let mut values = Vec::new(alloc);
    for i in 0..rows.len() {
        let row = rows[i];
        if !is_of(&row, series) {
            continue;
        }
        let value = row_value(alloc, row)?;
        values.push(value)?;
    }
    Ok(values)
}

/// The rows of a series, beside its name.
fn list_value(
    alloc: Global,
    name: &Name,
    rows: &[CutRow],
    series: usize,
) -> Result<Value, AllocError>
    ensures value { IfOk result (λ v. view v
        ≡ list_data (record { name = name.now; rows = rows_for series rows.now })) }
    ensures read_again { IfOk result (λ v. each (map row_of (map row_data (rows_for series rows.now)))
        ≡ Some (rows_for series rows.now)) }
    ensures name { is_name name.now ≡ true }
{
    let name = text_of(name.bytes());
    let values = row_values(alloc, rows, series)?;
    json!(in alloc; [name, Value::Array(values)])
}

/// The lists of the series that a query names.
fn list_values(
    alloc: Global,
    names: &[Name],
    q: &Query,
    rows: &[CutRow],
) -> Result<Vec<Value>, AllocError>
    ensures values { IfOk result (λ v. map view v.items
        ≡ map list_data (lists_for (query_term_of q.now) 0 names.now rows.now)) }
    ensures lists { IfOk result (λ v. AreReadAgain (lists_for (query_term_of q.now) 0 names.now rows.now)) }
{
    let mut values = Vec::new(alloc);
    for k in 0..names.len() {
        let name = names[k];
        if !is_in_query(q, &name) {
            continue;
        }
        let value = list_value(alloc, &name, rows, k)?;
        values.push(value)?;
    }
    Ok(values)
}

/// The whole, from its texts.
fn whole_value(
    alloc: Global,
    budget: &str,
    cut: Vec<Value>,
    hi: &str,
    lo: &str,
    query: &str,
) -> Result<Value, AllocError>
    ensures { IfOk result (λ v. view v ≡ json_data budget.now (map view cut.items) hi.now lo.now query.now) }
{
    json!(in alloc; {
        "budget": budget,
        "cut": Value::Array(cut),
        "hi": hi,
        "lo": lo,
        "query": query,
    })
}

/// The ends of an interval. `most` says that each is small enough to be read again.
fn ends_of(iv: &Iv) -> (i128, i128)
    ensures lo { result.0 ≡ iv.now.lo }
    ensures hi { result.1 ≡ iv.now.hi }
    ensures low { unsigned_abs iv.now.lo ≤ most_number }
    ensures high { unsigned_abs iv.now.hi ≤ most_number }
{
    let _most = iv.most();
    (iv.lo(), iv.hi())
}

/// The whole as JSON.
fn cert_value(
    alloc: Global,
    names: &[Name],
    q: &Query,
    budget: u128,
    a: &Answer,
) -> Result<Value, Memory>
    requires { budget ≤ most_number }
    ensures value { IfOk result (λ v. view v
        ≡ cert_data (certificate_for names.now (query_term_of q.now) budget a.now)) }
    ensures written { IfOk result (λ v. IsWritten (certificate_for names.now (query_term_of q.now) budget a.now)) }
{
    let query = print(alloc, q)?;
    let cut = list_values(alloc, names, q, a.cut.as_slice())?;
    let budget = format!(in alloc; "{budget}")?;
    let (lo, hi) = ends_of(&a.iv);
    let hi = format!(in alloc; "{hi}")?;
    let lo = format!(in alloc; "{lo}")?;
    let query = text_of(query.as_slice());
    let value = whole_value(alloc, budget.as_str(), cut, hi.as_str(), lo.as_str(), query)?;
    Ok(value)
}

/// The text of the certificate of an answer.
pub fn write_cert(
    alloc: Global,
    names: &[Name],
    q: &Query,
    budget: u128,
    a: &Answer,
) -> Result<Vec<u8>, Memory>
    requires { budget ≤ most_number }
    ensures text { IfOk result (λ text. text.items
        ≡ cert_text (certificate_for names.now (query_term_of q.now) budget a.now)) }

    // It is read as that certificate again.
    ensures read_again { IfOk result (λ text. certificate_in text.items
        ≡ Ok (certificate_for names.now (query_term_of q.now) budget a.now)) }
{
    let value = cert_value(alloc, names, q, budget, a)?;
    let text = value.to_vec(alloc)?;
    Ok(text)
}
