ghost use Rattle.query_cli.specs.Refusals.{cert_line, csv_line, key_text, line_of, query_line, series_line, store_line, bad_script, domain, escapes, not_a_cut, range, query_rank, query_unknown, wide};
ghost use Rattle.query_cli.specs.Views.{refusal_view};
ghost use Rattle.std.specs.Prelude.{◌≡◌, IfOk, string_bytes};

use crate::refusals::Refusal;
use crate::words::name_text;
use answer_check::{CertErr, CertKey};
use expr::Name;
use expr_parse::ParseErr;
use series_csv::CsvErr;
use std::alloc::{AllocError, Global};
use store_file::{SeriesErr, StoreErr};

fn line_of_csv(alloc: Global, e: CsvErr) -> Result<String, AllocError>
    ensures { IfOk result (λ t. string_bytes t ≡ csv_line e) }
{
    match e {
        CsvErr::NoHeader => String::from_str(alloc, "csv no header\n"),
        CsvErr::NoColumn => String::from_str(alloc, "csv no column\n"),
        CsvErr::Short(k) => format!(in alloc; "csv short {k}\n"),
        CsvErr::Bad(k) => format!(in alloc; "csv bad {k}\n"),
        CsvErr::TooLarge(k) => format!(in alloc; "csv too large {k}\n"),
        CsvErr::MissingFirst(k) => format!(in alloc; "csv missing first {k}\n"),
        CsvErr::TooLong(k) => format!(in alloc; "csv too long {k}\n"),
        CsvErr::Memory => Err(AllocError),
    }
}

fn line_of_node(alloc: Global, name: &Name, start: u32, len: u32) -> Result<String, AllocError>
    ensures { IfOk result (λ t. string_bytes t ≡ store_line (StoreErr.BadNode name.now start len)) }
{
    let name = name_text(name);
    let text = format!(in alloc; "store bad node {name} {start} {len}\n")?;
    Ok(text)
}

fn line_of_store(alloc: Global, e: &StoreErr) -> Result<String, AllocError>
    ensures { IfOk result (λ t. string_bytes t ≡ store_line e.now) }
{
    match e {
        StoreErr::NotAStore(place) => format!(in alloc; "store bad header {place}\n"),
        StoreErr::BadNode(name, start, len) => line_of_node(alloc, name, *start, *len),
        StoreErr::Memory => Err(AllocError),
    }
}

fn line_of_series(alloc: Global, name: &Name, e: SeriesErr) -> Result<String, AllocError>
    ensures { IfOk result (λ t. string_bytes t ≡ series_line name.now e) }
{
    let name = name_text(name);
    match e {
        SeriesErr::Exists => format!(in alloc; "series exists {name}\n"),
        SeriesErr::TooMany => String::from_str(alloc, "series too many\n"),
        SeriesErr::Unknown => format!(in alloc; "series unknown {name}\n"),
        SeriesErr::TooLong => format!(in alloc; "series too long {name}\n"),
        SeriesErr::ArenaFull | SeriesErr::Memory => Err(AllocError),
    }
}

fn line_of_domain(alloc: Global, sum: u32, lo: i64, hi: i64) -> Result<String, AllocError>
    ensures { IfOk result (λ t. string_bytes t ≡ line_of (domain sum lo hi)) }
{
    let text = format!(in alloc; "domain {sum} {lo} {hi}\n")?;
    Ok(text)
}

fn line_of_text(alloc: Global, e: ParseErr) -> Result<String, AllocError>
    ensures { IfOk result (λ t. string_bytes t ≡ query_line e) }
{
    match e {
        ParseErr::At(place) => format!(in alloc; "query at {place}\n"),
        ParseErr::TooLong => String::from_str(alloc, "query too long\n"),
        ParseErr::TooDeep => String::from_str(alloc, "query too deep\n"),
        ParseErr::TooManySums => String::from_str(alloc, "query too many sums\n"),
        ParseErr::TooManyNames => String::from_str(alloc, "query too many names\n"),
        ParseErr::Memory => Err(AllocError),
    }
}

fn line_of_unknown(alloc: Global, name: &Name) -> Result<String, AllocError>
    ensures { IfOk result (λ t. string_bytes t ≡ line_of (query_unknown name.now)) }
{
    let name = name_text(name);
    let text = format!(in alloc; "query unknown {name}\n")?;
    Ok(text)
}

fn line_of_rank(alloc: Global, sum: u32) -> Result<String, AllocError>
    ensures { IfOk result (λ t. string_bytes t ≡ line_of (query_rank sum)) }
{
    let text = format!(in alloc; "query rank {sum}\n")?;
    Ok(text)
}

fn line_of_range(alloc: Global, node: u32) -> Result<String, AllocError>
    ensures { IfOk result (λ t. string_bytes t ≡ line_of (range node)) }
{
    let text = format!(in alloc; "range {node}\n")?;
    Ok(text)
}

fn line_of_cut(alloc: Global, place: u32) -> Result<String, AllocError>
    ensures { IfOk result (λ t. string_bytes t ≡ line_of (not_a_cut place)) }
{
    let text = format!(in alloc; "not a cut {place}\n")?;
    Ok(text)
}

fn line_of_escape(alloc: Global, lo: i128, hi: i128) -> Result<String, AllocError>
    ensures { IfOk result (λ t. string_bytes t ≡ line_of (escapes lo hi)) }
{
    let text = format!(in alloc; "escapes {lo} {hi}\n")?;
    Ok(text)
}

fn line_of_width(alloc: Global, width: u128) -> Result<String, AllocError>
    ensures { IfOk result (λ t. string_bytes t ≡ line_of (wide width)) }
{
    let text = format!(in alloc; "wide {width}\n")?;
    Ok(text)
}

fn key_text(key: CertKey) -> &'static str
    ensures { result.now ≡ key_text key }
{
    match key {
        CertKey::Object => "object",
        CertKey::Budget => "budget",
        CertKey::Cut => "cut",
        CertKey::Hi => "hi",
        CertKey::Lo => "lo",
        CertKey::Query => "query",
        CertKey::Other => "other",
    }
}

fn line_of_form(alloc: Global, key: CertKey) -> Result<String, AllocError>
    ensures { IfOk result (λ t. string_bytes t ≡ cert_line (CertErr.Form key)) }
{
    let key = key_text(key);
    let text = format!(in alloc; "certificate form {key}\n")?;
    Ok(text)
}

fn line_of_cert(alloc: Global, e: CertErr) -> Result<String, AllocError>
    ensures { IfOk result (λ t. string_bytes t ≡ cert_line e) }
{
    match e {
        CertErr::NotJson => String::from_str(alloc, "certificate not json\n"),
        CertErr::Form(key) => line_of_form(alloc, key),
        CertErr::Memory => Err(AllocError),
    }
}

fn line_of_script(alloc: Global, line: u32) -> Result<String, AllocError>
    ensures { IfOk result (λ t. string_bytes t ≡ line_of (bad_script line)) }
{
    let text = format!(in alloc; "script line {line}\n")?;
    Ok(text)
}

pub(crate) fn line_of_refusal(alloc: Global, refusal: &Refusal<'_>) -> Result<String, AllocError>
    ensures { IfOk result (λ t. string_bytes t ≡ line_of (refusal_view refusal.now)) }
{
    match refusal {
        Refusal::Usage => String::from_str(alloc, "usage fault\n"),
        Refusal::Absent(name) => format!(in alloc; "absent {name}\n"),
        Refusal::TooBig(name) => format!(in alloc; "too big {name}\n"),
        Refusal::BadCsv(e) => line_of_csv(alloc, *e),
        Refusal::BadStore(e) => line_of_store(alloc, e),
        Refusal::SeriesFault(name, e) => line_of_series(alloc, name, *e),
        Refusal::Domain { sum, lo, hi } => line_of_domain(alloc, *sum, *lo, *hi),
        Refusal::BadQuery(e) => line_of_text(alloc, *e),
        Refusal::QueryUnknown(name) => line_of_unknown(alloc, name),
        Refusal::QueryRank(sum) => line_of_rank(alloc, *sum),
        Refusal::StoreFault => String::from_str(alloc, "store fault\n"),
        Refusal::Range(node) => line_of_range(alloc, *node),
        Refusal::NotACut(place) => line_of_cut(alloc, *place),
        Refusal::Escapes { lo, hi } => line_of_escape(alloc, *lo, *hi),
        Refusal::Wide(width) => line_of_width(alloc, *width),
        Refusal::BadCert(e) => line_of_cert(alloc, *e),
        Refusal::BadScript(line) => line_of_script(alloc, *line),
        Refusal::ArenaFull => String::from_str(alloc, "refused arena full\n"),
    }
}
