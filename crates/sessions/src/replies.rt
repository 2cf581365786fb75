// The replies of a hub, and their lines.

ghost use Rattle.std.specs.Prelude.{◌≡◌, ◌++◌, codes, string_bytes, IfOk, OnOk, OnErr};
ghost use Rattle.expr.specs.declared.admission.AdmitErr.TheVariants as admission;
ghost use Rattle.sessions.specs.declared.replies.Reply.TheVariants as reply;
ghost use Rattle.sessions.specs.Replies.{admit_line, cause_line, interval_line, parse_line, reply_line, slot_line};

use expr::{AdmitErr, Name};
use expr_parse::ParseErr;
use interval::Iv;
use num_text::Memory;
use std::alloc::{AllocError, Global};
use std::str;

/// Why an opening or an append is refused.
#[derive(Drop)]
pub enum Cause {
    Parse(ParseErr),
    Admit(AdmitErr),
    /// There is no series of that name.
    Unknown(Name),
    /// The series would have more than 2^20 readings.
    TooLong(Name),
    /// The nodes would pass the limit of the arena.
    ArenaFull,
}

/// What a hub says to an event.
#[derive(Drop)]
pub enum Reply {
    Opened(u8, Iv),
    /// The session's interval, which is wider than its budget.
    Now(u8, Iv),
    /// The session's interval, which is no wider than its budget.
    Done(u8, Iv),
    Closed(u8),
    /// How many readings were added, and how many the series has.
    Appended(Name, u32, u32),
    Saved,
    /// The slot has a session.
    SlotBusy(u8),
    /// The slot has none.
    SlotFree(u8),
    Refused(Cause),
}

/// The name as text.
fn name_text(name: &Name) -> &str
    ensures { result.now ≡ name.now }
{
    match str::from_utf8(name.bytes()) {
        Ok(text) => text,
        Err(_) => unreachable!(),
    }
}

fn line_of_text(alloc: Global, e: ParseErr) -> Result<String, AllocError>
    ensures { IfOk result (λ t. string_bytes t ≡ parse_line e) }
{
    match e {
        ParseErr::At(place) => format!(in alloc; "query at {place}\n"),
        ParseErr::TooLong => String::from_str(alloc, "query too long\n"),
        ParseErr::TooDeep => String::from_str(alloc, "query too deep\n"),
        ParseErr::TooManySums => String::from_str(alloc, "query too many sums\n"),
        ParseErr::TooManyNames => String::from_str(alloc, "query too many names\n"),
        ParseErr::Memory => Err(AllocError),
    }
}

fn line_of_unknown(alloc: Global, name: &Name) -> Result<String, AllocError>
    ensures { IfOk result (λ t. string_bytes t ≡ codes "query unknown " ++ name.now ++ codes "\n") }
{
    let name = name_text(name);
    let text = format!(in alloc; "query unknown {name}\n")?;
    Ok(text)
}

fn line_of_domain(alloc: Global, sum: u32, lo: i64, hi: i64) -> Result<String, AllocError>
    ensures { IfOk result (λ t. string_bytes t ≡ admit_line (admission.Domain sum lo hi)) }
{
    let text = format!(in alloc; "domain {sum} {lo} {hi}\n")?;
    Ok(text)
}

fn line_of_query(alloc: Global, e: &AdmitErr) -> Result<String, AllocError>
    ensures { IfOk result (λ t. string_bytes t ≡ admit_line e.now) }
{
    match e {
        AdmitErr::Unknown(name) => line_of_unknown(alloc, name),
        AdmitErr::Rank(sum) => format!(in alloc; "query rank {sum}\n"),
        AdmitErr::Domain { sum, lo, hi } => line_of_domain(alloc, *sum, *lo, *hi),
        AdmitErr::Range(node) => format!(in alloc; "range {node}\n"),
    }
}

fn line_of_series(alloc: Global, fault: &str, name: &Name) -> Result<String, AllocError>
    ensures { IfOk result (λ t. string_bytes t ≡ codes "series " ++ fault.now ++ codes " " ++ name.now ++ codes "\n") }
{
    let name = name_text(name);
    let text = format!(in alloc; "series {fault} {name}\n")?;
    Ok(text)
}

fn line_of_cause(alloc: Global, cause: &Cause) -> Result<String, AllocError>
    ensures { IfOk result (λ t. string_bytes t ≡ cause_line cause.now) }
{
    match cause {
        Cause::Parse(e) => line_of_text(alloc, *e),
        Cause::Admit(e) => line_of_query(alloc, e),
        Cause::Unknown(name) => line_of_series(alloc, "unknown", name),
        Cause::TooLong(name) => line_of_series(alloc, "too long", name),
        Cause::ArenaFull => String::from_str(alloc, "arena full\n"),
    }
}

fn line_of_interval(alloc: Global, word: &str, slot: u8, iv: &Iv) -> Result<String, AllocError>
    ensures { IfOk result (λ t. string_bytes t ≡ interval_line word.now slot iv.now) }
{
    let (lo, hi) = (iv.lo(), iv.hi());
    let text = format!(in alloc; "{word} {slot} {lo} {hi}\n")?;
    Ok(text)
}

fn line_of_slot(alloc: Global, word: &str, slot: u8) -> Result<String, AllocError>
    ensures { IfOk result (λ t. string_bytes t ≡ slot_line word.now slot) }
{
    let text = format!(in alloc; "{word} {slot}\n")?;
    Ok(text)
}

fn line_of_append(alloc: Global, name: &Name, added: u32, total: u32) -> Result<String, AllocError>
    ensures { IfOk result (λ t. string_bytes t ≡ reply_line (reply.Appended name.now added total)) }
{
    let name = name_text(name);
    let text = format!(in alloc; "appended {name} {added} {total}\n")?;
    Ok(text)
}

fn line_of_refusal(alloc: Global, cause: &Cause) -> Result<String, AllocError>
    ensures { IfOk result (λ t. string_bytes t ≡ codes "refused " ++ cause_line cause.now) }
{
    let line = line_of_cause(alloc, cause)?;
    let text = format!(in alloc; "refused {line}")?;
    Ok(text)
}

fn line_of(alloc: Global, r: &Reply) -> Result<String, AllocError>
    ensures { IfOk result (λ t. string_bytes t ≡ reply_line r.now) }
{
    match r {
        Reply::Opened(slot, iv) => line_of_interval(alloc, "opened", *slot, iv),
        Reply::Now(slot, iv) => line_of_interval(alloc, "now", *slot, iv),
        Reply::Done(slot, iv) => line_of_interval(alloc, "done", *slot, iv),
        Reply::Closed(slot) => line_of_slot(alloc, "closed", *slot),
        Reply::Appended(name, added, total) => line_of_append(alloc, name, *added, *total),
        Reply::Saved => String::from_str(alloc, "saved\n"),
        Reply::SlotBusy(slot) => line_of_slot(alloc, "busy", *slot),
        Reply::SlotFree(slot) => line_of_slot(alloc, "free", *slot),
        Reply::Refused(cause) => line_of_refusal(alloc, cause),
    }
}

/// Puts the line of a reply behind what is there.
pub fn write_reply(alloc: Global, into: &mut Vec<u8>, r: &Reply) -> Result<(), Memory>
    ensures written { OnOk result (into.new.items ≡ into.old.items ++ reply_line r.now) }
    ensures kept { OnErr result (into.new.items ≡ into.old.items) }
{
    let line = line_of(alloc, r)?;
    into.extend_from_slice(line.as_bytes())?;
    Ok(())
}
