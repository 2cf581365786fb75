// The plain query of a text.

ghost use Rattle.std.specs.Prelude.{◌≡◌, Ok, IfOk, IfErr};
ghost use Rattle.expr.specs.Terms.{query_term_of};
ghost use Rattle.expr_parse.specs.Parsed.{parsed};
ghost use Rattle.semantics.specs.Admitted.{IsAdmitted};
ghost use Rattle.semantics.specs.Limits.{IsWithinLimits};
ghost use Rattle.semantics.specs.Plain.{IsPlain};
ghost use Rattle.sessions.specs.Hub.{plain_in};
ghost use Rattle.sessions.specs.Queries.{IsRefusal, IsTextRefusal};
ghost use Rattle.store_file.specs.Facts.{facts_in};
ghost use Rattle.store_file.specs.Stored.{store_value};

use crate::replies::Cause;
use expr::{Query, admit};
use expr_parse::{ParseErr, parse};
use num_text::Memory;
use stats::expand;
use std::alloc::Global;
use store_file::Store;

/// Why there is no plain query.
#[derive(Drop)]
pub(crate) enum QueryErr {
    Refused(Cause),
    Memory,
}

impl From<Memory> for QueryErr {
    ghost use Rattle.sessions.specs.declared.queries.QueryErr.TheVariants.{Memory as no_memory};

    ghost from_gives = { λ _ e. e ≡ no_memory };

    fn from(_e: Memory) -> QueryErr {
        QueryErr::Memory
    }
}

/// The query of a text.
fn query_of(alloc: Global, text: &[u8]) -> Result<Query, QueryErr>
    ensures ok { IfOk result (λ q. parsed text.now ≡ Ok (query_term_of q)) }
    ensures limits { IfOk result (λ q. IsWithinLimits (query_term_of q)) }
    ensures refused { IfErr result (IsTextRefusal (parsed text.now)) }
{
    match parse(alloc, text) {
        Ok(q) => Ok(q),
        Err(ParseErr::Memory) => Err(QueryErr::Memory),
        Err(e) => Err(QueryErr::Refused(Cause::Parse(e))),
    }
}

/// The plain query of a text, where it is admitted over the series of a store.
pub(crate) fn plain_query(alloc: Global, store: &Store, text: &[u8]) -> Result<Query, QueryErr>
    ensures ok { IfOk result (λ q. plain_in (store_value store.now) text.now ≡ Ok (query_term_of q)) }
    ensures plain { IfOk result (λ q. IsPlain (query_term_of q)) }
    ensures limits { IfOk result (λ q. IsWithinLimits (query_term_of q)) }
    ensures admitted { IfOk result (λ q. IsAdmitted (facts_in (store_value store.now)) (query_term_of q)) }
    ensures refused { IfErr result (IsRefusal (plain_in (store_value store.now) text.now)) }
{
    let query = query_of(alloc, text)?;
    let facts = store.facts()?;
    let plain = expand(alloc, &query)?;
    match admit(&plain, &facts) {
        Ok(()) => Ok(plain),
        Err(e) => Err(QueryErr::Refused(Cause::Admit(e))),
    }
}
