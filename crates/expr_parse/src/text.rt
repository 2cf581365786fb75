ghost use Rattle.std.specs.Prelude.{◌≡◌, ◌↔◌, ◌≤◌, ◌⊎◌, ℕ, Err, IfErr, IfOk, List, MatchOption, None, Ok, Some, [], ◌∷◌, length, map};
ghost use Rattle.semantics.specs.Limits.{nodes_in, IsWithinLimits};
ghost use Rattle.semantics.specs.Most.{most_text};
ghost use Rattle.semantics.specs.Term.{QueryTerm};
ghost use Rattle.expr.specs.Terms.{query_term_of};
ghost use Rattle.expr_parse.specs.Canonical.{canonical_text};
ghost use Rattle.expr_parse.specs.Lexemes.{lexeme_of};
ghost use Rattle.expr_parse.specs.Parsed.{by_lexemes, parsed, place_of, IsTextOf};
ghost use Rattle.expr_parse.specs.Pending.{query, sticks};
ghost use Rattle.expr_parse.specs.QueryGrammar.{IsQuery};
ghost use Rattle.expr_parse.specs.Reading.{tree_of};
ghost use Rattle.expr_parse.specs.Small.{AreSmall};
ghost use Rattle.expr_parse.specs.Stuck.{IsOutside, IsStuckAt};
ghost use Rattle.expr_parse.specs.Tokens.{tokenized, AreInOrder};

use crate::error::ParseErr;
use crate::lexeme::Lexeme;
use crate::limits::{is_nested, limited};
use crate::query::read_query;
use crate::series::{Stuck, next};
use crate::token::{Scanned, Token, scan};
use expr::Query;
use std::alloc::Global;

/// The most bytes of a text.
const MOST_TEXT: usize = 4096;

/// The query of all tokens.
fn read_all(alloc: Global, ts: &[Lexeme]) -> Result<Query, Stuck>
    ensures found { IfOk result (λ q. IsQuery ts.now [] (query_term_of q)) }
    ensures tree { IfOk result (λ q. tree_of ts.now ≡ Some (query_term_of q)) }
    ensures passes { IfOk result (λ q. sticks (query ∷ []) ts.now ≡ None) }
    ensures stuck { IfErr result (λ e. IsStuckAt (query ∷ []) ts.now e) }

    // The list sticks exactly where the grammar has no query.
    ensures exact { (sticks (query ∷ []) ts.now ≡ None) ↔ ((q : QueryTerm) × IsQuery ts.now [] q) }
{
    let (q, rest) = read_query(alloc, ts)?;
    match next(rest) {
        None => Ok(q),
        Some(_) => Err(Stuck::At(rest.len())),
    }
}

/// The first token, and those behind it.
fn next_token(ts: &[Token]) -> Option<(&Token, &[Token])>
    ensures { MatchOption result (ts.now ≡ []) (λ r. ts.now ≡ r.0.now ∷ r.1.now) }
{
    match ts {
        [first, rest @ ..] => Some((first, rest)),
        [] => None,
    }
}

/// The place at which so many tokens are left.
fn place_of(text: &[u8], tokens: &[Token], left: usize) -> u32
    requires { length text.now ≤ most_text }
    ensures { result ≡ place_of text.now tokens.now left }
{
    let mut rest = tokens;
    while let Some((first, more)) = next_token(rest) {
        if more.len() < left {
            return first.from;
        }
        rest = more;
    }
    text.len() as u32
}

/// The query of a text with these tokens, which say this.
fn by_lexemes(
    alloc: Global,
    text: &[u8],
    tokens: &[Token],
    said: &[Lexeme],
) -> Result<Query, ParseErr>
    requires short { length text.now ≤ most_text }
    requires few { length said.now ≤ most_text }
    requires small { AreSmall said.now }
    ensures answer { IfOk result (λ q. by_lexemes text.now tokens.now said.now ≡ Ok (query_term_of q)) }
    ensures grammar { IfOk result (λ q. IsQuery said.now [] (query_term_of q)) }
    ensures limits { IfOk result (λ q. IsWithinLimits (query_term_of q)) }
    ensures nodes { IfOk result (λ q. nodes_in (query_term_of q) ≤ most_text) }
    ensures refused { IfErr result (λ e. (e ≡ ParseErr.Memory)
        ⊎ (by_lexemes text.now tokens.now said.now ≡ Err e)) }
    ensures outside { IfErr result (λ e. IsOutside e said.now) }
{
    if is_nested(said) {
        return Err(ParseErr::TooDeep);
    }
    match read_all(alloc, said) {
        Ok(q) => {
            let q = limited(q)?;
            Ok(q)
        }
        Err(Stuck::At(left)) => Err(ParseErr::At(place_of(text, tokens, left))),
        Err(Stuck::Memory) => Err(ParseErr::Memory),
    }
}

/// The tokens of a text, and what they say.
fn scanned(alloc: Global, text: &[u8]) -> Result<Scanned, ParseErr>
    ensures tokens { IfOk result (λ s. tokenized text.now ≡ Ok s.tokens.items) }
    ensures lexemes { IfOk result (λ s. s.lexemes.items ≡ map (lexeme_of text.now) s.tokens.items) }
    ensures order { IfOk result (λ s. AreInOrder 0 s.tokens.items (length text.now)) }
    ensures short { IfOk result (λ s. length text.now ≤ most_text) }
    ensures few { IfOk result (λ s. length s.lexemes.items ≤ most_text) }
    ensures small { IfOk result (λ s. AreSmall s.lexemes.items) }
    ensures refused { IfErr result (λ e. (e ≡ ParseErr.Memory) ⊎ (tokenized text.now ≡ Err e)) }
{
    if text.len() > MOST_TEXT {
        return Err(ParseErr::TooLong);
    }
    let found = scan(alloc, text)?;
    Ok(found)
}

/// The tokens of a text, in order. It refuses a text that is too long, and then the first byte that begins no token.
pub fn tokens(alloc: Global, text: &[u8]) -> Result<Vec<Token>, ParseErr>
    ensures tokens { IfOk result (λ ts. tokenized text.now ≡ Ok ts.items) }
    ensures order { IfOk result (λ ts. AreInOrder 0 ts.items (length text.now)) }
    ensures refused { IfErr result (λ e. (e ≡ ParseErr.Memory) ⊎ (tokenized text.now ≡ Err e)) }
{
    let found = scanned(alloc, text)?;
    Ok(found.tokens)
}

/// The query of a text. What it refuses first is a text that has no tokens, as `tokens` does; then parentheses that are
/// nested too deep; then tokens that are not in the grammar, at the first one that can't follow; then a query past its
/// limits: its depth, its sums, its names.
#[tactic(auto, unfolding(crate::specs::Parsed::parsed))]
pub fn parse(alloc: Global, text: &[u8]) -> Result<Query, ParseErr>
    ensures answer { IfOk result (λ q. parsed text.now ≡ Ok (query_term_of q)) }
    ensures refused { IfErr result (λ e. (e ≡ ParseErr.Memory) ⊎ (parsed text.now ≡ Err e)) }
    ensures limits { IfOk result (λ q. IsWithinLimits (query_term_of q)) }
    ensures nodes { IfOk result (λ q. nodes_in (query_term_of q) ≤ most_text) }

    // The grammar gives this query for the text, and no other.
    ensures grammar { IfOk result (λ q. IsTextOf text.now (query_term_of q)) }
    ensures alone { IfOk result (λ q. (other : QueryTerm) → IsTextOf text.now other → other ≡ query_term_of q) }

    // The canonical text is no longer.
    ensures shortest { IfOk result (λ q. length (canonical_text (query_term_of q)) ≤ length text.now) }

    // Where a place is refused, the grammar gives none.
    ensures outside { IfErr result (λ e.
        (place : ℕ) → e ≡ ParseErr.At place → (q : QueryTerm) → IsTextOf text.now q → ⊥) }
{
    let found = scanned(alloc, text)?;
    let said = found.lexemes.as_slice();
    let q = by_lexemes(alloc, text, found.tokens.as_slice(), said)?;
    Ok(q)
}
