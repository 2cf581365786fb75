ghost use Rattle.std.specs.Prelude.{◌≡◌, ◌≤◌, ◌++◌, IfOk, Ok, OnOk, length, true};
ghost use Rattle.std.specs.Fmt.{signed_decimal};
ghost use Rattle.std.specs.List.{list_all};
ghost use Rattle.std.specs.Option.{option_map};
ghost use Rattle.expr.specs.Terms.{query_term_of, range_of, term_of};
ghost use Rattle.semantics.specs.Limits.{IsWithinLimits};
ghost use Rattle.semantics.specs.Most.{most_text};
ghost use Rattle.semantics.specs.Term.{constant, covariance, sum, variance};
ghost use Rattle.expr_parse.specs.Parsed.{parsed};
ghost use Rattle.expr_parse.specs.Printed.{CanonicalIsParsed, CanonicalIsShortest, CanonicalIsText, HasMachineConstants, HasMachineEnds, HasMachineNumbers, HasMachineRange, IsMachineNumber, IsNamedQuery, IsNamedSeries, ParsedIsText, is_query_byte};
ghost use Rattle.expr_parse.specs.Canonical.{canonical_text, closed, ends_text, groups_product, groups_sum, opened, query_text, range_text, series_text};

use expr::{Bounds, Query, Series};
use num_text::{Memory, write_i128};
use std::alloc::Global;

/// What an operand stands in: a sum as its left or nothing at all, a product as its left or a sum as its right, or a
/// product as its right.
#[derive(Clone, Copy)]
pub(crate) enum Level {
    OfSum,
    OfProduct,
    OfFactor,
}

impl Level {
    fn groups_sum(self) -> bool
        ensures { result ≡ groups_sum self }
    {
        match self {
            Level::OfSum => false,
            Level::OfProduct | Level::OfFactor => true,
        }
    }

    fn groups_product(self) -> bool
        ensures { result ≡ groups_product self }
    {
        match self {
            Level::OfSum | Level::OfProduct => false,
            Level::OfFactor => true,
        }
    }
}

fn put_bytes(into: &mut Vec<u8>, bytes: &[u8]) -> Result<(), Memory>
    ensures { OnOk result (into.new.items ≡ into.old.items ++ bytes.now) }
{
    into.extend_from_slice(bytes)?;
    Ok(())
}

fn put(into: &mut Vec<u8>, text: &str) -> Result<(), Memory>
    ensures { OnOk result (into.new.items ≡ into.old.items ++ text.now) }
{
    put_bytes(into, text.as_bytes())?;
    Ok(())
}

fn put_opened(into: &mut Vec<u8>, grouped: bool) -> Result<(), Memory>
    ensures { OnOk result (into.new.items ≡ into.old.items ++ opened grouped) }
{
    put(into, if grouped { "(" } else { "" })?;
    Ok(())
}

fn put_closed(into: &mut Vec<u8>, grouped: bool) -> Result<(), Memory>
    ensures { OnOk result (into.new.items ≡ into.old.items ++ closed grouped) }
{
    put(into, if grouped { ")" } else { "" })?;
    Ok(())
}

fn write_whole(alloc: Global, into: &mut Vec<u8>, v: i128) -> Result<(), Memory>
    ensures appended { OnOk result (into.new.items ≡ into.old.items ++ signed_decimal v) }
    ensures held { IsMachineNumber v }
{
    write_i128(alloc, into, v)?;
    Ok(())
}

fn write_place(alloc: Global, into: &mut Vec<u8>, place: i64) -> Result<(), Memory>
    ensures appended { OnOk result (into.new.items ≡ into.old.items ++ signed_decimal place) }
    ensures held { IsMachineNumber place }
{
    write_i128(alloc, into, i128::from(place))?;
    Ok(())
}

fn write_range(alloc: Global, into: &mut Vec<u8>, bounds: Bounds) -> Result<(), Memory>
    ensures appended { OnOk result (into.new.items ≡ into.old.items ++ range_text (range_of bounds)) }
    ensures held { OnOk result (HasMachineEnds (range_of bounds)) }
{
    put(into, ",")?;
    write_place(alloc, into, bounds.l)?;
    put(into, ",")?;
    write_place(alloc, into, bounds.r)?;
    put(into, ")")?;
    Ok(())
}

fn write_ends(alloc: Global, into: &mut Vec<u8>, bounds: Option<Bounds>) -> Result<(), Memory>
    ensures appended { OnOk result (into.new.items ≡ into.old.items ++ ends_text (option_map range_of bounds)) }
    ensures held { OnOk result (HasMachineRange (option_map range_of bounds)) }
{
    match bounds {
        Some(bounds) => {
            write_range(alloc, into, bounds)?;
            Ok(())
        }
        None => {
            put(into, ")")?;
            Ok(())
        }
    }
}

fn write_constant(alloc: Global, into: &mut Vec<u8>, v: i128, bounds: Bounds) -> Result<(), Memory>
    ensures { OnOk result (into.new.items
        ≡ into.old.items ++ series_text Level.OfSum (constant v bounds.l bounds.r)) }
{
    put(into, "const(")?;
    write_i128(alloc, into, v)?;
    write_range(alloc, into, bounds)?;
    Ok(())
}

/// Appends the text of a series that stands in an operator of this level.
fn write_series(alloc: Global, into: &mut Vec<u8>, level: Level, t: &Series) -> Result<(), Memory>
    ensures appended { OnOk result (into.new.items ≡ into.old.items ++ series_text level (term_of t.now)) }
    ensures named { OnOk result (IsNamedSeries (term_of t.now)) }
    ensures held { OnOk result (HasMachineConstants (term_of t.now)) }
{
    match t {
        Series::Base(name) => put_bytes(into, name.bytes()),
        Series::Const { v, a, b } => write_constant(alloc, into, *v, Bounds { l: *a, r: *b }),
        Series::Bare(v) => write_whole(alloc, into, *v),
        Series::Plus(u, v) => {
            put_opened(into, level.groups_sum())?;
            write_series(alloc, into, Level::OfSum, u)?;
            put(into, "+")?;
            write_series(alloc, into, Level::OfProduct, v)?;
            put_closed(into, level.groups_sum())?;
            Ok(())
        }
        Series::Minus(u, v) => {
            put_opened(into, level.groups_sum())?;
            write_series(alloc, into, Level::OfSum, u)?;
            put(into, "-")?;
            write_series(alloc, into, Level::OfProduct, v)?;
            put_closed(into, level.groups_sum())?;
            Ok(())
        }
        Series::Times(u, v) => {
            put_opened(into, level.groups_product())?;
            write_series(alloc, into, Level::OfProduct, u)?;
            put(into, "*")?;
            write_series(alloc, into, Level::OfFactor, v)?;
            put_closed(into, level.groups_product())?;
            Ok(())
        }
        Series::Shift(u, k) => {
            put(into, "shift(")?;
            write_series(alloc, into, Level::OfSum, u)?;
            put(into, ",")?;
            write_place(alloc, into, *k)?;
            put(into, ")")?;
            Ok(())
        }
    }
}

fn write_sum(
    alloc: Global,
    into: &mut Vec<u8>,
    t: &Series,
    bounds: Option<Bounds>,
) -> Result<(), Memory>
    ensures appended { OnOk result (into.new.items
        ≡ into.old.items ++ query_text Level.OfSum (sum (term_of t.now) (option_map range_of bounds))) }
    ensures named { OnOk result (IsNamedSeries (term_of t.now)) }
    ensures held { OnOk result (HasMachineNumbers (sum (term_of t.now) (option_map range_of bounds))) }
{
    put(into, "sum(")?;
    write_series(alloc, into, Level::OfSum, t)?;
    write_ends(alloc, into, bounds)?;
    Ok(())
}

fn write_variance(
    alloc: Global,
    into: &mut Vec<u8>,
    t: &Series,
    bounds: Bounds,
) -> Result<(), Memory>
    ensures appended { OnOk result (into.new.items
        ≡ into.old.items ++ query_text Level.OfSum (variance (term_of t.now) (range_of bounds))) }
    ensures named { OnOk result (IsNamedSeries (term_of t.now)) }
    ensures held { OnOk result (HasMachineNumbers (variance (term_of t.now) (range_of bounds))) }
{
    put(into, "varnum(")?;
    write_series(alloc, into, Level::OfSum, t)?;
    write_range(alloc, into, bounds)?;
    Ok(())
}

fn write_covariance(
    alloc: Global,
    into: &mut Vec<u8>,
    t: &Series,
    u: &Series,
    bounds: Bounds,
) -> Result<(), Memory>
    ensures appended { OnOk result (into.new.items
        ≡ into.old.items ++ query_text Level.OfSum (covariance (term_of t.now) (term_of u.now) (range_of bounds))) }
    ensures named { OnOk result (IsNamedSeries (term_of t.now) × IsNamedSeries (term_of u.now)) }
    ensures held { OnOk result (HasMachineNumbers (covariance (term_of t.now) (term_of u.now) (range_of bounds))) }
{
    put(into, "covnum(")?;
    write_series(alloc, into, Level::OfSum, t)?;
    put(into, ",")?;
    write_series(alloc, into, Level::OfSum, u)?;
    write_range(alloc, into, bounds)?;
    Ok(())
}

/// Appends the text of a query that stands in an operator of this level.
fn write_query(alloc: Global, into: &mut Vec<u8>, level: Level, q: &Query) -> Result<(), Memory>
    ensures appended { OnOk result (into.new.items ≡ into.old.items ++ query_text level (query_term_of q.now)) }
    ensures named { OnOk result (IsNamedQuery (query_term_of q.now)) }
    ensures held { OnOk result (HasMachineNumbers (query_term_of q.now)) }
{
    match q {
        Query::Number(v) => write_whole(alloc, into, *v),
        Query::Sum(t, bounds) => write_sum(alloc, into, t, *bounds),
        Query::Var(t, bounds) => write_variance(alloc, into, t, *bounds),
        Query::Cov(t, u, bounds) => write_covariance(alloc, into, t, u, *bounds),
        Query::Add(a, b) => {
            put_opened(into, level.groups_sum())?;
            write_query(alloc, into, Level::OfSum, a)?;
            put(into, "+")?;
            write_query(alloc, into, Level::OfProduct, b)?;
            put_closed(into, level.groups_sum())?;
            Ok(())
        }
        Query::Sub(a, b) => {
            put_opened(into, level.groups_sum())?;
            write_query(alloc, into, Level::OfSum, a)?;
            put(into, "-")?;
            write_query(alloc, into, Level::OfProduct, b)?;
            put_closed(into, level.groups_sum())?;
            Ok(())
        }
        Query::Mul(a, b) => {
            put_opened(into, level.groups_product())?;
            write_query(alloc, into, Level::OfProduct, a)?;
            put(into, "*")?;
            write_query(alloc, into, Level::OfFactor, b)?;
            put_closed(into, level.groups_product())?;
            Ok(())
        }
    }
}

/// The text of a query: no blanks, canonical digits, and parentheses only where the tree needs them.
pub fn print(alloc: Global, q: &Query) -> Result<Vec<u8>, Memory>
    ensures canonical { IfOk result (λ text. text.items ≡ canonical_text (query_term_of q.now)) }

    // It has letters, digits, `_` and signs alone.
    ensures plain { IfOk result (λ text. list_all is_query_byte text.items ≡ true) }

    // It is parsed as the query again, where it is not too long.
    ensures read_again { IfOk result (λ text.
        IsWithinLimits (query_term_of q.now) → length text.items ≤ most_text
        → parsed text.items ≡ Ok (query_term_of q.now)) }
{
    let mut text = Vec::new(alloc);
    write_query(alloc, &mut text, Level::OfSum, q)?;
    Ok(text)
}

/// The grammar gives a query for its canonical text.
pub fn canonical_is_text()
    ensures { CanonicalIsText }
{}

/// A query within its limits is parsed from its canonical text.
pub fn canonical_is_parsed()
    ensures { CanonicalIsParsed }
{}

/// No text of a query is shorter than its canonical text.
pub fn canonical_is_shortest()
    ensures { CanonicalIsShortest }
{}

/// A text that is parsed as a query is a text of it.
pub fn parsed_is_text()
    ensures { ParsedIsText }
{}
