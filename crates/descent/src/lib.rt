//! Cuts over several series, the choice of a row, and the descent to a budget.
#![tactic(auto)]

ghost use Rattle.descent.specs.Kept.{KeptSaysAfresh};
ghost use Rattle.descent.specs.Laws.{EachBudgetIsMet, EachCutHoldsTheValue};
ghost use Rattle.descent.specs.Spelled.{SpellingTellsQueries};
ghost use Rattle.descent.specs.Worked.{DescentsAreWorked, OtherSumsAreWorked, ProductsAreWorked};

mod cells;
mod charges;
mod choosing;
mod cuts;
mod descents;
mod estimates;
mod frames;
mod keeping;
mod kept;
mod kept_says;
mod naming;
mod readers;
mod rooted;
mod rows;
mod said;
mod tables;

pub use cuts::Cut;
pub use descents::{Answer, DescentErr, descend};
pub use frames::cuts_are_frames;
pub use rooted::roots;
pub use rows::{CutRow, Rows};

/// A row, by its series and start.
#[derive(Clone, Copy, Debug, Drop, PartialEq, Eq)]
pub struct Pick {
    pub series: u32,
    pub start: u32,
}

/// Worked descents.
pub fn descents_are_worked()
    ensures whole { DescentsAreWorked }
    ensures others { OtherSumsAreWorked }
    ensures products { ProductsAreWorked }
{}

/// Every budget is met by one cut, a budget of 0 too.
pub fn every_budget_is_met()
    ensures { EachBudgetIsMet }
{}

/// What is kept by pieces says what a cut says afresh.
pub fn kept_says_afresh()
    ensures { KeptSaysAfresh }
{}

/// No two queries are spelled alike.
pub fn spelling_tells_queries()
    ensures { SpellingTellsQueries }
{}

/// The interval of each cut of a descent holds the value of the query.
pub fn every_cut_holds_the_value()
    ensures { EachCutHoldsTheValue }
{}
