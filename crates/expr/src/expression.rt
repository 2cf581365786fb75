ghost use Rattle.std.specs.Prelude.{◌≡◌, IfOk};
ghost use Rattle.expr.specs.Terms.{query_term_of, term_of};

use crate::name::Name;
use num_text::Memory;
use std::alloc::Global;

/// An expression over series, position by position.
#[derive(Drop)]
pub enum Series {
    /// A stored series.
    Base(Name),
    /// A constant at the positions from `a` to before `b`.
    Const { v: i128, a: i64, b: i64 },
    /// A constant at all positions.
    Bare(i128),
    Plus(Box<Series>, Box<Series>),
    Minus(Box<Series>, Box<Series>),
    Times(Box<Series>, Box<Series>),
    /// A series moved up by so many positions: at `i` it has the value at `i` less the shift.
    Shift(Box<Series>, i64),
}

/// The positions from `l` to before `r`.
#[derive(Clone, Copy, Debug, PartialEq, Eq)]
pub struct Bounds {
    pub l: i64,
    pub r: i64,
}

/// A query over sums of series. It is plain where it has no `Var` and no `Cov`.
#[derive(Drop)]
pub enum Query {
    Number(i128),
    /// The sum over a range, or over the whole domain.
    Sum(Series, Option<Bounds>),
    /// `N` times the sum of the squares less the square of the sum, over `N` positions.
    Var(Series, Bounds),
    /// `N` times the sum of the products less the product of the sums, over `N` positions.
    Cov(Series, Series, Bounds),
    Add(Box<Query>, Box<Query>),
    Sub(Box<Query>, Box<Query>),
    Mul(Box<Query>, Box<Query>),
}

impl Series {
    #[cycle(copy)]
    pub fn copy(&self, alloc: Global) -> Result<Series, Memory>
        ensures { IfOk result (λ t. term_of t ≡ term_of self.now) }
    {
        Ok(match self {
            Series::Base(name) => Series::Base(*name),
            Series::Const { v, a, b } => Series::Const {
                v: *v,
                a: *a,
                b: *b,
            },
            Series::Bare(v) => Series::Bare(*v),
            Series::Plus(u, v) => Series::Plus(u.copy_box(alloc)?, v.copy_box(alloc)?),
            Series::Minus(u, v) => Series::Minus(u.copy_box(alloc)?, v.copy_box(alloc)?),
            Series::Times(u, v) => Series::Times(u.copy_box(alloc)?, v.copy_box(alloc)?),
            Series::Shift(u, k) => Series::Shift(u.copy_box(alloc)?, *k),
        })
    }

    #[cycle(copy)]
    fn copy_box(&self, alloc: Global) -> Result<Box<Series>, Memory>
        ensures { IfOk result (λ t. term_of t.value ≡ term_of self.now) }
    {
        Ok(Box::new(alloc, self.copy(alloc)?)?)
    }
}

impl Query {
    #[cycle(copy_query)]
    pub fn copy(&self, alloc: Global) -> Result<Query, Memory>
        ensures { IfOk result (λ q. query_term_of q ≡ query_term_of self.now) }
    {
        Ok(match self {
            Query::Number(v) => Query::Number(*v),
            Query::Sum(t, bounds) => Query::Sum(t.copy(alloc)?, *bounds),
            Query::Var(t, bounds) => Query::Var(t.copy(alloc)?, *bounds),
            Query::Cov(t, u, bounds) => Query::Cov(t.copy(alloc)?, u.copy(alloc)?, *bounds),
            Query::Add(a, b) => Query::Add(a.copy_box(alloc)?, b.copy_box(alloc)?),
            Query::Sub(a, b) => Query::Sub(a.copy_box(alloc)?, b.copy_box(alloc)?),
            Query::Mul(a, b) => Query::Mul(a.copy_box(alloc)?, b.copy_box(alloc)?),
        })
    }

    #[cycle(copy_query)]
    fn copy_box(&self, alloc: Global) -> Result<Box<Query>, Memory>
        ensures { IfOk result (λ q. query_term_of q.value ≡ query_term_of self.now) }
    {
        Ok(Box::new(alloc, self.copy(alloc)?)?)
    }
}
