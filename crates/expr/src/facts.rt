ghost use Rattle.std.specs.Prelude.{◌≡◌, find};
ghost use Rattle.std.specs.Option.{option_copied};
ghost use Rattle.semantics.specs.Admission.{count_at, greatest_at, is_unknown};
ghost use Rattle.expr.specs.Facts.{facts_of, is_of};

use crate::name::Name;

/// What is known of a series: how many readings it has and the greatest absolute one, in scaled units, 0 for none.
#[derive(Clone, Copy, Debug)]
pub struct Fact {
    pub name: Name,
    pub n: u32,
    pub d: u64,
}

pub(crate) fn fact_at<'a>(facts: &'a [Fact], name: &Name) -> Option<&'a Fact>
    ensures { option_copied result ≡ find (is_of name.now) facts.now }
{
    facts.iter().find(|fact| fact.name == *name)
}

#[tactic(auto, using(crate::proofs::FactLaws::looked_up))]
pub(crate) fn count_at(facts: &[Fact], name: &Name) -> u32
    ensures { result ≡ count_at (facts_of facts.now) name.now }
{
    fact_at(facts, name).map_or(0, |fact| fact.n)
}

#[tactic(auto, using(crate::proofs::FactLaws::looked_up))]
pub(crate) fn greatest_at(facts: &[Fact], name: &Name) -> u64
    ensures { result ≡ greatest_at (facts_of facts.now) name.now }
{
    fact_at(facts, name).map_or(0, |fact| fact.d)
}

#[tactic(auto, using(crate::proofs::FactLaws::looked_up))]
pub(crate) fn is_unknown(facts: &[Fact], name: &Name) -> bool
    ensures { result ≡ is_unknown (facts_of facts.now) name.now }
{
    fact_at(facts, name).is_none()
}
