// The forest type and the age of one hectare, from its tree groups.
#![tactic(auto)]

ghost use Rattle.std.specs.Prelude.{◌≡◌, length};
ghost use Rattle.laws.specs.{some};
ghost use Rattle.refusals.specs.{smallest};
ghost use Rattle.land_trees.specs.{out_of_range, other_type, bare_in, cases, hectare_of};

use forest::Forest;
use land_groups::{Group, MOST_GROUPS};
use refusals::{Refusal, Verdict, refuse_if};

const OLDEST_TREES: u16 = 300;

// In cm².
const MOST_BASAL_AREA: u32 = 1000000;

// The type and the age of a hectare.
#[derive(Clone, Copy)]
pub struct Hectare {
    pub forest: Forest,
    pub age: u16,
}

fn any_bare(groups: &[Group]) -> bool
    ensures { result ≡ bare_in groups.now }
{
    groups.iter().any(|g| g.is_of(Forest::Bare))
}

fn out_of_range(g: &Group) -> bool
    ensures { result ≡ out_of_range g.now }
{
    (OLDEST_TREES < g.age) | (g.basal_area == 0) | (MOST_BASAL_AREA < g.basal_area)
}

fn any_out_of_range(groups: &[Group]) -> bool
    ensures { result ≡ some out_of_range groups.now }
{
    groups.iter().any(|g| out_of_range(g))
}

fn other_type(g: &Group, h: &Group) -> bool
    ensures { result ≡ other_type g.now h.now }
{
    (h.species == g.species) & !h.is_of(g.forest)
}

// Whether the species of `g` also stands under another type.
fn two_types(groups: &[Group], g: &Group) -> bool
    ensures { result ≡ some (other_type g.now) groups.now }
{
    groups.iter().any(|h| other_type(g, h))
}

fn any_two_types(groups: &[Group]) -> bool
    ensures { result ≡ some (λ g. some (other_type g) groups.now) groups.now }
{
    groups.iter().any(|g| two_types(groups, g))
}

// The smallest number that applies to a list; what compares each group with each is asked of a short list alone.
#[tactic(auto, unfolding(crate::specs::Hectares::cases, refusals::specs::Refusals::smallest, refusals::specs::Refusals::weigh_all, refusals::specs::Refusals::weighed))]
fn judge(groups: &[Group]) -> Verdict
    ensures { result ≡ smallest (cases (length groups.now) (bare_in groups.now) groups.now) }
{
    refuse_if(any_bare(groups), Refusal::ForestType)?;
    refuse_if(
        groups.is_empty() | (MOST_GROUPS < groups.len()),
        Refusal::TreeList,
    )?;
    refuse_if(any_out_of_range(groups), Refusal::TreeList)?;
    refuse_if(any_two_types(groups), Refusal::TreeList)
}

// The type and age of the hectare with these tree groups, or the refusal of their list.
pub fn determine(groups: &[Group]) -> Result<Hectare, Refusal>
    ensures { result ≡ hectare_of groups.now }
{
    judge(groups)?;
    let leader = land_predominance::predominant(groups);
    let age = land_ages::hectare_age(groups, leader) as u16;
    Ok(Hectare {
        forest: leader.forest,
        age,
    })
}
