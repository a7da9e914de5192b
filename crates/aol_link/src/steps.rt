ghost use Rattle.std.specs.Prelude.{◌≡◌, ◌+◌, ◌^◌, ◌<◌, ◌-ℤ◌, pos, length, true};
ghost use Rattle.std.specs.List.{list_all, AllByRecursion};
ghost use Rattle.aol_shape.specs.Shape.{IsEntry, IsPointOf};
ghost use Rattle.aol_shape.specs.Vectors.{wrapped, wrapped_point};
ghost use Rattle.aol_shape.specs.Vectors.{is_inside};
ghost use Rattle.aol_link.specs.Links.{stepped_back, applies, first_choice_from, ends_in_always, is_below};

use crate::link::{Choice, When};

/// An index less the entry of a distance.
fn stepped(index: u32, step: i32) -> i64
    ensures { result ≡ pos index -ℤ step }
{
    i64::from(index) - i64::from(step)
}

/// That difference modulo the entry of the space, from 0 up.
#[tactic(auto, using(crate::proofs::Outside::to_z_back))]
fn stepped_within(index: u32, step: i32, entry: u32) -> u32
    requires { 0 < entry }
    ensures { result ≡ wrapped (pos index -ℤ step) entry }
{
    stepped(index, step).rem_euclid(i64::from(entry)) as u32
}

/// Whether the indices less the distance are a point of the space.
#[tactic(auto, using(crate::proofs::Outside::to_z_back, crate::proofs::Outside::inside_at, crate::proofs::Outside::outside_low, crate::proofs::Outside::outside_high))]
pub fn leads_inside(space: &[u32], r: &[u32], distance: &[i32]) -> bool
    requires point { IsPointOf space.now r.now }
    requires same { length distance.now ≡ length space.now }
    ensures { result ≡ is_inside space.now (stepped_back r.now distance.now) }
{
    match (space.split_first(), r.split_first(), distance.split_first()) {
        (Some((entry, space)), Some((index, r)), Some((step, distance))) => {
            let index = stepped(*index, *step);
            if index < 0 || index >= i64::from(*entry) {
                return false;
            }
            leads_inside(space, r, distance)
        }
        _ => true,
    }
}

/// Writes the indices less the distance, modulo the space.
#[tactic(auto, using(crate::proofs::Outside::wrapped_at, crate::proofs::Outside::positive_at))]
pub fn step_back(space: &[u32], r: &[u32], distance: &[i32], found: &mut [u32])
    requires entries { AllByRecursion IsEntry space.now }
    requires indices { length r.now ≡ length space.now }
    requires steps { length distance.now ≡ length space.now }
    requires room { length found.old ≡ length space.now }
    ensures { found.new ≡ wrapped_point (stepped_back r.now distance.now) space.now }
{
    for (k, entry) in space.iter().enumerate() {
        found[k] = stepped_within(r[k], distance[k], *entry);
    }
}

/// Whether the choices of this kind are for the repetition `r`.
#[tactic(auto, using(crate::proofs::Outside::to_z_back, crate::proofs::Outside::low_at, crate::proofs::Outside::high_at))]
fn is_for(when: When, space: &[u32], r: &[u32], distance: &[i32]) -> bool
    requires dimension { is_below (length space.now) when ≡ true }
    requires indices { length r.now ≡ length space.now }
    requires steps { length distance.now ≡ length space.now }
    ensures { result ≡ applies when space.now (stepped_back r.now distance.now) }
{
    match when {
        When::Always => true,
        When::Low(k) => stepped(r[k as usize], distance[k as usize]) < 0,
        When::High(k) => {
            stepped(r[k as usize], distance[k as usize]) >= i64::from(space[k as usize])
        }
    }
}

/// The number of the first choice for the repetition `r`, where the first of the list has this number.
#[tactic(auto, using(crate::proofs::Outside::last_stays))]
pub fn first_for(number: u32, choices: &[Choice], space: &[u32], r: &[u32], distance: &[i32]) -> u32
    requires dimensions { list_all (λ c. is_below (length space.now) c.when) choices.now ≡ true }
    requires last { ends_in_always choices.now ≡ true }
    requires indices { length r.now ≡ length space.now }
    requires steps { length distance.now ≡ length space.now }
    requires few { number + length choices.now < 2 ^ 32 }
    ensures number { result ≡ first_choice_from number choices.now space.now (stepped_back r.now distance.now) }
    ensures within { result < number + length choices.now }
{
    match choices.split_first() {
        Some((choice, choices)) if !is_for(choice.when, space, r, distance) => {
            first_for(number + 1, choices, space, r, distance)
        }
        _ => number,
    }
}
