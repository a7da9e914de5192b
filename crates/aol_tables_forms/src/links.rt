ghost use Rattle.std.specs.Prelude.{◌≡◌, [], ◌∷◌, pos, IfOk};
ghost use Rattle.aol_link.specs.declared.link.When.TheVariants.{Low, Always};
ghost use Rattle.aol_link.specs.declared.link.Fallback.TheVariants.{Number};

use crate::made::is_point;
use aol_link::{Choice, Fallback, Interlink, When};
use aol_shape::{IntVec, Items, Name, Shape};
use std::alloc::Global;
use std::test::Fail;

/// A link to the repetition that is so much further, with these choices of a default.
fn link(alloc: Global, distance: i32, wrap: bool, rest: Items<Choice>) -> Result<Interlink, Fail> {
    Ok(Interlink {
        from: Name::from_str(alloc, "out")?,
        to: Name::from_str(alloc, "in")?,
        distance: IntVec::new(alloc, &[distance]).ok_or("no vector")?,
        wrap,
        rest,
    })
}

/// Whether the link comes from a repetition, and that repetition or the old number.
fn source(link: &Interlink, space: &Shape, r: u32) -> Option<(bool, u32)> {
    let mut found = [9];
    if link.distance.as_slice().len() == 1
        && space.as_slice().len() == 1
        && is_point(space.as_slice(), &[r])
    {
        let inside = link.before(space, &[r], &mut found);
        return Some((inside, found[0]));
    }
    None
}

#[test]
fn links_lead_to_earlier_repetitions(rt: HostRuntime) -> Result<(), Fail> {
    let alloc = rt.alloc();
    let space = Shape::new(alloc, &[3]).ok_or("no shape")?;
    let plain = link(alloc, 1, false, Items::new(alloc))?;
    let round = link(alloc, 1, true, Items::new(alloc))?;
    assert_eq!(rt; source(&plain, &space, 0), Some((false, 9)));
    assert_eq!(rt; source(&plain, &space, 2), Some((true, 1)));
    assert_eq!(rt; source(&round, &space, 0), Some((true, 2)));
    Ok(())
}

/// Two choices: one below the first dimension, and one for all that is left.
fn choices(alloc: Global) -> Result<Items<Choice>, Fail>
    ensures { IfOk result (λ cs. cs ≡ record { when = Low 0; take = Number (pos 100) } ∷ record { when = Always; take = Number (pos 10) } ∷ []) }
{
    let mut rest = Items::new(alloc);
    rest.push(Choice {
        when: When::Low(0),
        take: Fallback::Number(100),
    })?;
    rest.push(Choice {
        when: When::Always,
        take: Fallback::Number(10),
    })?;
    Ok(rest)
}

/// The number of the choice that stands in for a repetition whose source lies outside the space.
fn choice_at(alloc: Global, distance: i32, r: u32) -> Result<Option<u32>, Fail> {
    let space = Shape::new(alloc, &[3]).ok_or("no shape")?;
    let Some(distance) = IntVec::new(alloc, &[distance]) else {
        return Ok(None);
    };
    let link = Interlink {
        from: Name::from_str(alloc, "out")?,
        to: Name::from_str(alloc, "in")?,
        distance,
        wrap: false,
        rest: choices(alloc)?,
    };
    Ok(stand_in(&link, &space, r))
}

/// The same of a link with these choices.
fn stand_in(link: &Interlink, space: &Shape, r: u32) -> Option<u32>
    requires { link.now.rest ≡ record { when = Low 0; take = Number (pos 100) } ∷ record { when = Always; take = Number (pos 10) } ∷ [] }
{
    let mut found = [9];
    if link.distance.as_slice().len() != 1 || space.as_slice().len() != 1 {
        return None;
    }
    if !is_point(space.as_slice(), &[r]) || link.before(space, &[r], &mut found) {
        return None;
    }
    Some(link.choice(space, &[r]))
}

#[test]
fn the_first_choice_that_applies_stands_in(rt: HostRuntime) -> Result<(), Fail> {
    let alloc = rt.alloc();
    assert_eq!(rt; choice_at(alloc, 1, 0)?, Some(0));
    assert_eq!(rt; choice_at(alloc, -1, 2)?, Some(1));
    assert_eq!(rt; choice_at(alloc, 1, 1)?, None);
    Ok(())
}
