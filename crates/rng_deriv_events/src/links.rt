// Ways out of elements.
ghost use Rattle.std.specs.Prelude.{◌≡◌, ◌⊎◌, ◌<◌, ◌++◌, ◌∷◌, [], All, IfOk, OnOk, Some, length, slice_get};
ghost use Rattle.rng_model.specs.names.Names as names;
ghost use Rattle.rng_names.specs.plain.Keys.{key_of};
ghost use Rattle.rng_deriv_events.specs.views.Basis.{reading_by};
ghost use Rattle.rng_deriv_events.specs.views.Levels.{AddsLinks, AddsOpened};
ghost use Rattle.rng_deriv_events.specs.views.Numbers.{IsInside, Longer};

use crate::derivatives::{Derivatives, StartWay};
use crate::level_table::{Link, Links, Numbers};
use rng_deriv_table::PatternNumber;
use rng_model::OutOfMemory;
use rng_names::NameKey;
use smallvec::SmallVec;
use std::alloc::Global;

/// The bodies of the elements that a start may begin, each once, and the ways out of them.
#[derive(Drop)]
pub struct Opened {
    pub bodies: Numbers,
    pub links: Links,
}

/// Returns the place of a body among others. If it is not there, adds it.
fn place_of(bodies: &mut Numbers, body: PatternNumber) -> Result<usize, OutOfMemory>
    ensures found { IfOk result (λ i. slice_get bodies.new.items i ≡ Some body) }
    ensures others { OnOk result ((bodies.new.items ≡ bodies.old.items) ⊎ (bodies.new.items ≡ bodies.old.items ++ body ∷ [])) }
{
    let place = bodies.len();
    for (known, other) in bodies.as_slice().iter().enumerate() {
        if *other == body {
            return Ok(known);
        }
    }
    bodies.push(body)?;
    Ok(place)
}

/// Adds the bodies of ways, and their links to the alternative at a place.
fn add_links(
    bodies: &mut Numbers,
    links: &mut Links,
    outer: usize,
    ways: &[StartWay],
) -> Result<(), OutOfMemory>
    ensures { OnOk result (AddsLinks outer ways.now bodies.old.items bodies.new.items links.old.items links.new.items) }
{
    'ways: for way in ways {
        let inner = place_of(bodies, way.body)?;
        links.push(Link {
            inner,
            outer,
            rest: way.rest,
        })?;
    }
    Ok(())
}

/// Returns what an element whose name has this key opens in each of the alternatives.
pub fn started<D: Derivatives>(
    derivatives: &mut D,
    alloc: Global,
    now: &[PatternNumber],
    key: NameKey,
) -> Result<Opened, OutOfMemory>
    requires now { All (IsInside (D.trees derivatives.old)) now.now }
    requires key { key.0 < length (D.basis derivatives.old).keys.names }
    ensures basis { OnOk result (D.basis derivatives.new ≡ D.basis derivatives.old) }
    ensures longer { OnOk result (Longer (D.trees derivatives.old) (D.trees derivatives.new)) }
    ensures opened { IfOk result (λ o. (q : names.Name) → key_of (D.basis derivatives.old).keys q ≡ key.0
        → AddsOpened (reading_by (D.basis derivatives.old)) q (D.trees derivatives.old) (D.trees derivatives.new) now.now o.bodies.items o.links.items) }
{
    let mut bodies = SmallVec::new(alloc);
    let mut links = SmallVec::new(alloc);
    'alternatives: for (outer, pattern) in now.iter().enumerate() {
        let ways = derivatives.starts(alloc, *pattern, key)?;
        add_links(&mut bodies, &mut links, outer, ways.as_slice())?;
    }
    Ok(Opened { bodies, links })
}
