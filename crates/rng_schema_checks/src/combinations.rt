// How components of one name are combined, and whether there is a start.
ghost use Rattle.std.specs.Prelude.{◌≡◌, ◌∷◌, ◌++◌, ◌||◌, [], List, ℕ, IfOk, IsTrue, OnOk, Option, map, not};
ghost use Rattle.std.specs.List.{list_any};
ghost use Rattle.rng_model.specs.schema.Schema.{is_interleaved, same_component_name};
ghost use Rattle.rng_model.specs.views.SchemaView.{schema_component_of};
ghost use Rattle.rng_schema_checks.specs.plain.GrammarTests.{both_methods, breaks_combination, has, is_choice, is_interleaved_as, is_plain, lacks_start, names_in, seen_name, two_plain};

use indexmap::IndexSet;
use rng_model::{Component, Method, OutOfMemory};
use std::alloc::Global;

/// Whether two components of one name, or of the start, have `=`, or one has `|=` and one `&=`. Takes linear time,
/// apart from hash collisions.
///
/// RELAX NG Specification, section 4.17.
pub fn breaks_combination(alloc: Global, components: &[Component]) -> Result<bool, OutOfMemory>
    ensures { IfOk result (λ broken. broken ≡ breaks_combination (map schema_component_of components.now)) }
{
    Ok(has_two_plain(alloc, components)? || has_both_methods(alloc, components)?)
}

/// Whether a grammar with these components has no start. Allocates nothing.
///
/// RELAX NG Specification, section 4.18.
pub fn lacks_start(components: &[Component]) -> bool
    ensures { result ≡ lacks_start (map schema_component_of components.now) }
{
    for component in components {
        if component.name.is_none() {
            return false;
        }
    }
    true
}

/// Whether two components of one name have `=`.
fn has_two_plain(alloc: Global, components: &[Component]) -> Result<bool, OutOfMemory>
    ensures { IfOk result (λ broken. broken ≡ two_plain [] (map schema_component_of components.now)) }
{
    let mut names = IndexSet::new(alloc);
    for component in components {
        if !is_plain(component.method) {
            continue;
        }
        if !note(&mut names, name_of(component))? {
            return Ok(true);
        }
    }
    Ok(false)
}

/// Whether one of the components has `|=`, and one of the same name has `&=`.
fn has_both_methods(alloc: Global, components: &[Component]) -> Result<bool, OutOfMemory>
    ensures { IfOk result (λ broken. broken ≡ both_methods (map schema_component_of components.now)) }
{
    let interleaved = interleaved_names(alloc, components)?;
    for component in components {
        if !is_choice(component.method) {
            continue;
        }
        if has(&interleaved, name_of(component)) {
            return Ok(true);
        }
    }
    Ok(false)
}

/// The names of the components that have `&=`.
fn interleaved_names(
    alloc: Global,
    components: &[Component],
) -> Result<IndexSet<Option<&str>>, OutOfMemory>
    ensures { IfOk result (λ names. (y : Option (List ℕ)) → has (names_in names) y ≡ list_any (is_interleaved_as y) (map schema_component_of components.now)) }
{
    let mut names = IndexSet::new(alloc);
    for component in components {
        if !is_interleaved(component.method) {
            continue;
        }
        note(&mut names, name_of(component))?;
    }
    Ok(names)
}

/// Appends a name, unless the set has it. Returns whether it is new.
fn note<'a>(
    names: &mut IndexSet<Option<&'a str>>,
    name: Option<&'a str>,
) -> Result<bool, OutOfMemory>
    ensures new { IfOk result (λ new. new ≡ not (has (names_in names.old) (seen_name name.entry))) }
    ensures last { IfOk result (λ new. IsTrue new → names_in names.new ≡ names_in names.old ++ seen_name name.entry ∷ []) }
    ensures there { OnOk result ((y : Option (List ℕ)) → has (names_in names.new) y ≡ (has (names_in names.old) y || same_component_name y (seen_name name.entry))) }
{
    Ok(names.insert(name)?)
}

/// Whether the name is one of these.
fn has<'a>(names: &IndexSet<Option<&'a str>>, name: Option<&'a str>) -> bool
    ensures { result ≡ has (names_in names.now) (seen_name name.entry) }
{
    names.contains(&name)
}

/// The name of a component. A start has none.
fn name_of(component: &Component) -> Option<&str>
    ensures { seen_name result ≡ (schema_component_of component.now).name }
{
    component.name.as_deref()
}

/// Whether the method is `=`.
fn is_plain(method: Method) -> bool
    ensures { result ≡ is_plain method }
{
    match method {
        Method::Plain => true,
        Method::Choice | Method::Interleave => false,
    }
}

/// Whether the method is `|=`.
fn is_choice(method: Method) -> bool
    ensures { result ≡ is_choice method }
{
    match method {
        Method::Choice => true,
        Method::Plain | Method::Interleave => false,
    }
}

/// Whether the method is `&=`.
fn is_interleaved(method: Method) -> bool
    ensures { result ≡ is_interleaved method }
{
    match method {
        Method::Interleave => true,
        Method::Plain | Method::Choice => false,
    }
}
