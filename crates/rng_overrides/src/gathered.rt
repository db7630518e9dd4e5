// Components that are gathered for a grammar.
use rng_model::Component;

/// A component of a grammar, with the grammars that are nested in it.
///
/// RELAX NG Specification, sections 4.7 and 4.18.
#[derive(Drop)]
pub struct GatheredComponent<G: Drop> {
    pub component: Component,
    pub grammars: Vec<G>,
}
