// From the components of a definition to its body in the graph.
ghost use Rattle.std.specs.Prelude.{◌≡◌, IfOk, OnOk, map, option_map};
ghost use Rattle.std.specs.List.{list_any};
ghost use Rattle.rng_model.specs.schema.Schema.{is_interleaved};
ghost use Rattle.rng_model.specs.views.SchemaView.{place_of, schema_component_of};
ghost use Rattle.rng_simple.specs.views.ComponentTable.{joining};
ghost use Rattle.rng_simple.specs.views.Definitions.{numbering_of};
ghost use Rattle.rng_simple.specs.views.GraphView.{combined, forest, graph_body_of};
ghost use Rattle.rng_simple.specs.plain.Resolving.{resolve_each};

use crate::graph::definitions::Numbering;
use crate::graph::parts::{GraphBody, GraphRow};
use crate::graph::resolving::Scope;
use rng_model::{Component, Method, OutOfMemory};

impl<'a> Scope<'a> {
    /// The body of a definition with these components.
    ///
    /// RELAX NG Specification, section 4.17.
    pub(crate) fn combined(
        self,
        components: &[&'a Component],
        numbering: &mut Numbering<'a>,
    ) -> Result<GraphBody<'a>, OutOfMemory>
        ensures body { IfOk result (λ b. graph_body_of b ≡ combined (joining (map (λ c. schema_component_of c.now) components.now))
            (resolve_each (place_of self.entry.place.now) (option_map (λ z. place_of z.now) self.entry.outer) (map (λ c. (schema_component_of c.now).pattern) components.now) (numbering_of numbering.old)).0) }
        ensures numbering { OnOk result (numbering_of numbering.new
            ≡ (resolve_each (place_of self.entry.place.now) (option_map (λ z. place_of z.now) self.entry.outer) (map (λ c. (schema_component_of c.now).pattern) components.now) (numbering_of numbering.old)).1) }
    {
        let rows = self.component_rows(components, numbering)?;
        if are_interleaved(components) {
            Ok(GraphBody::Interleave(rows))
        } else {
            Ok(GraphBody::Choice(rows))
        }
    }

    /// The rows of the patterns of components, in order.
    fn component_rows(
        self,
        components: &[&'a Component],
        numbering: &mut Numbering<'a>,
    ) -> Result<Vec<GraphRow<'a>>, OutOfMemory>
        ensures patterns { IfOk result (λ rows. forest rows.items
            ≡ (resolve_each (place_of self.entry.place.now) (option_map (λ z. place_of z.now) self.entry.outer) (map (λ c. (schema_component_of c.now).pattern) components.now) (numbering_of numbering.old)).0) }
        ensures numbering { OnOk result (numbering_of numbering.new
            ≡ (resolve_each (place_of self.entry.place.now) (option_map (λ z. place_of z.now) self.entry.outer) (map (λ c. (schema_component_of c.now).pattern) components.now) (numbering_of numbering.old)).1) }
    {
        let mut rows = Vec::with_capacity(self.alloc, components.len())?;
        for component in components {
            self.pattern(&component.pattern, &mut rows, numbering)?;
        }
        rows.shrink_to_fit();
        Ok(rows)
    }
}

/// Whether the method of one of the components is `&=`.
fn are_interleaved(components: &[&Component]) -> bool
    ensures { result ≡ list_any (λ c. is_interleaved c.method) (map (λ c. schema_component_of c.now) components.now) }
{
    for component in components {
        if is_interleaved(component.method) {
            return true;
        }
    }
    false
}

/// Whether the method is `&=`.
fn is_interleaved(method: Method) -> bool
    ensures { result ≡ is_interleaved method }
{
    match method {
        Method::Interleave => true,
        Method::Plain | Method::Choice => false,
    }
}
