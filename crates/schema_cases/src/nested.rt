// The grammars that are nested in a pattern.
use rng_model::{Place, SchemaPattern, SchemaRow};
use std::io;

/// Adds the places of the grammars in a pattern, in order.
pub fn add_nested<'a>(pattern: &'a SchemaPattern, places: &mut Vec<&'a Place>) -> io::Result<()> {
    for row in &pattern.rows {
        if let SchemaRow::Grammar(place) = row {
            places.push(place)?;
        }
    }
    Ok(())
}
