// What comes first.
use rng_deriv_ways::Place;
use rng_model::Attr;

/// What comes first, with its content.
#[derive(Clone, Copy)]
pub enum First<'a> {
    /// A string, tried at this place.
    Text(Place, &'a str),
    Attribute(&'a Attr),
}
