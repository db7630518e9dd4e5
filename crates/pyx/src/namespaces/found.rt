// Namespaces that were looked up.
ghost use Rattle.std.specs.Prelude.{◌≡◌};
ghost use Rattle.pyx.specs.views.FoundNamespaces.{found_bytes};

use rng_model::Namespace;

/// The namespace of a prefix, or the default one, as a look-up finds it.
#[derive(Clone, Copy)]
pub enum FoundNamespace<'a> {
    /// That of a declaration.
    Declared(&'a Namespace),
    /// That which holds before any declaration.
    Beforehand(&'static str),
}

impl<'a> FoundNamespace<'a> {
    /// Returns the uri.
    pub fn as_str(self) -> &'a str
        ensures { result.now ≡ found_bytes self.entry }
    {
        match self {
            FoundNamespace::Declared(namespace) => namespace.as_str(),
            FoundNamespace::Beforehand(uri) => uri,
        }
    }
}
