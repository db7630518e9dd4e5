// The declarations of the open elements.
ghost use Rattle.std.specs.Prelude.{◌≡◌, ◌++◌, [], ◌∷◌, IfOk, OnOk, MatchOption, MatchResult, List, length, map, reverse, drop, string_bytes};
ghost use Rattle.std.specs.Option.{option_map};
ghost use Rattle.rng_model.specs.names.NameViews.{namespace_bytes};
ghost use Rattle.pyx.specs.declared.namespaces.places.Declaration.{Declaration};
ghost use Rattle.pyx.specs.plain.Declarations.{beforehand, namespace_of};
ghost use Rattle.pyx.specs.views.DeclarationView.{AreFound, declaration_of};
ghost use Rattle.pyx.specs.views.FoundNamespaces.{found_bytes};
ghost use Rattle.pyx.specs.views.WrittenAttributes.{written_attribute};

use crate::namespaces::found::FoundNamespace;
use crate::namespaces::places::{Declaration, Places};
use crate::namespaces::written::{WrittenAttribute, XML_URI, declared_by};
use rng_model::{Namespace, OutOfMemory};
use std::alloc::Global;
use std::marker::Model;

/// The declarations of the open elements, in one list, and for each prefix the place of its innermost one.
///
/// A look-up costs a search in an ordered map, whatever is open. To add or remove a declaration costs a search too. Names
/// share the text of the namespace that is declared, and so do declarations of one namespace that follow one another.
/// Contracts see the list, the innermost first: of one tag the first one is innermost.
#[derive(Drop)]
pub struct Declarations {
    /// The innermost last.
    list: Vec<Declaration>,
    places: Places,
    /// The namespace that was declared last.
    last: Namespace,
}

impl Model for Declarations {
    ghost use Rattle.std.specs.Prelude.{List, map, reverse};
    ghost use Rattle.rng_model.specs.documents.PyxNamespaces as namespaces;
    ghost use Rattle.pyx.specs.views.DeclarationView.{AreFound, declaration_of};

    ghost Value = { List namespaces.WrittenAttribute };

    ghost view = { λ d. map declaration_of (reverse d.list.items) };

    ghost invariant = { λ d. AreFound d.places (reverse d.list.items) };
}

/// Returns the namespace of a prefix, or the default one, by the declarations that hold before any other.
fn beforehand(prefix: Option<&str>) -> Option<FoundNamespace<'static>>
    ensures { option_map found_bytes result ≡ beforehand (option_map (λ x. x.now) prefix.entry) }
{
    match prefix {
        None => Some(FoundNamespace::Beforehand("")),
        Some("xml") => Some(FoundNamespace::Beforehand(XML_URI)),
        Some(_) => None,
    }
}

/// Makes this the place of what a declaration of this name declares, and returns the place of the one that it hides.
fn cover(
    alloc: Global,
    places: &mut Places,
    name: &str,
    place: usize,
) -> Result<Option<usize>, OutOfMemory>
    ensures { IfOk result (λ hidden. (outer : List Declaration) (own : Declaration) → string_bytes own.name ≡ name.now → own.hidden ≡ hidden
        → length outer ≡ place → AreFound places.old outer → AreFound places.new (own ∷ outer)) }
{
    match declared_by(name) {
        Some(prefix) => places.set(alloc, prefix, place),
        None => Ok(None),
    }
}

/// Takes away the place of a declaration that was removed. The one that it hides holds again.
fn uncover(places: &mut Places, removed: &Declaration)
    ensures { (outer : List Declaration) → AreFound places.old (removed.now ∷ outer) → AreFound places.new outer }
{
    match declared_by(removed.name.as_str()) {
        Some(prefix) => places.restore(prefix, removed.hidden),
        None => {}
    }
}

/// Returns the namespace with this uri, and a buffer. If the last namespace has this uri, its text is shared, and the
/// buffer is that of the uri.
fn namespace_of(
    alloc: Global,
    last: &mut Namespace,
    uri: String,
) -> Result<(Namespace, String), OutOfMemory>
    ensures { IfOk result (λ x. namespace_bytes x.0 ≡ string_bytes uri) }
{
    if last.as_str() == uri.as_str() {
        return Ok((last.share()?, uri));
    }
    *last = Namespace::from_string(alloc, uri)?;
    Ok((last.share()?, String::new(alloc)))
}

/// Adds a declaration, which is then the innermost. Copies none of its texts.
fn add(
    alloc: Global,
    list: &mut Vec<Declaration>,
    places: &mut Places,
    last: &mut Namespace,
    written: WrittenAttribute,
) -> Result<(), OutOfMemory>
    requires { AreFound places.old (reverse list.old.items) }
    ensures found { OnOk result (AreFound places.new (reverse list.new.items)) }
    ensures added { OnOk result (map declaration_of (reverse list.new.items) ≡ written_attribute written ∷ map declaration_of (reverse list.old.items)) }
{
    let WrittenAttribute { name, value } = written;
    let (namespace, buffer) = namespace_of(alloc, last, value)?;
    let hidden = cover(alloc, places, name.as_str(), list.len())?;
    list.push(Declaration {
        name,
        namespace,
        buffer,
        hidden,
    })?;
    Ok(())
}

impl Declarations {
    /// Creates a value without declarations. Allocates nothing.
    pub fn new(alloc: Global) -> Self
        ensures { result ≡ [] }
    {
        Declarations {
            list: Vec::new(alloc),
            places: Places::new(alloc),
            last: Namespace::none(),
        }
    }

    /// Returns the declarations, the innermost last.
    pub fn as_slice(&self) -> &[Declaration]
        ensures { map declaration_of (reverse result.now) ≡ self.now }
    {
        self.list.as_slice()
    }

    /// Returns the namespace of a prefix, or the default one, where these declarations hold.
    pub fn namespace(&self, prefix: Option<&str>) -> Option<FoundNamespace<'_>>
        ensures { option_map found_bytes result ≡ namespace_of (self.now ∷ []) (option_map (λ x. x.now) prefix.entry) }
    {
        match self.places.get(prefix) {
            Some(place) => Some(FoundNamespace::Declared(&self.list[place].namespace)),
            None => beforehand(prefix),
        }
    }

    /// Adds a declaration, which is then the innermost. Removes all if memory runs out.
    fn push(&mut self, alloc: Global, written: WrittenAttribute) -> Result<(), OutOfMemory>
        ensures { MatchResult result (λ x. self.new ≡ written_attribute written ∷ self.old) (λ e. self.new ≡ []) }
    {
        match add(
            alloc,
            &mut self.list,
            &mut self.places,
            &mut self.last,
            written,
        ) {
            Ok(()) => Ok(()),
            Err(fault) => {
                self.list.clear();
                self.places.clear();
                Err(fault)
            }
        }
    }

    /// Removes the innermost declaration and returns it.
    pub fn pop(&mut self) -> Option<Declaration>
        ensures removed { self.new ≡ drop 1 self.old }
        ensures returned { MatchOption result (self.old ≡ []) (λ removed. self.old ≡ declaration_of removed ∷ self.new) }
    {
        match self.list.pop() {
            Some(removed) => {
                uncover(&mut self.places, &removed);
                Some(removed)
            }
            None => None,
        }
    }

    /// Adds the declarations of a tag, inside the others, and leaves the tag without them. Removes all declarations if
    /// memory runs out.
    pub fn add_tag(
        &mut self,
        alloc: Global,
        tag: &mut Vec<WrittenAttribute>,
    ) -> Result<(), OutOfMemory>
        ensures { MatchResult result (λ x. self.new ≡ map written_attribute tag.old.items ++ self.old) (λ e. self.new ≡ []) }
    {
        'declarations: while let Some(written) = tag.pop() {
            self.push(alloc, written)?;
        }
        Ok(())
    }
}
