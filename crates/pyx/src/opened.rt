// Open elements.
ghost use Rattle.std.specs.Prelude.{◌≡◌, ◌<◌, ◌∷◌, ◌++◌, ◌==◌, ◌&&◌, [], IfOk, IfSome, OnOk, MatchResult, length, map, drop, true};
ghost use Rattle.std.specs.Option.{option_map};
ghost use Rattle.rng_model.specs.plain.Answers.{Gives};
ghost use Rattle.rng_model.specs.names.NameViews.{name_of};
ghost use Rattle.pyx.specs.plain.DocumentReader.{around, declared_in};
ghost use Rattle.pyx.specs.views.ElementView.{AreKnown, IsJudged, IsPlace, clause_of, is_innermost, name_at, names_of, open_as, resolved};
ghost use Rattle.pyx.specs.views.WrittenAttributes.{written_attribute};
ghost use Rattle.pyx.specs.views.Held.{opened_held};
ghost use Rattle.pyx.specs.plain.LineReader.{is_name};
ghost use Rattle.pyx.specs.plain.WrittenNames.{written_of};
ghost use Rattle.pyx.specs.plain.TagReader.{element_name};
ghost use Rattle.pyx.specs.plain.Declarations.{Declared, namespace_of};
ghost use Rattle.pyx.specs.views.FoundNamespaces.{found_bytes};

use crate::elements::{OpenElement, innermost, opened_len};
use crate::fault::LineFault;
use crate::known::{KnownName, find, forget, learn};
use crate::line::is_name;
use crate::namespaces::{Declarations, FoundNamespace, WrittenAttribute, cut_at, is_same};
use crate::spares::Spares;
use rng_model::{Name, OutOfMemory};
use std::alloc::Global;
use std::marker::Model;

/// The open elements, their declarations, and the names that have been looked up inside them.
///
/// A name stays known as long as the same declarations hold, so a name that occurs again among the same elements is not
/// looked up again. At most 256 names are kept, and all except one have at most 1,024 bytes, as have their namespaces.
/// Contracts see the elements, the innermost first, and the names in their places.
#[derive(Drop)]
pub struct OpenElements {
    /// The innermost last.
    opened: Vec<OpenElement>,
    declarations: Declarations,
    /// The names of the open elements as they are written, the innermost last. Behind them is the name of the tag that is
    /// being read. Each is a name or empty.
    written: String,
    /// Where the name of that tag begins.
    begun: usize,
    /// Its place among the names that are known, if it was known when the tag began.
    place: Option<usize>,
    /// A round ends where an element with a declaration is opened or closed.
    round: u64,
    /// Names of earlier rounds are unknown.
    known: Vec<KnownName>,
}

impl Model for OpenElements {
    ghost use Rattle.std.specs.Prelude.{drop, string_bytes, take};
    ghost use Rattle.pyx.specs.views.ElementView.{AreKept, Elements, names_of, stack_of};

    ghost Value = { Elements };

    ghost view = { λ e. record {
      opened = stack_of e.opened.items (take e.begun (string_bytes e.written)) e.declarations;
      begun = drop e.begun (string_bytes e.written);
      names = names_of e.known.items;
    } };

    ghost invariant = { λ e. AreKept e.opened.items e.declarations (string_bytes e.written) e.begun e.place e.round e.known.items };
}

/// Returns the place of the expanded name that a name has where these declarations hold. Looks it up if it is not known.
/// A prefix that is not declared breaks P11.
#[tactic(auto, unfolding(crate::specs::plain::TagReader::element_name, crate::specs::plain::WrittenNames::written_of))]
#[inline(always)]
fn place_of_name(
    alloc: Global,
    declarations: &Declarations,
    round: u64,
    known: &mut Vec<KnownName>,
    written: &str,
) -> Result<usize, LineFault>
    requires known { AreKnown (declarations.now ∷ []) round known.old.items }
    requires judged { IsJudged written.now }
    ensures known { AreKnown (declarations.now ∷ []) round known.new.items }
    ensures inside { IfOk result (λ at. at < length known.new.items) }
    ensures name { Gives clause_of (λ at. name_at (names_of known.new.items) at) result
        (resolved (element_name (declarations.now ∷ []) (written_of written.now))) }
{
    if let Some(at) = find(known.as_slice(), round, written) {
        return Ok(at);
    }
    let (prefix, local) = match cut_at(b':', written) {
        Some((prefix, local)) => (Some(prefix), local),
        None => (None, written),
    };
    match declarations.namespace(prefix) {
        Some(found) => Ok(learn(alloc, known, round, written, found, local)?),
        None => Err(LineFault::Clause(11)),
    }
}

/// Returns whether this is a name, and its place if it is known. A name that is known is not judged again.
#[inline(always)]
fn judge(known: &[KnownName], round: u64, name: &str) -> (bool, Option<usize>)
    ensures { (scope : Declared) → AreKnown scope round known.now → (result.0 ≡ is_name name.now) × IfSome result.1 (IsPlace scope name.now known.now) }
{
    if !name.is_empty() {
        if let Some(at) = find(known, round, name) {
            return (true, Some(at));
        }
    }
    (is_name(name), None)
}

/// Adds the declarations of a tag, inside the others. The names that are known are then unknown. Removes all declarations
/// if memory runs out.
#[inline(always)]
fn declare(
    alloc: Global,
    declarations: &mut Declarations,
    round: &mut u64,
    known: &mut Vec<KnownName>,
    tag: &mut Vec<WrittenAttribute>,
) -> Result<(), OutOfMemory>
    requires { AreKnown (declarations.old ∷ []) round.old known.old.items }
    ensures known { AreKnown (declarations.new ∷ []) round.new known.new.items }
    ensures declared { MatchResult result (λ x. declarations.new ≡ map written_attribute tag.old.items ++ declarations.old) (λ e. declarations.new ≡ []) }
{
    if tag.as_slice().is_empty() {
        return Ok(());
    }
    forget(round, known);
    declarations.add_tag(alloc, tag)
}

/// Removes the innermost declarations, so many, and keeps their buffers.
fn remove(declarations: &mut Declarations, count: usize, spares: &mut Spares)
    ensures { declarations.new ≡ drop count declarations.old }
{
    let mut left = count;
    'innermost: while left > 0 {
        if let Some(removed) = declarations.pop() {
            spares.keep(removed.name);
            spares.keep(removed.buffer);
        }
        left -= 1;
    }
}

/// Removes the declarations of a tag, the innermost so many. The names that are known are then unknown.
#[inline(always)]
fn undeclare(
    declarations: &mut Declarations,
    round: &mut u64,
    known: &mut Vec<KnownName>,
    count: usize,
    spares: &mut Spares,
)
    requires { AreKnown (declarations.old ∷ []) round.old known.old.items }
    ensures known { AreKnown (declarations.new ∷ []) round.new known.new.items }
    ensures removed { declarations.new ≡ drop count declarations.old }
{
    if count == 0 {
        return;
    }
    forget(round, known);
    remove(declarations, count, spares);
}

impl OpenElements {
    /// Creates a value with no open element. Allocates nothing.
    pub fn new(alloc: Global) -> Self
        ensures { result.opened ≡ [] }
    {
        OpenElements {
            opened: Vec::new(alloc),
            declarations: Declarations::new(alloc),
            written: String::new(alloc),
            begun: 0,
            place: None,
            round: 1,
            known: Vec::new(alloc),
        }
    }

    /// Returns the number of open elements.
    #[inline(always)]
    pub fn len(&self) -> usize
        ensures { result ≡ length self.now.opened }
    {
        self.opened.len()
    }

    /// Returns whether no element is open.
    #[inline(always)]
    pub fn is_empty(&self) -> bool
        ensures { result ≡ (length self.now.opened == 0) }
    {
        self.len() == 0
    }

    /// Returns how many bytes are kept of the open elements: their names and their declarations.
    pub fn held(&self) -> u64
        ensures { result ≡ opened_held self.now.opened }
    {
        let names = &self.written.as_str()[..self.begun];
        opened_len(self.opened.as_slice(), names, self.declarations.as_slice())
    }

    /// Returns the namespace of a prefix, or the default one, inside the open elements.
    #[inline(always)]
    pub fn namespace(&self, prefix: Option<&str>) -> Option<FoundNamespace<'_>>
        ensures { option_map found_bytes result ≡ namespace_of (declared_in self.now.opened) (option_map (λ x. x.now) prefix.entry) }
    {
        self.declarations.namespace(prefix)
    }

    /// Begins a tag if this is a name, and returns whether it is one. A name that is known is not judged again.
    #[inline(always)]
    pub fn begin(&mut self, name: &str) -> Result<bool, OutOfMemory>
        ensures judged { IfOk result (λ good. good ≡ is_name name.now) }
        ensures begun { IfOk result (λ good. good ≡ true → self.new.begun ≡ name.now) }
        ensures opened { self.new.opened ≡ self.old.opened }
    {
        let (good, place) = judge(self.known.as_slice(), self.round, name);
        if !good {
            return Ok(false);
        }
        self.place = None;
        self.written.truncate(self.begun);
        self.written.push_str(name)?;
        self.place = place;
        Ok(true)
    }

    /// Opens the element of the tag that has begun, inside the innermost one, with these declarations, and leaves the tag
    /// without them. Returns the place of the expanded name. A prefix that is not declared breaks P11.
    ///
    /// A name that was known when the tag began is not looked up again, unless the tag declares something.
    #[inline(always)]
    pub fn open(
        &mut self,
        alloc: Global,
        tag: &mut Vec<WrittenAttribute>,
    ) -> Result<usize, LineFault>
        ensures opened { OnOk result (self.new.opened ≡ open_as self.old.begun tag.old.items ∷ self.old.opened) }
        ensures inside { IfOk result (λ at. at < length self.new.names) }
        ensures name { Gives clause_of (λ at. name_at self.new.names at) result
            (resolved (element_name (map written_attribute tag.old.items ∷ declared_in self.old.opened) (written_of self.old.begun))) }
    {
        match self.place {
            Some(at) if tag.is_empty() => {
                self.place = None;
                let start = self.begun;
                self.opened.push(OpenElement { start, count: 0 })?;
                self.begun = self.written.len();
                Ok(at)
            }
            _ => self.open_by_lookup(alloc, tag),
        }
    }

    /// The same by a lookup of the name.
    #[inline(never)]
    fn open_by_lookup(
        &mut self,
        alloc: Global,
        tag: &mut Vec<WrittenAttribute>,
    ) -> Result<usize, LineFault>
        ensures opened { OnOk result (self.new.opened ≡ open_as self.old.begun tag.old.items ∷ self.old.opened) }
        ensures inside { IfOk result (λ at. at < length self.new.names) }
        ensures name { Gives clause_of (λ at. name_at self.new.names at) result
            (resolved (element_name (map written_attribute tag.old.items ∷ declared_in self.old.opened) (written_of self.old.begun))) }
    {
        let count = tag.len();
        self.place = None;
        let start = self.begun;
        self.opened.push(OpenElement { start, count })?;
        self.begun = self.written.len();
        declare(
            alloc,
            &mut self.declarations,
            &mut self.round,
            &mut self.known,
            tag,
        )?;
        let name = &self.written.as_str()[start..];
        place_of_name(alloc, &self.declarations, self.round, &mut self.known, name)
    }

    /// Returns whether this is a name and that of the innermost element. The names of open elements are names, so it is
    /// enough to compare them.
    #[inline(always)]
    pub fn is_innermost(&self, name: &str) -> bool
        ensures { result ≡ is_name name.now && is_innermost (written_of name.now) self.now.opened }
    {
        match innermost(self.opened.as_slice()) {
            Some((element, _)) => {
                let names = &self.written.as_str()[..self.begun];
                !name.is_empty() && is_same(&names[element.start..], name)
            }
            None => false,
        }
    }

    /// Returns the name in a place.
    #[inline(always)]
    pub fn name(&self, at: usize) -> &Name
        requires { at < length self.now.names }
        ensures { name_of result.now ≡ name_at self.now.names at }
    {
        &self.known[at].name
    }

    /// Closes the innermost element. The name of a tag that has begun is lost.
    #[inline(always)]
    pub fn close(&mut self, spares: &mut Spares)
        ensures { self.new.opened ≡ around self.old.opened }
    {
        self.place = None;
        let closed = self.opened.pop();
        if let Some(element) = closed {
            self.written.truncate(element.start);
            self.begun = element.start;
            undeclare(
                &mut self.declarations,
                &mut self.round,
                &mut self.known,
                element.count,
                spares,
            );
        }
    }
}
