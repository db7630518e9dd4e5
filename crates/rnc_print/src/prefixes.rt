// The namespaces that are written as prefixes, by number.
ghost use Rattle.std.specs.Prelude.{◌≡◌, ◌++◌, [], OnOk, IfOk, map};
ghost use Rattle.std.specs.List.{AllByRecursion};
ghost use Rattle.std.specs.Str.{bytes_eq};
ghost use Rattle.rng_model.specs.simple.Table.{grammar_of};
ghost use Rattle.rng_model.specs.names.NameViews.{class_of};
ghost use Rattle.rncv_model.specs.printed.Items.{and_new, with_new};
ghost use Rattle.rncv_model.specs.printed.PrintedText.{namespaces, namespaces_in, namespaces_of};
ghost use Rattle.rncv_model.specs.printed.Words.{prefix_of};
ghost use Rattle.rnc_print.specs.views.Items.{IsInside, item_at};
ghost use Rattle.rnc_print.specs.views.Prefixes.{namespaces_seen};

use crate::items::{Item, write_numbered};
use indexmap::IndexSet;
use rng_model::{NameClass, OutOfMemory, Simple, SimpleGrammar};
use std::alloc::Global;

/// Namespaces, in the order in which they are first written as prefixes.
#[derive(Drop)]
pub(crate) struct Prefixes<'a> {
    pub(crate) namespaces: IndexSet<&'a str>,
}

impl<'a> Prefixes<'a> {
    /// Creates a value without namespaces.
    pub(crate) fn new(alloc: Global) -> Self
        ensures { namespaces_seen result ≡ [] }
    {
        Prefixes {
            namespaces: IndexSet::new(alloc),
        }
    }

    /// Collects the namespaces that the lines of these items write.
    pub(crate) fn of_items(
        alloc: Global,
        grammar: &'a SimpleGrammar,
        items: &[Item],
    ) -> Result<Self, OutOfMemory>
        requires { AllByRecursion (IsInside grammar.now) items.now }
        ensures { IfOk result (λ prefixes. namespaces_seen prefixes ≡ namespaces (grammar_of grammar.now) (map (item_at grammar.now) items.now)) }
    {
        let mut prefixes = Prefixes::new(alloc);
        'items: for item in items {
            prefixes.add_item(grammar, *item)?;
        }
        Ok(prefixes)
    }

    /// Adds the namespaces that the line of an item writes.
    fn add_item(&mut self, grammar: &'a SimpleGrammar, item: Item) -> Result<(), OutOfMemory>
        requires { IsInside grammar.now item }
        ensures { OnOk result
            (namespaces_seen self.new ≡ and_new bytes_eq (namespaces_seen self.old) (namespaces_of (grammar_of grammar.now) (item_at grammar.now item))) }
    {
        match item {
            Item::Element(id) => match grammar.element(id) {
                Some((class, _)) => self.add_class(class),
                None => Ok(()),
            },
            Item::Pattern(id) => match grammar.pattern(id) {
                Some(Simple::Attribute(class, _)) => self.add_class(class),
                _ => Ok(()),
            },
        }
    }

    /// Adds the namespaces of a name class.
    pub(crate) fn add_class(&mut self, class: &'a NameClass) -> Result<(), OutOfMemory>
        ensures { OnOk result (namespaces_seen self.new ≡ and_new bytes_eq (namespaces_seen self.old) (namespaces_in (class_of class.now))) }
    {
        match class {
            NameClass::Any => Ok(()),
            NameClass::AnyExcept(except) => self.add_class(except),
            NameClass::Ns(ns) => self.add(ns.as_str()),
            NameClass::NsExcept(ns, except) => {
                self.add(ns.as_str())?;
                self.add_class(except)
            }
            NameClass::Name(name) => {
                if name.ns.as_str().is_empty() {
                    return Ok(());
                }
                self.add(name.ns.as_str())
            }
            NameClass::Choice(members) => {
                'members: for member in members {
                    self.add_class(member)?;
                }
                Ok(())
            }
        }
    }

    /// Adds a namespace, unless it is already there.
    fn add(&mut self, ns: &'a str) -> Result<(), OutOfMemory>
        ensures { OnOk result (namespaces_seen self.new ≡ with_new bytes_eq (namespaces_seen self.old) ns.now) }
    {
        self.namespaces.insert(ns)?;
        Ok(())
    }

    /// Writes the prefix of a namespace.
    pub(crate) fn write_prefix(
        &self,
        alloc: Global,
        ns: &str,
        text: &mut Vec<u8>,
    ) -> Result<(), OutOfMemory>
        ensures { OnOk result (text.new.items ≡ text.old.items ++ prefix_of (namespaces_seen self.now) ns.now) }
    {
        let number = self
            .namespaces
            .get_index_of(ns)
            .unwrap_or(self.namespaces.len());
        write_numbered(alloc, "n", number, text)
    }
}
