// Items: the elements and patterns with lines of their own, in the order in which they are first written.
ghost use Rattle.std.specs.Prelude.{◌≡◌, ◌<◌, ◌++◌, decimal, IfSome, OnOk, IfOk, length, map, option_to_list};
ghost use Rattle.rng_model.specs.simple.Table.{grammar_of, tree_at};
ghost use Rattle.rng_model.specs.simple.TableRules.{IsTable};
ghost use Rattle.rnc_print.specs.declared.items.Item.TheVariants as items;
ghost use Rattle.rncv_model.specs.printed.Items.{and_new, IsItemsOf, named_item, mentions, parts_of, same_item};
ghost use Rattle.rnc_print.specs.plain.PatternCodes.{number_at};
ghost use Rattle.rnc_print.specs.views.Items.{AreIndexed, AreItems, AreWith, IsInside, item_at, items_seen, numbered_name};

use crate::tree_numbers::tree_numbers;
use indexmap::IndexSet;
use rng_model::{ElementId, OutOfMemory, PatternId, Simple, SimpleGrammar};
use std::alloc::Global;

/// An element, or a pattern with parts.
#[derive(Clone, Copy)]
pub(crate) enum Item {
    Element(ElementId),
    Pattern(PatternId),
}

/// Items of a grammar, in the order in which they are first written.
#[derive(Drop)]
pub(crate) struct Items {
    pub(crate) all: Vec<Item>,
    /// The elements among them. The index of each is its number.
    pub(crate) elements: IndexSet<ElementId>,
    /// The numbers of the patterns among them.
    pub(crate) trees: IndexSet<usize>,
    /// A number for each pattern of the grammar. Equal patterns have the same number.
    pub(crate) numbers: Vec<usize>,
}

impl Items {
    /// Finds all items of a grammar.
    #[tactic(auto, using(crate::proofs::ItemLines::all_lines))]
    pub(crate) fn of_grammar(alloc: Global, grammar: &SimpleGrammar) -> Result<Self, OutOfMemory>
        ensures items { IfOk result (AreItems grammar.now) }
        ensures numbered { IfOk result (λ items. IsItemsOf (grammar_of grammar.now) (items_seen grammar.now items)) }
    {
        let start = grammar.start();
        let numbers = tree_numbers(alloc, grammar)?;
        let mut found = Items {
            all: Vec::new(alloc),
            elements: IndexSet::new(alloc),
            trees: IndexSet::new(alloc),
            numbers,
        };
        found.add_written(grammar, start)?;
        let mut lines = 0;
        'lines: while lines < found.all.len() {
            let item = found.all[lines];
            found.add_mentions(grammar, item)?;
            lines += 1;
        }
        Ok(found)
    }

    /// Adds the items that are written in the line of an item.
    fn add_mentions(&mut self, grammar: &SimpleGrammar, item: Item) -> Result<(), OutOfMemory>
        requires items { AreItems grammar.now self.old }
        requires inside { IsInside grammar.now item }
        ensures items { OnOk result (AreItems grammar.now self.new) }
        ensures added { OnOk result (items_seen grammar.now self.new
            ≡ and_new same_item (items_seen grammar.now self.old) (mentions (grammar_of grammar.now) (item_at grammar.now item))) }
    {
        match item {
            Item::Element(id) => match grammar.element(id) {
                Some((_, body)) => self.add_written(grammar, *body),
                None => Ok(()),
            },
            Item::Pattern(id) => self.add_parts(grammar, id),
        }
    }

    /// Adds the items that are written in the line of a pattern.
    fn add_parts(&mut self, grammar: &SimpleGrammar, id: PatternId) -> Result<(), OutOfMemory>
        requires items { AreItems grammar.now self.old }
        requires inside { id.0 < length grammar.now.patterns }
        ensures items { OnOk result (AreItems grammar.now self.new) }
        ensures added { OnOk result (items_seen grammar.now self.new
            ≡ and_new same_item (items_seen grammar.now self.old) (parts_of (tree_at grammar.now.patterns id))) }
    {
        match grammar.pattern(id) {
            Some(
                Simple::Attribute(_, body)
                | Simple::List(body)
                | Simple::DataExcept(_, body)
                | Simple::OneOrMore(body),
            ) => self.add_written(grammar, *body),
            Some(Simple::Group(a, b) | Simple::Interleave(a, b) | Simple::Choice(a, b)) => {
                self.add_written(grammar, *a)?;
                self.add_written(grammar, *b)
            }
            _ => Ok(()),
        }
    }

    /// Adds the item that is written for a pattern within a line.
    fn add_written(&mut self, grammar: &SimpleGrammar, id: PatternId) -> Result<(), OutOfMemory>
        requires items { AreItems grammar.now self.old }
        requires inside { id.0 < length grammar.now.patterns }
        ensures items { OnOk result (AreItems grammar.now self.new) }
        ensures added { OnOk result (items_seen grammar.now self.new
            ≡ and_new same_item (items_seen grammar.now self.old) (named_item (tree_at grammar.now.patterns id))) }
    {
        match item_of(grammar, id) {
            Some(item) => self.add(item),
            None => Ok(()),
        }
    }

    /// Adds an item, unless it is already there.
    fn add(&mut self, item: Item) -> Result<(), OutOfMemory>
        requires { AreIndexed self.old }
        ensures { OnOk result (AreWith self.old item self.new) }
    {
        match item {
            Item::Element(id) => self.add_element(id),
            Item::Pattern(id) => self.add_pattern(id),
        }
    }

    /// Adds an element, unless it is already there.
    fn add_element(&mut self, id: ElementId) -> Result<(), OutOfMemory>
        requires { AreIndexed self.old }
        ensures { OnOk result (AreWith self.old (items.Element id) self.new) }
    {
        if self.elements.insert(id)? {
            self.all.push(Item::Element(id))?;
        }
        Ok(())
    }

    /// Adds a pattern, unless an equal one is already there.
    fn add_pattern(&mut self, id: PatternId) -> Result<(), OutOfMemory>
        requires { AreIndexed self.old }
        ensures { OnOk result (AreWith self.old (items.Pattern id) self.new) }
    {
        let number = self.number(id);
        if self.trees.insert(number)? {
            self.all.push(Item::Pattern(id))?;
        }
        Ok(())
    }

    /// Returns the number of a pattern.
    fn number(&self, id: PatternId) -> usize
        ensures { result ≡ number_at self.now.numbers.items id }
    {
        self.numbers.get(id.0).copied().unwrap_or(0)
    }

    /// Writes the name of an item: `e` or `p`, and its number among those of its kind.
    pub(crate) fn write_name(
        &self,
        alloc: Global,
        item: Item,
        text: &mut Vec<u8>,
    ) -> Result<(), OutOfMemory>
        ensures { OnOk result (text.new.items ≡ text.old.items ++ numbered_name self.now item) }
    {
        match item {
            Item::Element(id) => {
                let number = self
                    .elements
                    .get_index_of(&id)
                    .unwrap_or(self.elements.len());
                write_numbered(alloc, "e", number, text)
            }
            Item::Pattern(id) => {
                let number = self
                    .trees
                    .get_index_of(&self.number(id))
                    .unwrap_or(self.trees.len());
                write_numbered(alloc, "p", number, text)
            }
        }
    }
}

/// Writes a letter and a number.
pub(crate) fn write_numbered(
    alloc: Global,
    letter: &str,
    number: usize,
    text: &mut Vec<u8>,
) -> Result<(), OutOfMemory>
    ensures { OnOk result (text.new.items ≡ text.old.items ++ (letter.now ++ decimal number)) }
{
    let name = format!(in alloc; "{letter}{number}")?;
    Ok(text.extend_from_slice(name.as_bytes())?)
}

/// Returns the item whose name is written for a pattern, if it is an item.
fn item_of(grammar: &SimpleGrammar, id: PatternId) -> Option<Item>
    requires table { IsTable grammar.now }
    requires inside { id.0 < length grammar.now.patterns }
    ensures item { map (item_at grammar.now) (option_to_list result) ≡ named_item (tree_at grammar.now.patterns id) }
    ensures inside { IfSome result (IsInside grammar.now) }
{
    match grammar.pattern(id)? {
        Simple::NotAllowed | Simple::Empty | Simple::Text | Simple::Data(_) | Simple::Value(_) =>
            None,
        Simple::Element(element) => Some(Item::Element(*element)),
        Simple::Attribute(_, _)
        | Simple::List(_)
        | Simple::DataExcept(_, _)
        | Simple::OneOrMore(_)
        | Simple::Group(_, _)
        | Simple::Interleave(_, _)
        | Simple::Choice(_, _) => Some(Item::Pattern(id)),
    }
}
