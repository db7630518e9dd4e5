// The lines of a printed grammar.
ghost use Rattle.std.specs.Prelude.{◌≡◌, ◌<◌, ◌++◌, OnOk, codes, flat_map, length};
ghost use Rattle.rng_model.specs.simple.Table.{grammar_of, tree_at};
ghost use Rattle.rng_model.specs.simple.TableRules.{IsPaired};
ghost use Rattle.rng_model.specs.names.NameViews.{class_of};
ghost use Rattle.rncv_model.specs.printed.Words.{class_text};
ghost use Rattle.rncv_model.specs.printed.PrintedText.{item_line, item_text, definition_line, namespace_line, pattern_text, reference};
ghost use Rattle.rnc_print.specs.views.Items.{AreItems, IsInside, item_at, items_seen};
ghost use Rattle.rnc_print.specs.plain.Lines.{braced_text};
ghost use Rattle.rnc_print.specs.views.Prefixes.{namespaces_seen};

use crate::datatype::{write_datatype, write_value};
use crate::items::{Item, Items};
use crate::literal::write_literal;
use crate::name_class::write_class;
use crate::prefixes::Prefixes;
use rng_model::{NameClass, OutOfMemory, PatternId, Simple, SimpleGrammar};
use std::alloc::Global;

/// The input for lines: a grammar, its items, and the namespaces that they write as prefixes.
#[derive(Clone, Copy)]
pub(crate) struct Lines<'a, 'b> {
    pub(crate) alloc: Global,
    pub(crate) grammar: &'a SimpleGrammar,
    pub(crate) items: &'b Items,
    pub(crate) prefixes: &'b Prefixes<'a>,
}

impl<'a, 'b> Lines<'a, 'b> {
    /// Writes the lines of all namespaces.
    pub(crate) fn write_namespaces(&self, text: &mut Vec<u8>) -> Result<(), OutOfMemory>
        ensures { OnOk result
            (text.new.items ≡ text.old.items ++ flat_map (namespace_line (namespaces_seen self.now.prefixes.now)) (namespaces_seen self.now.prefixes.now)) }
    {
        'namespaces: for ns in self.prefixes.namespaces.as_slice() {
            self.write_namespace_line(ns, text)?;
        }
        Ok(())
    }

    /// Writes the line of the start.
    pub(crate) fn write_start(&self, text: &mut Vec<u8>) -> Result<(), OutOfMemory>
        requires { AreItems self.now.grammar.now self.now.items.now }
        ensures { OnOk result (text.new.items ≡ text.old.items
            ++ definition_line (codes "start") (reference (items_seen self.now.grammar.now self.now.items.now) (grammar_of self.now.grammar.now).start)) }
    {
        text.extend_from_slice(b"start = ")?;
        self.write_reference(self.grammar.start(), text)?;
        Ok(text.push(b'\n')?)
    }

    /// Writes the lines of all items.
    pub(crate) fn write_items(&self, text: &mut Vec<u8>) -> Result<(), OutOfMemory>
        requires { AreItems self.now.grammar.now self.now.items.now }
        ensures { OnOk result (text.new.items ≡ text.old.items
            ++ flat_map
            (item_line (grammar_of self.now.grammar.now) (namespaces_seen self.now.prefixes.now) (items_seen self.now.grammar.now self.now.items.now))
            (items_seen self.now.grammar.now self.now.items.now)) }
    {
        'items: for item in self.items.all.as_slice() {
            self.write_item_line(*item, text)?;
        }
        Ok(())
    }

    /// Writes the reference to a pattern within a line: its name, or the pattern itself if it has no parts.
    fn write_reference(&self, id: PatternId, text: &mut Vec<u8>) -> Result<(), OutOfMemory>
        requires items { AreItems self.now.grammar.now self.now.items.now }
        requires inside { id.0 < length self.now.grammar.now.patterns }
        ensures { OnOk result
            (text.new.items ≡ text.old.items ++ reference (items_seen self.now.grammar.now self.now.items.now) (tree_at self.now.grammar.now.patterns id)) }
    {
        let Some(pattern) = self.grammar.pattern(id) else {
            return Ok(());
        };
        match pattern {
            Simple::NotAllowed => Ok(text.extend_from_slice(b"notAllowed")?),
            Simple::Empty => Ok(text.extend_from_slice(b"empty")?),
            Simple::Text => Ok(text.extend_from_slice(b"text")?),
            Simple::Data(datatype) => write_datatype(datatype, text),
            Simple::Value(value) => write_value(value, text),
            Simple::Element(element) => {
                self.items
                    .write_name(self.alloc, Item::Element(*element), text)
            }
            Simple::Attribute(_, _)
            | Simple::List(_)
            | Simple::DataExcept(_, _)
            | Simple::OneOrMore(_)
            | Simple::Group(_, _)
            | Simple::Interleave(_, _)
            | Simple::Choice(_, _) => { self.items.write_name(self.alloc, Item::Pattern(id), text) }
        }
    }

    /// Writes the reference to a pattern, in braces.
    fn write_braced(&self, id: PatternId, text: &mut Vec<u8>) -> Result<(), OutOfMemory>
        requires items { AreItems self.now.grammar.now self.now.items.now }
        requires inside { id.0 < length self.now.grammar.now.patterns }
        ensures { OnOk result (text.new.items
            ≡ text.old.items ++ braced_text (reference (items_seen self.now.grammar.now self.now.items.now) (tree_at self.now.grammar.now.patterns id))) }
    {
        text.extend_from_slice(b" { ")?;
        self.write_reference(id, text)?;
        Ok(text.extend_from_slice(b" }")?)
    }

    /// Writes a name class, and after it the reference to a pattern in braces.
    fn write_named(
        &self,
        class: &NameClass,
        body: PatternId,
        text: &mut Vec<u8>,
    ) -> Result<(), OutOfMemory>
        requires items { AreItems self.now.grammar.now self.now.items.now }
        requires paired { IsPaired class.now }
        requires inside { body.0 < length self.now.grammar.now.patterns }
        ensures { OnOk result (text.new.items ≡ text.old.items ++ (class_text (namespaces_seen self.now.prefixes.now) (class_of class.now)
            ++ braced_text (reference (items_seen self.now.grammar.now self.now.items.now) (tree_at self.now.grammar.now.patterns body)))) }
    {
        write_class(self.alloc, self.prefixes, class, text)?;
        self.write_braced(body, text)
    }

    /// Writes the references to two patterns with a connector between.
    fn write_joined(
        &self,
        left: PatternId,
        connector: &[u8],
        right: PatternId,
        text: &mut Vec<u8>,
    ) -> Result<(), OutOfMemory>
        requires items { AreItems self.now.grammar.now self.now.items.now }
        requires left { left.0 < length self.now.grammar.now.patterns }
        requires right { right.0 < length self.now.grammar.now.patterns }
        ensures { OnOk result
            (text.new.items ≡ text.old.items ++ (reference (items_seen self.now.grammar.now self.now.items.now) (tree_at self.now.grammar.now.patterns left)
            ++ (connector.now ++ reference (items_seen self.now.grammar.now self.now.items.now) (tree_at self.now.grammar.now.patterns right)))) }
    {
        self.write_reference(left, text)?;
        text.extend_from_slice(connector)?;
        self.write_reference(right, text)
    }

    /// Writes what is after `=` in the line of a pattern.
    fn write_pattern(&self, id: PatternId, text: &mut Vec<u8>) -> Result<(), OutOfMemory>
        requires items { AreItems self.now.grammar.now self.now.items.now }
        requires inside { id.0 < length self.now.grammar.now.patterns }
        ensures { OnOk result (text.new.items ≡ text.old.items ++ pattern_text (namespaces_seen self.now.prefixes.now)
            (items_seen self.now.grammar.now self.now.items.now) (tree_at self.now.grammar.now.patterns id)) }
    {
        let Some(pattern) = self.grammar.pattern(id) else {
            return Ok(());
        };
        match pattern {
            Simple::NotAllowed
            | Simple::Empty
            | Simple::Text
            | Simple::Element(_)
            | Simple::Data(_)
            | Simple::Value(_) => self.write_reference(id, text),
            Simple::Attribute(class, body) => {
                text.extend_from_slice(b"attribute ")?;
                self.write_named(class, *body, text)
            }
            Simple::List(body) => {
                text.extend_from_slice(b"list")?;
                self.write_braced(*body, text)
            }
            Simple::DataExcept(datatype, except) => {
                write_datatype(datatype, text)?;
                text.extend_from_slice(b" - ")?;
                self.write_reference(*except, text)
            }
            Simple::OneOrMore(body) => {
                self.write_reference(*body, text)?;
                Ok(text.extend_from_slice(b"+")?)
            }
            Simple::Group(left, right) => self.write_joined(*left, b", ", *right, text),
            Simple::Interleave(left, right) => self.write_joined(*left, b" & ", *right, text),
            Simple::Choice(left, right) => self.write_joined(*left, b" | ", *right, text),
        }
    }

    /// Writes what is after `=` in the line of an item.
    fn write_item(&self, item: Item, text: &mut Vec<u8>) -> Result<(), OutOfMemory>
        requires items { AreItems self.now.grammar.now self.now.items.now }
        requires inside { IsInside self.now.grammar.now item }
        ensures { OnOk result (text.new.items ≡ text.old.items ++ item_text (grammar_of self.now.grammar.now) (namespaces_seen self.now.prefixes.now)
            (items_seen self.now.grammar.now self.now.items.now) (item_at self.now.grammar.now item)) }
    {
        match item {
            Item::Element(id) => {
                let Some((class, body)) = self.grammar.element(id) else {
                    return Ok(());
                };
                text.extend_from_slice(b"element ")?;
                self.write_named(class, *body, text)
            }
            Item::Pattern(id) => self.write_pattern(id, text),
        }
    }

    /// Writes the line of an item.
    fn write_item_line(&self, item: Item, text: &mut Vec<u8>) -> Result<(), OutOfMemory>
        requires items { AreItems self.now.grammar.now self.now.items.now }
        requires inside { IsInside self.now.grammar.now item }
        ensures { OnOk result (text.new.items ≡ text.old.items ++ item_line (grammar_of self.now.grammar.now) (namespaces_seen self.now.prefixes.now)
            (items_seen self.now.grammar.now self.now.items.now) (item_at self.now.grammar.now item)) }
    {
        self.items.write_name(self.alloc, item, text)?;
        text.extend_from_slice(b" = ")?;
        self.write_item(item, text)?;
        Ok(text.push(b'\n')?)
    }

    /// Writes the line of a namespace.
    fn write_namespace_line(&self, ns: &str, text: &mut Vec<u8>) -> Result<(), OutOfMemory>
        ensures { OnOk result (text.new.items ≡ text.old.items ++ namespace_line (namespaces_seen self.now.prefixes.now) ns.now) }
    {
        text.extend_from_slice(b"namespace ")?;
        self.prefixes.write_prefix(self.alloc, ns, text)?;
        text.extend_from_slice(b" = ")?;
        write_literal(ns.as_bytes(), text)?;
        Ok(text.push(b'\n')?)
    }
}
