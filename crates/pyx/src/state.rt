// Documents line by line.
ghost use Rattle.std.specs.Prelude.{◌≡◌, ◌+◌, ◌<◌, ◌^◌, ◌==◌, [], ◌∷◌, ℕ, List, length, map, is_some, IfOk, OnOk, None, string_bytes, false, true};
ghost use Rattle.std.specs.List.{list_all};
ghost use Rattle.std.specs.Option.{option_map};
ghost use Rattle.rng_model.specs.plain.Answers.{Gives};
ghost use Rattle.rng_model.specs.documents.PyxLines as lines;
ghost use Rattle.pyx.specs.plain.DocumentReader as reader;
ghost use Rattle.pyx.specs.plain.DocumentReader.{declared_in, followed};
ghost use Rattle.pyx.specs.views.ElementView.{clause_of, element_at};
ghost use Rattle.pyx.specs.views.WrittenAttributes.{written_attribute};
ghost use Rattle.pyx.specs.views.Held.{state_held};
ghost use Rattle.pyx.specs.plain.LineReader.{attribute_of, kind_of, named, said_of, text_of};
ghost use Rattle.pyx.specs.plain.Cuts.{at_byte, behind};
ghost use Rattle.pyx.specs.plain.WrittenNames.{written_of};
ghost use Rattle.pyx.specs.plain.Pieces.{ended_line};
ghost use Rattle.pyx.specs.plain.PlainBytes.{is_plain};
ghost use Rattle.pyx.specs.plain.Declarations.{declared_by};
ghost use Rattle.pyx.specs.plain.TagReader.{tag_read};
ghost use Rattle.pyx.specs.views.View.{Adds, EndsBy, Takes, line_of, state_of, state_with, tag_of};
ghost use Rattle.rng_model.specs.documents.EventViews.{Hands};

use crate::attributes::expand_attributes;
use crate::escapes::append;
use crate::fault::LineFault;
use crate::line::{Line, is_name, line_text};
use crate::namespaces::{
    WrittenAttribute, any_forbidden, behind, cut_at, declared_by, is_written_twice,
};
use crate::opened::OpenElements;
use crate::slots::is_named_twice;
use crate::spares::Spares;
use rng_model::{Attr, Event, EventKind, Events, OutOfMemory, PyxFault};
use std::alloc::Global;

/// The most `A` lines that a tag may have.
const ATTRIBUTE_LIMIT: usize = 256;

/// The most elements that may be open at once.
const OPEN_LIMIT: usize = 512;

/// The most bytes that a joined text may have.
const TEXT_LIMIT: usize = 1_048_576;

/// What the lines of a tag say behind its name. Names are as they are written.
#[derive(Drop)]
pub struct Tag {
    declarations: Vec<WrittenAttribute>,
    /// The `A` lines that declare nothing.
    others: Vec<WrittenAttribute>,
    /// The number of bytes in its lines, without their line feeds.
    bytes: u64,
}

/// The state between two lines.
#[derive(Drop)]
pub struct State {
    alloc: Global,
    /// Whether the last line belongs to a tag.
    in_tag: bool,
    /// That tag, or buffers for the next one.
    tag: Tag,
    /// The attributes of the start event of a tag, or space for them.
    attrs: Vec<Attr>,
    /// The open elements, without the element of the tag.
    elements: OpenElements,
    /// The text since the last tag.
    joined: String,
    /// Whether a root has begun.
    root: bool,
    lines: u64,
    spares: Spares,
}

impl Tag {
    /// Adds an `A` line of this many bytes, which is a declaration or not.
    fn add(
        &mut self,
        bytes: u64,
        declares: bool,
        attribute: WrittenAttribute,
    ) -> Result<(), OutOfMemory>
        requires room { self.old.bytes + bytes < 2 ^ 64 }
        requires declares { declares ≡ is_some (declared_by (written_attribute attribute).name) }
        ensures { OnOk result ((name : List ℕ) → tag_of name self.new ≡ reader.with_attribute bytes (written_attribute attribute) (tag_of name self.old)) }
    {
        self.bytes += bytes;
        if declares {
            self.declarations.push(attribute)?;
        } else {
            self.others.push(attribute)?;
        }
        Ok(())
    }
}

impl State {
    /// Creates the state of a document that has had no line. Allocates nothing.
    pub fn new(alloc: Global) -> Self
        ensures { state_of result ≡ reader.nothing_read }
    {
        State {
            alloc,
            in_tag: false,
            tag: Tag {
                declarations: Vec::new(alloc),
                others: Vec::new(alloc),
                bytes: 0,
            },
            attrs: Vec::new(alloc),
            elements: OpenElements::new(alloc),
            joined: String::new(alloc),
            root: false,
            lines: 0,
            spares: Spares::new(alloc),
        }
    }

    /// Returns the number of bytes that are kept.
    pub fn held(&self) -> u64
        ensures { result ≡ state_held (state_of self.now) }
    {
        let opened = self.elements.held();
        let tag = if self.in_tag { self.tag.bytes } else { 0 };
        tag.saturating_add(opened)
            .saturating_add(self.joined.len() as u64)
    }

    /// Returns a fault at the last line.
    fn fault(&self, clause: u8) -> PyxFault
        ensures { result ≡ PyxFault.At clause self.now.lines }
    {
        PyxFault::At {
            clause,
            line: self.lines,
        }
    }

    /// Opens the element of the tag, which is complete, with its attributes. Returns the place of its name.
    ///
    /// P11 is broken if a declaration is not allowed or a prefix is not declared. Otherwise P12 is broken if two of the
    /// `A` lines have the same name or two attributes the same expanded name. Namespaces in XML 1.0, sections 3 to 6.
    ///
    /// Only a tag with `A` lines is looked at as a whole.
    #[inline(always)]
    fn open_tag(&mut self) -> Result<usize, LineFault>
        ensures element { Gives clause_of (element_at self.new.elements.names self.new.attrs.items) result
            (tag_read (declared_in self.old.elements.opened) (written_of self.old.elements.begun) (map written_attribute self.old.tag.declarations.items)
            (map written_attribute self.old.tag.others.items)) }
        ensures inside { IfOk result (λ at. at < length self.new.elements.names) }
        ensures opened { OnOk result (state_of self.new ≡ reader.opened_by (tag_of self.old.elements.begun self.old.tag) (state_of self.old)) }
        ensures lines { self.new.lines ≡ self.old.lines }
    {
        if let ([], []) = (self.tag.declarations.as_slice(), self.tag.others.as_slice()) {
            self.attrs.clear();
            self.in_tag = false;
            return self.elements.open(self.alloc, &mut self.tag.declarations);
        }
        self.open_whole_tag()
    }

    /// The same for a tag with `A` lines or without them.
    #[tactic(auto, unfolding(crate::specs::plain::TagReader::tag_read))]
    #[inline(never)]
    fn open_whole_tag(&mut self) -> Result<usize, LineFault>
        ensures element { Gives clause_of (element_at self.new.elements.names self.new.attrs.items) result
            (tag_read (declared_in self.old.elements.opened) (written_of self.old.elements.begun) (map written_attribute self.old.tag.declarations.items)
            (map written_attribute self.old.tag.others.items)) }
        ensures inside { IfOk result (λ at. at < length self.new.elements.names) }
        ensures opened { OnOk result (state_of self.new ≡ reader.opened_by (tag_of self.old.elements.begun self.old.tag) (state_of self.old)) }
        ensures lines { self.new.lines ≡ self.old.lines }
    {
        if any_forbidden(self.tag.declarations.as_slice()) {
            return Err(LineFault::Clause(11));
        }
        let twice = is_written_twice(self.tag.declarations.as_slice());
        self.in_tag = false;
        let at = self.elements.open(self.alloc, &mut self.tag.declarations)?;
        expand_attributes(
            self.alloc,
            &self.elements,
            &mut self.spares,
            &mut self.tag.others,
            &mut self.attrs,
        )?;
        if twice || is_named_twice(self.attrs.as_slice()) {
            return Err(LineFault::Clause(12));
        }
        Ok(at)
    }

    /// Hands out the start event of the tag that has been read.
    fn close_tag<E: Events>(&mut self, events: &mut E) -> Result<(), PyxFault>
        requires lines { self.old.lines + 1 < 2 ^ 64 }
        requires tag { self.old.in_tag ≡ true }
        ensures { Takes result (state_of self.new) (Hands E.stands events.old events.new) (reader.close_tag (state_of self.old).tag (state_of self.old)) }
    {
        match self.open_tag() {
            Ok(at) => {
                let kind = EventKind::Start {
                    name: self.elements.name(at),
                    attrs: self.attrs.as_slice(),
                };
                events.event(Event {
                    line: self.lines + 1,
                    kind,
                })?;
                self.spares.keep_all(&mut self.attrs);
                Ok(())
            }
            Err(LineFault::Clause(clause)) => Err(self.fault(clause)),
            Err(LineFault::Memory) => Err(PyxFault::Memory),
        }
    }

    /// Completes the tag if the next line, which has these bytes, does not belong to it.
    #[tactic(auto, unfolding(crate::specs::plain::DocumentReader::tag_ended))]
    #[inline(always)]
    fn end_tag<E: Events>(&mut self, bytes: &[u8], events: &mut E) -> Result<(), PyxFault>
        requires { self.old.lines + 1 < 2 ^ 64 }
        ensures turn { Takes result (state_of self.new) (Hands E.stands events.old events.new) (reader.tag_ended bytes.now (state_of self.old)) }
        ensures ended { OnOk result (behind 65 bytes.now ≡ None → self.new.in_tag ≡ false) }
    {
        if let [b'A', ..] = bytes {
            return Ok(());
        }
        if !self.in_tag {
            return Ok(());
        }
        self.close_tag(events)
    }

    /// Hands out this text, or the joined one, unless it is empty. No text is joined after it.
    #[tactic(auto, unfolding(crate::specs::plain::DocumentReader::text_ended))]
    #[inline(always)]
    fn end_text<E: Events>(&mut self, text: Option<&str>, events: &mut E) -> Result<(), PyxFault>
        ensures text { Takes result (state_of self.new) (Hands E.stands events.old events.new)
            (reader.text_ended (state_with (option_map (λ x. x.now) text.entry) self.old)) }
        ensures begun { self.new.elements.begun ≡ self.old.elements.begun }
        ensures tag { self.new.in_tag ≡ self.old.in_tag }
    {
        let text = text.unwrap_or(self.joined.as_str());
        if !text.is_empty() {
            let kind = EventKind::Text(text);
            events.event(Event {
                line: self.lines,
                kind,
            })?;
        }
        self.joined.clear();
        Ok(())
    }

    /// Begins a start tag, in a line of this many bytes.
    #[tactic(auto, unfolding(crate::specs::plain::LineReader::named, crate::specs::plain::DocumentReader::said_read, crate::specs::plain::DocumentReader::started))]
    #[inline(always)]
    fn start<E: Events>(&mut self, bytes: u64, name: &str, events: &mut E) -> Result<(), PyxFault>
        ensures { Takes result (state_of self.new) (Hands E.stands events.old events.new)
            (reader.judged bytes (named lines.start name.now) (state_of self.old)) }
    {
        if !self.elements.begin(name)? {
            return Err(self.fault(6));
        }
        if self.root && self.elements.is_empty() {
            return Err(self.fault(9));
        }
        if self.elements.len() >= OPEN_LIMIT {
            return Err(self.fault(10));
        }
        self.end_text(None, events)?;
        self.tag.declarations.clear();
        self.tag.others.clear();
        self.tag.bytes = bytes;
        self.in_tag = true;
        self.root = true;
        Ok(())
    }

    /// Adds an `A` line of this many bytes to the tag.
    #[tactic(auto, unfolding(crate::specs::plain::DocumentReader::attributed))]
    fn add(&mut self, bytes: u64, name: &str, value: String) -> Result<(), PyxFault>
        requires { reader.tag_bytes (state_of self.old).tag + bytes < 2 ^ 64 }
        ensures { Adds result (state_of self.new)
            (reader.attributed bytes (record { name = written_of name.now; content = string_bytes value }) (state_of self.old)) }
    {
        if !self.in_tag {
            return Err(self.fault(7));
        }
        if self.tag.declarations.len() + self.tag.others.len() >= ATTRIBUTE_LIMIT {
            return Err(self.fault(10));
        }
        let attribute = WrittenAttribute {
            name: self.spares.copy(self.alloc, name)?,
            value,
        };
        self.tag.add(bytes, declared_by(name).is_some(), attribute)?;
        Ok(())
    }

    /// Reads an `A` line of this many bytes, given without its first byte. A literal line has no backslash.
    #[tactic(auto, unfolding(crate::specs::plain::LineReader::attribute_of, crate::specs::plain::DocumentReader::said_read))]
    #[inline(always)]
    fn attribute(&mut self, bytes: u64, line: &str, literal: bool) -> Result<(), PyxFault>
        requires room { reader.tag_bytes (state_of self.old).tag + bytes < 2 ^ 64 }
        requires literal { literal ≡ true → at_byte 92 line.now ≡ None }
        ensures { Adds result (state_of self.new) (reader.judged bytes (attribute_of line.now) (state_of self.old)) }
    {
        let Some((name, value)) = cut_at(b' ', line) else {
            return Err(self.fault(6));
        };
        let mut content = self.spares.take(self.alloc);
        if !append(&mut content, value, literal)? {
            return Err(self.fault(5));
        }
        if !is_name(name) {
            return Err(self.fault(6));
        }
        self.add(bytes, name, content)
    }

    /// Joins a text, in a line of this many bytes, to the text before it. A literal text has no backslash.
    #[tactic(auto, unfolding(crate::specs::plain::LineReader::text_of, crate::specs::plain::DocumentReader::said_read, crate::specs::plain::DocumentReader::joined_by))]
    #[inline(always)]
    fn text(&mut self, bytes: u64, text: &str, literal: bool) -> Result<(), PyxFault>
        requires { literal ≡ true → at_byte 92 text.now ≡ None }
        ensures { Adds result (state_of self.new) (reader.judged bytes (text_of text.now) (state_of self.old)) }
    {
        if !append(&mut self.joined, text, literal)? {
            return Err(self.fault(5));
        }
        if self.elements.is_empty() {
            return Err(self.fault(9));
        }
        if self.joined.len() > TEXT_LIMIT {
            return Err(self.fault(10));
        }
        Ok(())
    }

    /// Reads an end tag, in a line of this many bytes, behind this text or the joined one.
    #[tactic(auto, unfolding(crate::specs::plain::LineReader::named, crate::specs::plain::DocumentReader::said_read, crate::specs::plain::DocumentReader::ended))]
    #[inline(always)]
    fn end<E: Events>(
        &mut self,
        bytes: u64,
        name: &str,
        text: Option<&str>,
        events: &mut E,
    ) -> Result<(), PyxFault>
        requires { self.old.in_tag ≡ false }
        ensures { Takes result (state_of self.new) (Hands E.stands events.old events.new)
            (reader.judged bytes (named lines.end name.now) (state_with (option_map (λ x. x.now) text.entry) self.old)) }
    {
        if !self.elements.is_innermost(name) {
            let clause = if is_name(name) { 8 } else { 6 };
            return Err(self.fault(clause));
        }
        self.end_text(text, events)?;
        let kind = EventKind::End;
        events.event(Event {
            line: self.lines,
            kind,
        })?;
        self.elements.close(&mut self.spares);
        Ok(())
    }

    /// Reads a line whose content is this text. A literal line has no backslash.
    #[tactic(auto, unfolding(crate::specs::plain::LineReader::kind_of, crate::specs::plain::DocumentReader::said_read))]
    #[inline(always)]
    fn said<E: Events>(&mut self, text: &str, literal: bool, events: &mut E) -> Result<(), PyxFault>
        requires room { reader.tag_bytes (state_of self.old).tag + length text.now < 2 ^ 64 }
        requires literal { literal ≡ true → at_byte 92 text.now ≡ None }
        requires tag { behind 65 text.now ≡ None → self.old.in_tag ≡ false }
        ensures { Takes result (state_of self.new) (Hands E.stands events.old events.new)
            (reader.judged (length text.now) (kind_of text.now) (state_of self.old)) }
    {
        let bytes = text.len() as u64;
        if let Some(name) = behind(b'(', text) {
            return self.start(bytes, name, events);
        }
        if let Some(line) = behind(b'A', text) {
            return self.attribute(bytes, line, literal);
        }
        if let Some(value) = behind(b'-', text) {
            return self.text(bytes, value, literal);
        }
        if let Some(name) = behind(b')', text) {
            return self.end(bytes, name, None, events);
        }
        if behind(b'?', text).is_some() {
            return Ok(());
        }
        Err(self.fault(4))
    }

    /// Reads the next line. It can break only clauses that follow from the content of this text. A literal line has no
    /// backslash.
    #[tactic(auto, unfolding(crate::specs::plain::DocumentReader::line_read))]
    #[inline(always)]
    pub fn text_line<E: Events>(
        &mut self,
        text: &str,
        literal: bool,
        events: &mut E,
    ) -> Result<(), PyxFault>
        requires lines { self.old.lines + 1 < 2 ^ 64 }
        requires bytes { reader.tag_bytes (state_of self.old).tag + length text.now < 2 ^ 64 }
        requires good { said_of (ended_line text.now) ≡ kind_of text.now }
        requires literal { literal ≡ true → at_byte 92 text.now ≡ None }
        ensures { Takes result (state_of self.new) (Hands E.stands events.old events.new) (reader.line_read (ended_line text.now) (state_of self.old)) }
    {
        self.end_tag(text.as_bytes(), events)?;
        self.lines += 1;
        self.said(text, literal, events)
    }

    /// Returns whether no text is joined.
    #[inline(always)]
    pub fn has_no_text(&self) -> bool
        ensures { result ≡ (length (string_bytes self.now.joined) == 0) }
    {
        self.joined.is_empty()
    }

    /// Reads a line with this text, which has no backslash, and the next line, which ends a tag of this name. It hands out
    /// the text where it is, since no text is joined.
    #[inline(always)]
    pub fn text_and_end<E: Events>(
        &mut self,
        text: &str,
        name: &str,
        events: &mut E,
    ) -> Result<(), PyxFault>
        requires lines { self.old.lines + 2 < 2 ^ 64 }
        requires alone { length (string_bytes self.old.joined) ≡ 0 }
        requires short { (length text.now < 65536) × (length name.now < 65536) }
        requires literal { at_byte 92 text.now ≡ None }
        requires plain_text { list_all is_plain (45 ∷ text.now) ≡ true }
        requires plain_end { list_all is_plain (41 ∷ name.now) ≡ true }
        ensures { Takes result (state_of self.new) (Hands E.stands events.old events.new)
            (followed (reader.line_read (ended_line (45 ∷ text.now)) (state_of self.old)) (reader.line_read (ended_line (41 ∷ name.now)))) }
    {
        // The line of a text completes the tag in front of it.
        self.end_tag(b"-", events)?;
        self.lines += 1;
        if self.elements.is_empty() {
            return Err(self.fault(9));
        }
        self.lines += 1;
        self.end(name.len() as u64 + 1, name, Some(text), events)
    }

    /// Reads the next line.
    #[tactic(auto, unfolding(crate::specs::plain::DocumentReader::line_read))]
    pub fn line<E: Events>(&mut self, line: Line<'_>, events: &mut E) -> Result<(), PyxFault>
        requires lines { self.old.lines + 1 < 2 ^ 64 }
        requires bytes { reader.tag_bytes (state_of self.old).tag + length line.bytes.now < 2 ^ 64 }
        ensures { Takes result (state_of self.new) (Hands E.stands events.old events.new) (reader.line_read (line_of line.entry) (state_of self.old)) }
    {
        match line_text(line) {
            Ok(text) => self.text_line(text, false, events),
            Err(clause) => {
                self.end_tag(line.bytes, events)?;
                self.lines += 1;
                Err(self.fault(clause))
            }
        }
    }

    /// Ends the document after these lines. A tag at the end is judged, and its element is not ended.
    #[tactic(auto, unfolding(crate::specs::plain::DocumentReader::at_end))]
    pub fn finish(mut self) -> Result<(), PyxFault>
        ensures { EndsBy result (reader.at_end (state_of self)) }
    {
        if !self.in_tag {
            if self.root && self.elements.is_empty() {
                return Ok(());
            }
            return Err(self.fault(13));
        }
        match self.open_tag() {
            Ok(_) => Err(self.fault(13)),
            Err(LineFault::Clause(clause)) => Err(self.fault(clause)),
            Err(LineFault::Memory) => Err(PyxFault::Memory),
        }
    }
}
