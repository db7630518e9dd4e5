// Documents in pieces.
ghost use Rattle.std.specs.Prelude.{◌≡◌, ◌+◌, ◌<◌, ◌≤◌, ◌^◌, ◌++◌, true, length, ◌∷◌, IfSome, None, OnSome, Some, string_bytes};
ghost use Rattle.std.specs.Option.{option_map};
ghost use Rattle.std.specs.List.{list_all};
ghost use Rattle.pyx.specs.plain.PlainBytes.{is_plain};
ghost use Rattle.pyx.specs.plain.Cuts.{at_byte};
ghost use Rattle.pyx.specs.views.Held.{held};
ghost use Rattle.pyx.specs.plain.Pieces as pieces;
ghost use Rattle.pyx.specs.plain.Pieces.{weight};
ghost use Rattle.pyx.specs.views.View.{Concludes, Takes, progress_of};
ghost use Rattle.rng_model.specs.documents.EventViews.{Hands};

use crate::line::{LINE_LIMIT, Line};
use crate::marks::first_text_line;
use crate::namespaces::behind;
use crate::plain::plain_text;
use crate::state::State;
use memchr::{memchr, memrchr};
use rng_model::{Events, PyxFault};
use std::alloc::Global;

/// The state between two pieces.
#[derive(Drop)]
pub struct Pieces {
    state: State,
    /// The bytes after the last line feed.
    begun: Vec<u8>,
}

/// Returns the bytes before the first line feed, and those after it.
fn first_line(bytes: &[u8]) -> Option<(&[u8], &[u8])>
    ensures parts { option_map (λ x. (x.0.now, x.1.now)) result ≡ at_byte 10 bytes.now }
    ensures shorter { IfSome result (λ x. length x.0.now + length x.1.now < length bytes.now) }
{
    match memchr(b'\n', bytes) {
        Some(at) => Some((&bytes[..at], &bytes[at + 1..])),
        None => None,
    }
}

/// Returns the bytes up to and including the first line feed, those after it up to and including the last one, and the
/// rest.
fn parts(piece: &[u8]) -> (&[u8], &[u8], &[u8])
    ensures { piece.now ≡ result.0.now ++ (result.1.now ++ result.2.now) }
{
    let end = match memchr(b'\n', piece) {
        Some(at) => at + 1,
        None => piece.len(),
    };
    let (head, rest) = piece.split_at(end);
    let end = match memrchr(b'\n', rest) {
        Some(at) => at + 1,
        None => 0,
    };
    let (body, tail) = rest.split_at(end);
    (head, body, tail)
}

impl Pieces {
    /// Creates the state of a document that has had no bytes. Allocates nothing.
    pub fn new(alloc: Global) -> Self
        ensures { progress_of result ≡ pieces.nothing_fed }
    {
        Pieces {
            state: State::new(alloc),
            begun: Vec::new(alloc),
        }
    }

    /// Returns the number of bytes that are kept.
    pub fn held(&self) -> u64
        ensures { result ≡ held (progress_of self.now) }
    {
        (self.begun.len() as u64).saturating_add(self.state.held())
    }

    /// Rejects the line, which is too long with these bytes.
    #[tactic(auto, unfolding(crate::specs::plain::Pieces::overlong))]
    fn refuse<E: Events>(&mut self, more: &[u8], events: &mut E) -> Result<(), PyxFault>
        requires begun { length self.old.begun.items ≤ 65536 }
        requires weight { weight (progress_of self.old) + 65537 < 2 ^ 64 }
        ensures { Takes result (progress_of self.new) (Hands E.stands events.old events.new) (pieces.overlong more.now (progress_of self.old)) }
    {
        let end = more.len().min(LINE_LIMIT + 1 - self.begun.len());
        self.begun.extend_from_slice(&more[..end])?;
        let line = Line {
            bytes: self.begun.as_slice(),
            ended: false,
        };
        self.state.line(line, events)
    }

    /// Reads the line that ends after these bytes.
    #[tactic(auto, unfolding(crate::specs::plain::Pieces::line_taken))]
    fn line<E: Events>(&mut self, front: &[u8], events: &mut E) -> Result<(), PyxFault>
        requires begun { length self.old.begun.items ≤ 65536 }
        requires weight { weight (progress_of self.old) + 65537 < 2 ^ 64 }
        ensures { Takes result (progress_of self.new) (Hands E.stands events.old events.new) (pieces.line_taken front.now (progress_of self.old)) }
    {
        if front.len() > LINE_LIMIT - self.begun.len() {
            return self.refuse(front, events);
        }
        if self.begun.is_empty() {
            let line = Line {
                bytes: front,
                ended: true,
            };
            return self.state.line(line, events);
        }
        self.begun.extend_from_slice(front)?;
        let line = Line {
            bytes: self.begun.as_slice(),
            ended: true,
        };
        self.state.line(line, events)?;
        self.begun.clear();
        Ok(())
    }

    /// Reads the line that ends after this text of plain bytes. A literal text has no backslash.
    #[tactic(auto, unfolding(crate::specs::plain::Pieces::line_taken))]
    #[inline(always)]
    fn text_line<E: Events>(
        &mut self,
        text: &str,
        literal: bool,
        events: &mut E,
    ) -> Result<(), PyxFault>
        requires plain { list_all is_plain text.now ≡ true }
        requires literal { literal ≡ true → at_byte 92 text.now ≡ None }
        requires begun { length self.old.begun.items ≤ 65536 }
        requires weight { weight (progress_of self.old) + 65537 < 2 ^ 64 }
        ensures { Takes result (progress_of self.new) (Hands E.stands events.old events.new) (pieces.line_taken text.now (progress_of self.old)) }
    {
        if self.begun.is_empty() && text.len() <= LINE_LIMIT {
            return self.state.text_line(text, literal, events);
        }
        self.line(text.as_bytes(), events)
    }

    /// If this line is a text that is handed out where it is, returns the text, the name of the end tag in the line behind
    /// it, and what follows. The text has no backslash, no text is joined before it, and both lines are whole in this piece.
    #[inline(always)]
    fn text_in_place<'a>(
        &self,
        line: &'a str,
        literal: bool,
        after: &'a str,
    ) -> Option<(&'a str, &'a str, &'a str)>
        requires { literal ≡ true → at_byte 92 line.now ≡ None }
        ensures text { IfSome result (λ x. (line.now ≡ 45 ∷ x.0.now) × (at_byte 92 x.0.now ≡ None)) }
        ensures end { IfSome result (λ x. at_byte 10 after.now ≡ Some (41 ∷ x.1.now, x.2.now)) }
        ensures short { IfSome result (λ x. (length x.0.now < 65536) × (length x.1.now < 65536)) }
        ensures alone { OnSome result ((length self.now.begun.items ≡ 0) × (length (string_bytes self.now.state.joined) ≡ 0)) }
    {
        let text = behind(b'-', line)?;
        let rest = behind(b')', after)?;
        if !literal || !self.begun.is_empty() || !self.state.has_no_text() {
            return None;
        }
        let (name, _, rest) = first_text_line(rest)?;
        if text.len() < LINE_LIMIT && name.len() < LINE_LIMIT {
            Some((text, name, rest))
        } else {
            None
        }
    }

    /// Keeps bytes in which the line does not end.
    #[tactic(auto, unfolding(crate::specs::plain::Pieces::rest_taken))]
    fn keep<E: Events>(&mut self, rest: &[u8], events: &mut E) -> Result<(), PyxFault>
        requires begun { length self.old.begun.items ≤ 65536 }
        requires weight { weight (progress_of self.old) + 65537 < 2 ^ 64 }
        ensures { Takes result (progress_of self.new) (Hands E.stands events.old events.new) (pieces.rest_taken rest.now (progress_of self.old)) }
    {
        if rest.len() > LINE_LIMIT - self.begun.len() {
            return self.refuse(rest, events);
        }
        self.begun.extend_from_slice(rest)?;
        Ok(())
    }

    /// Reads bytes line by line.
    fn read_bytes<E: Events>(&mut self, bytes: &[u8], events: &mut E) -> Result<(), PyxFault>
        requires begun { length self.old.begun.items ≤ 65536 }
        requires weight { weight (progress_of self.old) + length bytes.now < 2 ^ 63 }
        ensures { Takes result (progress_of self.new) (Hands E.stands events.old events.new) (pieces.read bytes.now (progress_of self.old)) }
    {
        let mut rest = bytes;
        'lines: while let Some((front, after)) = first_line(rest) {
            self.line(front, events)?;
            rest = after;
        }
        self.keep(rest, events)
    }

    /// Reads a text of plain bytes line by line.
    fn read_text<E: Events>(&mut self, text: &str, events: &mut E) -> Result<(), PyxFault>
        requires plain { list_all is_plain text.now ≡ true }
        requires begun { length self.old.begun.items ≤ 65536 }
        requires weight { weight (progress_of self.old) + length text.now < 2 ^ 63 }
        ensures { Takes result (progress_of self.new) (Hands E.stands events.old events.new) (pieces.read text.now (progress_of self.old)) }
    {
        let mut rest = text;
        'lines: while let Some((front, literal, after)) = first_text_line(rest) {
            if let Some((text, name, behind)) = self.text_in_place(front, literal, after) {
                self.state.text_and_end(text, name, events)?;
                rest = behind;
                continue;
            }
            self.text_line(front, literal, events)?;
            rest = after;
        }
        self.keep(rest.as_bytes(), events)
    }

    /// Reads bytes line by line, as a text if all are plain.
    fn read_lines<E: Events>(&mut self, bytes: &[u8], events: &mut E) -> Result<(), PyxFault>
        requires begun { length self.old.begun.items ≤ 65536 }
        requires weight { weight (progress_of self.old) + length bytes.now < 2 ^ 63 }
        ensures { Takes result (progress_of self.new) (Hands E.stands events.old events.new) (pieces.read bytes.now (progress_of self.old)) }
    {
        match plain_text(bytes) {
            Some(text) => self.read_text(text, events),
            None => self.read_bytes(bytes, events),
        }
    }

    /// Reads a piece.
    pub fn read<E: Events>(&mut self, piece: &[u8], events: &mut E) -> Result<(), PyxFault>
        requires begun { length self.old.begun.items ≤ 65536 }
        requires weight { weight (progress_of self.old) + length piece.now < 2 ^ 63 }
        ensures { Takes result (progress_of self.new) (Hands E.stands events.old events.new) (pieces.read piece.now (progress_of self.old)) }
    {
        let (head, body, tail) = parts(piece);
        self.read_bytes(head, events)?;
        self.read_lines(body, events)?;
        self.read_bytes(tail, events)
    }

    /// Ends the document. The line that has begun is read, unless it is empty.
    #[tactic(auto, unfolding(crate::specs::plain::Pieces::finished, crate::specs::plain::DocumentReader::all_ended))]
    pub fn finish<E: Events>(self, events: &mut E) -> Result<(), PyxFault>
        requires begun { length self.begun.items ≤ 65536 }
        requires weight { weight (progress_of self) + 1 < 2 ^ 64 }
        ensures { Concludes result (Hands E.stands events.old events.new) (pieces.finished (progress_of self)) }
    {
        let Pieces { mut state, begun } = self;
        if begun.is_empty() {
            return state.finish();
        }
        let line = Line {
            bytes: begun.as_slice(),
            ended: false,
        };
        state.line(line, events)?;
        state.finish()
    }
}
