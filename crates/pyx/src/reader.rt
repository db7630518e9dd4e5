// The reader of documents.
ghost use Rattle.std.specs.Prelude.{◌≡◌, ◌+◌, ◌<◌, ◌≤◌, ◌^◌, [], length, IfSome, IfErr, OnOk, is_ok, if◌then◌else◌, Some, None, Err};
ghost use Rattle.pyx.specs.views.HeldCalls.{IsHeld};
ghost use Rattle.pyx.specs.plain.Pieces.{weight};
ghost use Rattle.pyx.specs.views.Calls.{Ends, Extends, IsFaultAfter, UnlessOutOfMemory};
ghost use Rattle.pyx.specs.views.ReaderAfterPiece.{Kept, Stands};
ghost use Rattle.rng_model.specs.documents.EventViews.{Hands};
ghost use Rattle.pyx.specs.views.View.{progress_of};

use crate::pieces::Pieces;
use rng_model::{Events, PyxFault};
use std::alloc::Global;
use std::marker::Model;

/// Reads a document in pieces and hands out its events.
#[derive(Drop)]
pub struct Reader {
    pieces: Pieces,
    fault: Option<PyxFault>,
    fed: u64,
}

impl Model for Reader {
    ghost Value = { Kept };

    ghost view = { λ r. record { progress = progress_of r.pieces; fault = r.fault; fed = r.fed } };

    ghost invariant = { λ r. (r.fed < 2 ^ 63) × (r.fault ≡ None → (weight (progress_of r.pieces) ≤ r.fed) × (length r.pieces.begun.items ≤ 65536)) };
}

impl Reader {
    /// Creates a reader that has been fed nothing. Allocates nothing.
    pub fn new(alloc: Global) -> Self
        ensures stands { Stands result [] [] }
        ensures fed { result.fed ≡ 0 }
        ensures fault { result.fault ≡ None }
    {
        Reader {
            pieces: Pieces::new(alloc),
            fault: None,
            fed: 0,
        }
    }

    /// Returns the number of bytes taken by the calls of `feed` that returned `Ok`. Allocates nothing.
    pub fn fed(&self) -> u64
        ensures { result ≡ self.now.fed }
    {
        self.fed
    }

    /// Returns how many bytes are kept. They are the line that has begun, the lines of the tag that is being read, the
    /// name and the declarations of each open element, and the text that is joined so far.
    ///
    /// It is at most 8,641,445,888. After a fault it is 0. Buffers for reuse, the at most 256 names that have been looked
    /// up and the namespace that was declared last are not counted. Allocates nothing. The cost is linear in the open
    /// elements and their declarations.
    pub fn held(&self) -> u64
        ensures held { IsHeld self.now result }
        ensures fault { IfSome self.now.fault (λ f. result ≡ 0) }
    {
        if self.fault.is_some() {
            return 0;
        }
        self.pieces.held()
    }

    /// Reads the next piece of the document, and hands out the events of the lines that it ends. All pieces together
    /// must have fewer than 2^63 bytes.
    ///
    /// A line is judged when its line feed comes or when it exceeds 65,536 bytes. A tag is judged at the line after it.
    /// An error is `PyxFault::At`, the broken clause with the least line, and there the least number, whatever comes
    /// after. Or it is `PyxFault::Memory`. After an error every call returns the same error. One pass over the piece.
    ///
    /// XML 1.0, sections 2.2 and 3.1; Namespaces in XML 1.0, sections 3 to 6.
    pub fn feed<E: Events>(&mut self, piece: &[u8], events: &mut E) -> Result<(), PyxFault>
        requires { self.old.fed + length piece.now < 2 ^ 63 }
        ensures stands { UnlessOutOfMemory result (Extends (Hands E.stands events.old events.new) self.old self.new piece.now) }
        ensures fault { IfErr result (λ f. (self.new.fault ≡ Some f) × IsFaultAfter self.new f) }
        ensures working { OnOk result (self.new.fault ≡ None) }
        ensures sticky { IfSome self.old.fault (λ f. (result ≡ Err f) × (self.new ≡ self.old)) }
        ensures fed { self.new.fed ≡ self.old.fed + (if is_ok result then length piece.now else 0) }
    {
        if let Some(fault) = self.fault {
            return Err(fault);
        }
        match self.pieces.read(piece, events) {
            Ok(()) => {
                self.fed += piece.len() as u64;
                Ok(())
            }
            Err(fault) => {
                self.fault = Some(fault);
                Err(fault)
            }
        }
    }

    /// Ends the document after the pieces, and hands out the events of a last line without a line feed.
    ///
    /// Returns `Ok` exactly if all bytes are a document. The events that were handed out are then its events. An error
    /// is `PyxFault::At`, the broken clause with the least line, and there the least number, or `PyxFault::Memory`.
    /// After an error of `feed` it is the same error. XML 1.0, sections 2.2 and 3.1; Namespaces in XML 1.0, sections 3 to
    /// 6. The cost is at most that of one line and one tag.
    pub fn finish<E: Events>(self, events: &mut E) -> Result<(), PyxFault>
        ensures document { UnlessOutOfMemory result (Ends (Hands E.stands events.old events.new) self result) }
        ensures sticky { IfSome self.fault (λ f. result ≡ Err f) }
    {
        if let Some(fault) = self.fault {
            return Err(fault);
        }
        self.pieces.finish(events)
    }
}
