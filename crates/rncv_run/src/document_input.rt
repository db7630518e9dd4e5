// Judging the document that a device has left.
ghost use Rattle.std.specs.Prelude.{◌≡◌, ◌-◌, ◌^◌, ◌<◌, [], IfErr, IfOk, OnOk, IsErrOf};
ghost use Rattle.rng_model.specs.schema.Schema.{Schema};
ghost use Rattle.rng_model.specs.devices.Device.{device_inner, device_failures};
ghost use Rattle.rncv_model.specs.answers.Run.{IsJudged};
ghost use Rattle.rncv_validator.specs.views.FedDocuments.{HasBeenFed};
ghost use Rattle.rncv_validator.specs.views.Validators.{Judges};
ghost use Rattle.rncv_run.specs.declared.document_input.JudgeFault.TheVariants as faults;
ghost use Rattle.rncv_run.specs.views.DocumentInput.{IsFaultOfInput, IsFedWhole, fault_of_judging, malformed_by};

use rncv_model::{RunFault, Verdict};
use rncv_validator::{Document, DocumentFault, Validator};
use rng_model::{Device, OutOfMemory};
use std::alloc::Global;
use std::io::Read;

/// The greatest number of bytes that one call reads.
const PIECE: usize = 32768;

/// Why judging a document fails.
#[derive(Clone, Copy)]
pub(crate) enum JudgeFault {
    /// A read failed.
    Read,
    /// The call ran out of memory.
    Memory,
}

impl From<OutOfMemory> for JudgeFault {
    ghost from_gives = { λ cause fault. fault ≡ faults.Memory };

    fn from(_cause: OutOfMemory) -> JudgeFault {
        JudgeFault::Memory
    }
}

impl From<JudgeFault> for RunFault {
    ghost from_gives = { λ cause fault. fault ≡ fault_of_judging cause };

    fn from(cause: JudgeFault) -> RunFault {
        match cause {
            JudgeFault::Read => RunFault::Read,
            JudgeFault::Memory => RunFault::Memory,
        }
    }
}

/// Why feeding a document to its end fails.
#[derive(Clone, Copy)]
pub enum InputFault {
    /// A read failed.
    Read,
    /// The document returned an error for a piece.
    Document(DocumentFault),
}

/// Returns the verdict on the document that an input has left, by the schema of a validator: the verdict of
/// `Document::finish`.
///
/// Reads the input to its end, or in pieces up to the one with the first fault.
pub(crate) fn judge<R: Read>(
    alloc: Global,
    validator: Validator,
    input: &mut Device<R>,
) -> Result<Verdict, JudgeFault>
    requires { device_failures input.old < 2 ^ 64 - 1 }
    ensures judged { IfOk result (λ v. (s : Schema) → Judges validator s → IsJudged s v (R.remaining (device_inner input.old)) (R.remaining (device_inner input.new))) }
    ensures calm { OnOk result (device_failures input.new ≡ device_failures input.old) }
    ensures read { IsErrOf result JudgeFault.Read → device_failures input.old < device_failures input.new }
    ensures memory { IsErrOf result JudgeFault.Memory → device_failures input.new ≡ device_failures input.old }
{
    let mut document = validator.document(alloc);
    match feed_whole(&mut document, input) {
        Ok(()) => {}
        Err(InputFault::Read) => {
            drop(document);
            return Err(JudgeFault::Read);
        }
        Err(InputFault::Document(fault)) => {
            drop(document);
            return malformed(fault);
        }
    }
    let (validator, verdict) = document.finish();
    drop(validator);
    Ok(verdict?)
}

/// Returns the verdict that reports a fault.
fn malformed(fault: DocumentFault) -> Result<Verdict, JudgeFault>
    ensures { result ≡ malformed_by fault }
{
    match fault {
        DocumentFault::Malformed { clause, line } => Ok(Verdict::Malformed { clause, line }),
        DocumentFault::Memory => Err(JudgeFault::Memory),
    }
}

/// Feeds a document with what an input has left.
///
/// Reads to the end, or to the piece with the first line that breaks a clause.
fn feed_whole<R: Read>(document: &mut Document, input: &mut Device<R>) -> Result<(), InputFault>
    requires begun { HasBeenFed document.old [] }
    requires input { device_failures input.old < 2 ^ 64 - 1 }
    ensures grammar { document.new.grammar ≡ document.old.grammar }
    ensures fed { OnOk result (IsFedWhole (HasBeenFed document.new) (R.remaining (device_inner input.old)) (R.remaining (device_inner input.new))) }
    ensures fault { IfErr result (IsFaultOfInput (R.remaining (device_inner input.old)) (R.remaining (device_inner input.new))) }
    ensures calm { OnOk result (device_failures input.new ≡ device_failures input.old) }
    ensures read { IsErrOf result InputFault.Read → device_failures input.old < device_failures input.new }
    ensures document { (f : DocumentFault) → IsErrOf result (InputFault.Document f) → device_failures input.new ≡ device_failures input.old }
{
    let mut piece = [0u8; PIECE];
    'pieces: loop {
        let Ok(n) = input.read(&mut piece) else {
            return Err(InputFault::Read);
        };
        if n == 0 {
            return Ok(());
        }
        if let Err(fault) = document.feed(&piece[..n]) {
            return Err(InputFault::Document(fault));
        }
    }
}
