// The printed text of a simple grammar, made and written.
ghost use Rattle.std.specs.Prelude.{◌≡◌, ◌-◌, ◌^◌, ◌<◌, IfOk, OnOk, IsErrOf};
ghost use Rattle.rng_model.specs.devices.Device.{device_inner, device_failures, device_taken};
ghost use Rattle.rng_model.specs.simple.Table.{grammar_of};
ghost use Rattle.rncv_model.specs.printed.PrintedText.{IsPrinted};
ghost use Rattle.rncv_model.specs.printed.Printing.{AppendsPrinted, AppendsPrintedBeginning};

use crate::items::Items;
use crate::lines::Lines;
use crate::prefixes::Prefixes;
use rncv_model::PrintFault;
use rng_model::{Device, OutOfMemory, SimpleGrammar, write_whole};
use std::alloc::Global;
use std::io::Write;

/// Returns the text of a grammar: a schema in the compact syntax with this simple form.
///
/// RELAX NG Specification, section 5, in the words of the Compact Syntax. First there is a line for each namespace,
/// then `start = ..`. Then there is a line for each element and for each pattern with parts, in the order in which
/// their names are first written. The names are `e0`, `e1`, .. for elements, and `p0`, `p1`, .. for patterns. Equal
/// patterns have one line, whatever their positions. So grammars that differ only in the numbers of their elements have
/// the same text. Fails only when out of memory. Time and memory are linear in the tables and in the text.
pub fn printed_text(alloc: Global, grammar: &SimpleGrammar) -> Result<Vec<u8>, OutOfMemory>
    ensures { IfOk result (λ text. IsPrinted (grammar_of grammar.now) text.items) }
{
    let items = Items::of_grammar(alloc, grammar)?;
    let prefixes = Prefixes::of_items(alloc, grammar, items.all.as_slice())?;
    let lines = Lines {
        alloc,
        grammar,
        items: &items,
        prefixes: &prefixes,
    };
    let mut text = Vec::new(alloc);
    lines.write_namespaces(&mut text)?;
    lines.write_start(&mut text)?;
    lines.write_items(&mut text)?;
    Ok(text)
}

/// Prints a grammar: writes its text, that of `printed_text`, to a device.
///
/// The text is complete before its first byte is written. So after `PrintFault::Memory` the device is unchanged. After
/// `PrintFault::Write`, which comes only if the device counted a failed call, a beginning of the text is written.
/// Nothing is flushed. Requires a device that has counted fewer than 2^64 - 1 failed calls. RELAX NG Specification,
/// section 5. The cost is that of `printed_text`, and at most one call of the writer for each byte of the text.
pub fn print<W: Write>(
    alloc: Global,
    grammar: &SimpleGrammar,
    output: &mut Device<W>,
) -> Result<(), PrintFault>
    requires { device_failures output.old < 2 ^ 64 - 1 }

    // If it returns `Ok`, no call failed, and exactly the text is written.
    ensures calm { OnOk result (device_failures output.new ≡ device_failures output.old) }
    ensures printed { OnOk result (AppendsPrinted (grammar_of grammar.now) (W.contents (device_inner output.old)) (W.contents (device_inner output.new))) }

    // A fault of the device is returned only if the device counted one.
    ensures write { IsErrOf result PrintFault.Write → device_failures output.old < device_failures output.new }
    ensures beginning { IsErrOf result PrintFault.Write →
        AppendsPrintedBeginning (grammar_of grammar.now) (W.contents (device_inner output.old)) (W.contents (device_inner output.new)) }
    ensures memory { IsErrOf result PrintFault.Memory → output.new ≡ output.old }
    ensures taken { device_taken output.new ≡ device_taken output.old }
{
    let Ok(text) = printed_text(alloc, grammar) else {
        return Err(PrintFault::Memory);
    };
    if write_whole(output, text.as_slice()).is_err() {
        return Err(PrintFault::Write);
    }
    Ok(())
}
