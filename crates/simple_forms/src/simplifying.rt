// From files to the simple form of their schema.
ghost use Rattle.std.specs.Prelude.{IfErr, IfOk};
ghost use Rattle.rng_model.specs.simple.Table.{grammar_of};
ghost use Rattle.rnc_model.specs.loading.SchemaFile.{named_files};
ghost use Rattle.simple_forms.specs.views.FormOfFiles.{IsFaultOf, IsFormOf};

use rng_load::load;
use rng_model::{SchemaFault, SimpleGrammar};
use rng_simple::simplify;
use std::alloc::Global;

/// Returns the simple form of the schema of some files, the main one of which has this name.
///
/// Fails with what `load` or `simplify` fails with. RELAX NG Specification, section 4.
pub fn simplified(
    alloc: Global,
    files: &[(String, Vec<u8>)],
    main: &str,
) -> Result<SimpleGrammar, SchemaFault>
    ensures form { IfOk result (λ g. IsFormOf (named_files files.now) main.now (grammar_of g)) }
    ensures fault { IfErr result (IsFaultOf (named_files files.now) main.now) }
{
    let schema = load(alloc, files, main)?;
    simplify(alloc, &schema)
}
