// Calls on a handle with a schema.
ghost use Rattle.std.specs.Prelude.{◌≡◌, ◌≢◌, ◌↔◌, IfErr, IfOk, IsErrOf, IsSomeAnd, string_bytes};
ghost use Rattle.std.specs.declared.option.Option.TheVariants.{None, Some};
ghost use Rattle.rnc_model.specs.loading.SchemaFile.{FileName};
ghost use Rattle.rncv_model.specs.answers.VerdictWith.{IsRefusalWith};
ghost use Rattle.rncv_validator.specs.views.Validators.{IsOneFor, IsOneForWith};
ghost use Rattle.rncv_c_values.specs.views.Files.{AreNamed, files_of, main_of};
ghost use Rattle.rncv_c_handles.specs.views.Held.{schema_in};
ghost use Rattle.rncv_c_values.specs.views.Texts.{IsTextOf, IsTooLong, IsWritten};
ghost use Rattle.rncv_c_values.specs.views.Told.{AreRefused, AreRefusedWith, IsRefusedName};

use rncv_c_handles::{Handle, Held};
use rncv_c_values::{
    Refusal, SchemaFile, Status, are_named, copied, copied_files, refusal_to_tell,
};
use rncv_validator::Validator;
use rng_model::{SchemaFault, TypeSet};
use std::alloc::Global;

/// Compiles the schema of these files, the first of which is the main one, with the datatypes of the profile, and puts it
/// into the handle.
///
/// Returns `Misuse` exactly if there is no file or a name is not UTF-8; `Refused` if the files break a clause, which is
/// reported with its place; `Memory` when out of memory. Costs what `Validator::compile` and `place_of` cost, and a
/// copy of the files.
pub fn compile(
    alloc: Global,
    files: &[SchemaFile<'_>],
    schema: &mut Handle,
    fault: &mut Refusal,
) -> Status
    ensures done { result ≡ Status.Done → IsSomeAnd (schema_in schema.new.held) (IsOneFor (files_of files.now) (main_of files.now)) }
    ensures refused { result ≡ Status.Refused → AreRefused files.now fault.new }
    ensures misuse { result ≡ Status.Misuse → ¬ (AreNamed files.now) }
    ensures named { result ≢ Status.Misuse → AreNamed files.now }
    ensures others { (result ≢ Status.Malformed) × (result ≢ Status.Space) }
    ensures failed { result ≢ Status.Done → schema.new ≡ schema.old }
    ensures untold { result ≢ Status.Refused → fault.new ≡ fault.old }
{
    compile_with(alloc, TypeSet::Profile, files, schema, fault)
}

/// Compiles the schema of these files, as `compile` does, with this set of datatypes.
pub fn compile_with(
    alloc: Global,
    types: TypeSet,
    files: &[SchemaFile<'_>],
    schema: &mut Handle,
    fault: &mut Refusal,
) -> Status
    ensures done { result ≡ Status.Done → IsSomeAnd (schema_in schema.new.held) (IsOneForWith types (files_of files.now) (main_of files.now)) }
    ensures refused { result ≡ Status.Refused → AreRefusedWith types files.now fault.new }
    ensures misuse { result ≡ Status.Misuse → ¬ (AreNamed files.now) }
    ensures named { result ≢ Status.Misuse → AreNamed files.now }
    ensures others { (result ≢ Status.Malformed) × (result ≢ Status.Space) }
    ensures failed { result ≢ Status.Done → schema.new ≡ schema.old }
    ensures untold { result ≢ Status.Refused → fault.new ≡ fault.old }
{
    if !are_named(files) {
        return Status::Misuse;
    }
    match compiled(alloc, types, files) {
        Ok(validator) => hold(alloc, validator, schema),
        Err(cause) => match refusal_to_tell(alloc, files, &cause) {
            Ok(told) => {
                *fault = told;
                Status::Refused
            }
            Err(_) => Status::Memory,
        },
    }
}

/// Returns the compiled schema of a copy of the files.
fn compiled(
    alloc: Global,
    types: TypeSet,
    files: &[SchemaFile<'_>],
) -> Result<Validator, SchemaFault>
    requires { AreNamed files.now }
    ensures compiled { IfOk result (IsOneForWith types (files_of files.now) (main_of files.now)) }
    ensures refused { IfErr result (IsRefusalWith types (files_of files.now) (main_of files.now)) }
{
    let Ok(copy) = copied_files(alloc, files) else {
        return Err(SchemaFault::Memory);
    };
    Validator::compile_with(alloc, types, copy.as_slice())
}

/// Writes the name of the file that breaks a clause by itself to the buffer if it fits, and its length to `count`.
///
/// Returns `Misuse` if there is no file, a name is not UTF-8, or no file breaks a clause by itself; `Space` if the name
/// does not fit; `Memory` when out of memory. Costs what `Validator::compile` costs, and a copy of the files.
pub fn refused_name(
    alloc: Global,
    files: &[SchemaFile<'_>],
    buffer: &mut [u8],
    count: &mut usize,
) -> Status
    ensures done { result ≡ Status.Done → IsWritten (IsRefusedName files.now) count.new buffer.old buffer.new }
    ensures space { result ≡ Status.Space → IsTooLong (IsRefusedName files.now) count.new buffer.old }
    ensures misuse { result ≡ Status.Misuse → AreNamed files.now → (name : FileName) → ¬ (IsRefusedName files.now name) }
    ensures named { result ≢ Status.Misuse → AreNamed files.now }
    ensures others { (result ≢ Status.Refused) × (result ≢ Status.Malformed) }
    ensures failed { result ≢ Status.Done → buffer.new ≡ buffer.old }
    ensures untold { result ≢ Status.Done → result ≢ Status.Space → count.new ≡ count.old }
{
    if !are_named(files) {
        return Status::Misuse;
    }
    match name_of_refused(alloc, files) {
        Ok(name) => copied(name.as_bytes(), buffer, count),
        Err(status) => status,
    }
}

/// Returns the name of the file that breaks a clause by itself.
fn name_of_refused(alloc: Global, files: &[SchemaFile<'_>]) -> Result<String, Status>
    requires { AreNamed files.now }
    ensures name { IfOk result (λ name. IsRefusedName files.now (string_bytes name)) }
    ensures fault { IfErr result (λ status. status ≢ Status.Misuse → status ≡ Status.Memory) }
    ensures misuse { IsErrOf result Status.Misuse → (name : FileName) → ¬ (IsRefusedName files.now name) }
{
    // what a file breaks by itself depends on no set of datatypes
    match compiled(alloc, TypeSet::Profile, files) {
        Ok(_) => Err(Status::Misuse),
        Err(SchemaFault::File { name, .. }) => Ok(name),
        Err(SchemaFault::Clause(_)) => Err(Status::Misuse),
        Err(SchemaFault::Memory) => Err(Status::Memory),
    }
}

/// Makes `other` a second handle on the same schema, for another thread. What `other` held is freed.
///
/// Returns `Misuse` exactly if `schema` holds no schema or a document is begun; `Memory` when out of memory. Allocates
/// a few bytes.
pub fn share(alloc: Global, schema: &mut Handle, other: &mut Handle) -> Status
    ensures done { result ≡ Status.Done → schema_in other.new.held ≡ schema_in schema.old.held }
    ensures misuse { (result ≡ Status.Misuse) ↔ (schema_in schema.old.held ≡ None) }
    ensures others { result ≢ Status.Done → result ≢ Status.Misuse → result ≡ Status.Memory }
    ensures failed { result ≢ Status.Done → other.new ≡ other.old }
    ensures kept { schema.new.held ≡ schema.old.held }
{
    match shared(alloc, schema) {
        Ok(validator) => hold(alloc, validator, other),
        Err(status) => status,
    }
}

/// Returns another validator for the schema that the handle holds, and still holds after the call.
fn shared(alloc: Global, schema: &mut Handle) -> Result<Validator, Status>
    ensures value { IfOk result (λ v. schema_in schema.old.held ≡ Some v) }
    ensures kept { schema.new.held ≡ schema.old.held }
    ensures fault { IfErr result (λ status. status ≢ Status.Misuse → status ≡ Status.Memory) }
    ensures misuse { IsErrOf result Status.Misuse ↔ (schema_in schema.old.held ≡ None) }
{
    let Some(held) = schema.take(alloc) else {
        return Err(Status::Misuse);
    };
    let found = match held.as_ref() {
        Held::Schema(validator) => validator.share().map_err(|_| Status::Memory),
        Held::Document(_) | Held::Events(_) => Err(Status::Misuse),
    };
    schema.put(held);
    found
}

/// Writes the printed simple form to the buffer if it fits, and its length to `count`.
///
/// Returns `Misuse` exactly if the handle holds no schema or a document is begun; `Space` if the form does not fit;
/// `Memory` when out of memory. Costs what `Validator::simple_text` costs, and a copy.
pub fn simple(alloc: Global, schema: &mut Handle, buffer: &mut [u8], count: &mut usize) -> Status
    ensures done { result ≡ Status.Done → IsSomeAnd (schema_in schema.old.held) (λ g. IsWritten (IsTextOf g) count.new buffer.old buffer.new) }
    ensures space { result ≡ Status.Space → IsSomeAnd (schema_in schema.old.held) (λ g. IsTooLong (IsTextOf g) count.new buffer.old) }
    ensures misuse { (result ≡ Status.Misuse) ↔ (schema_in schema.old.held ≡ None) }
    ensures others { (result ≢ Status.Refused) × (result ≢ Status.Malformed) }
    ensures failed { result ≢ Status.Done → buffer.new ≡ buffer.old }
    ensures untold { result ≢ Status.Done → result ≢ Status.Space → count.new ≡ count.old }
    ensures kept { schema.new.held ≡ schema.old.held }
{
    match simple_text(alloc, schema) {
        Ok(text) => copied(text.as_slice(), buffer, count),
        Err(status) => status,
    }
}

/// Returns the printed simple form of the schema that the handle holds, and still holds after the call.
fn simple_text(alloc: Global, schema: &mut Handle) -> Result<Vec<u8>, Status>
    ensures value { IfOk result (λ text. IsSomeAnd (schema_in schema.old.held) (λ g. IsTextOf g text.items)) }
    ensures kept { schema.new.held ≡ schema.old.held }
    ensures fault { IfErr result (λ status. status ≢ Status.Misuse → status ≡ Status.Memory) }
    ensures misuse { IsErrOf result Status.Misuse ↔ (schema_in schema.old.held ≡ None) }
{
    let Some(held) = schema.take(alloc) else {
        return Err(Status::Misuse);
    };
    let text = match held.as_ref() {
        Held::Schema(validator) => validator.simple_text(alloc).map_err(|_| Status::Memory),
        Held::Document(_) | Held::Events(_) => Err(Status::Misuse),
    };
    schema.put(held);
    text
}

/// Puts a schema into the handle. What it held is freed.
fn hold(alloc: Global, validator: Validator, schema: &mut Handle) -> Status
    ensures done { result ≡ Status.Done → schema_in schema.new.held ≡ Some validator }
    ensures failed { result ≢ Status.Done → (result ≡ Status.Memory) × (schema.new ≡ schema.old) }
{
    let Ok(held) = Box::new(alloc, Held::Schema(validator)) else {
        return Status::Memory;
    };
    schema.put(held);
    Status::Done
}
