// Names that have been looked up.
ghost use Rattle.std.specs.Prelude.{◌≡◌, ◌<◌, ◌≤◌, ℕ, length, IfOk, IfSome, OnOk, Some};
ghost use Rattle.rng_model.specs.names.NameViews.{name_of};
ghost use Rattle.pyx.specs.plain.WrittenNames.{written_of};
ghost use Rattle.pyx.specs.plain.Declarations.{Declared};
ghost use Rattle.pyx.specs.views.FoundNamespaces.{found_bytes};
ghost use Rattle.pyx.specs.plain.TagReader.{element_name};
ghost use Rattle.pyx.specs.views.ElementView.{AreKnown, IsJudged, IsKnown, IsPlace, name_at, names_of};

use crate::namespaces::{FoundNamespace, hash_of};
use crate::spares::set_namespace;
use rng_model::{Name, Namespace, OutOfMemory};
use std::alloc::Global;

/// The number of names that are kept, a power of two.
const COUNT: usize = 256;

/// The most bytes that a name, and its namespace, may have to be kept in a place of its own.
const SIZE_LIMIT: usize = 1_024;

/// A name as it is written, which was judged, and the expanded name that the lookup found.
#[derive(Drop)]
pub struct KnownName {
    /// The round of the lookup. Rounds start at 1; 0 means that nothing was looked up.
    pub round: u64,
    pub written: String,
    pub name: Name,
}

impl KnownName {
    /// Replaces the name by this one, looked up in this round. Uses the buffers that are there.
    fn learn(
        &mut self,
        alloc: Global,
        round: u64,
        written: &str,
        found: FoundNamespace<'_>,
        local: &str,
    ) -> Result<(), OutOfMemory>
        requires round { 0 < round }
        requires judged { IsJudged written.now }
        ensures known { (scope : Declared) → element_name scope (written_of written.now) ≡ Some (record { ns = found_bytes found.entry; local = local.now })
            → IsKnown scope round self.new }
        ensures name { OnOk result (name_of self.new.name ≡ record { ns = found_bytes found.entry; local = local.now }) }
    {
        self.round = 0;
        self.written.clear();
        self.written.push_str(written)?;
        set_namespace(alloc, &mut self.name.ns, found)?;
        self.name.local.clear();
        self.name.local.push_str(local)?;
        self.round = round;
        Ok(())
    }
}

/// Makes every known name unknown: the next round begins.
pub fn forget(round: &mut u64, known: &mut Vec<KnownName>)
    ensures { (old new : Declared) → AreKnown old round.old known.old.items → AreKnown new round.new known.new.items }
{
    match round.checked_add(1) {
        Some(next) => *round = next,
        None => known.clear(),
    }
}

/// Makes sure that there is a place for each name.
fn make_places(alloc: Global, known: &mut Vec<KnownName>) -> Result<(), OutOfMemory>
    ensures known { (scope : Declared) (round : ℕ) → AreKnown scope round known.old.items → AreKnown scope round known.new.items }
    ensures places { OnOk result (256 ≤ length known.new.items) }
{
    'places: while known.len() < COUNT {
        known.push(KnownName {
            round: 0,
            written: String::new(alloc),
            name: Name {
                ns: Namespace::none(),
                local: String::new(alloc),
            },
        })?;
    }
    Ok(())
}

/// Returns the place of a name that was looked up in this round, if it is kept there.
#[inline(always)]
pub fn find(known: &[KnownName], round: u64, written: &str) -> Option<usize>
    ensures { IfSome result (λ at. (scope : Declared) → AreKnown scope round known.now → IsJudged written.now × IsPlace scope written.now known.now at) }
{
    let at = hash_of(written) % COUNT;
    match known.get(at) {
        Some(name) if name.round == round && name.written.as_str() == written => Some(at),
        _ => None,
    }
}

/// Keeps the expanded name of a written name, looked up in this round, and returns its place. A long name or one with a
/// long namespace goes to the first place.
pub fn learn(
    alloc: Global,
    known: &mut Vec<KnownName>,
    round: u64,
    written: &str,
    found: FoundNamespace<'_>,
    local: &str,
) -> Result<usize, OutOfMemory>
    requires round { 0 < round }
    requires judged { IsJudged written.now }
    ensures known { (scope : Declared) → element_name scope (written_of written.now) ≡ Some (record { ns = found_bytes found.entry; local = local.now })
        → AreKnown scope round known.old.items → AreKnown scope round known.new.items }
    ensures name { IfOk result (λ at. (at < length known.new.items) × (name_at (names_of known.new.items) at ≡ record { ns = found_bytes found.entry; local = local.now })) }
{
    make_places(alloc, known)?;
    let at = if written.len() <= SIZE_LIMIT && found.as_str().len() <= SIZE_LIMIT {
        hash_of(written) % COUNT
    } else {
        0
    };
    let name = &mut known[at];
    name.learn(alloc, round, written, found, local)?;
    Ok(at)
}
