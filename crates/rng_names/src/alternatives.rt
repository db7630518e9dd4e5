// The alternatives of a name class, looked up by hashing.
ghost use Rattle.std.specs.Prelude.{◌≡◌, ◌<◌, ◌||◌, ℕ, List, Option, OnOk, Some, length, slice_get};
ghost use Rattle.rng_model.specs.names.NameViews.{class_of};
ghost use Rattle.rng_names.specs.views.Alternatives.{Adds, AddsExcept, AreTables, Grows, IsBare, Linked, excepting, has_alternative, in_scope, told};
ghost use Rattle.rng_names.specs.views.NameSets.{has, same_parts, seen};
ghost use Rattle.rng_names.specs.plain.Holding.{holds, pair};
ghost use Rattle.rng_names.specs.declared.alternatives.Alternatives as declared;

use crate::name_set::NameSet;
use rng_model::{NameClass, OutOfMemory};
use std::alloc::Global;

/// All names, or those of a namespace, except those of a class.
#[derive(Clone, Copy)]
struct Excepted<'a> {
    ns: Option<&'a str>,
    except: &'a NameClass,
    /// The number of the table of the except.
    table: usize,
}

/// The alternatives of a class: the members of its choices, at any depth, or the class itself.
#[derive(Drop)]
pub(crate) struct Alternatives<'a> {
    pub(crate) class: &'a NameClass,
    /// Whether `*` is one of them.
    any: bool,
    /// The names and the namespaces among them.
    written: NameSet<'a>,
    /// Those with an except.
    excepted: Vec<Excepted<'a>>,
}

impl<'a> Alternatives<'a> {
    /// Returns an empty table for a class.
    pub(crate) fn new(alloc: Global, class: &'a NameClass) -> Self
        ensures class { class_of result.class.now ≡ class_of class.now }
        ensures bare { IsBare result }
    {
        Alternatives {
            class,
            any: false,
            written: NameSet::new(alloc),
            excepted: Vec::new(alloc),
        }
    }

    /// Adds the alternatives of a class, and to the tables one for each except in it. Fails only when out of memory. Linear
    /// in its size, apart from hashing.
    #[cycle(additions)]
    pub(crate) fn add(
        &mut self,
        alloc: Global,
        tables: &mut Vec<Alternatives<'a>>,
        class: &'a NameClass,
    ) -> Result<(), OutOfMemory>
        ensures adds { OnOk result (Adds self.old self.new (λ test. has_alternative test (class_of class.now))) }
        ensures grows { OnOk result (Grows tables.old.items tables.new.items) }
        ensures linked { OnOk result (Linked tables.old.items self.old → Linked tables.new.items self.new) }
    {
        match class {
            NameClass::Any => {
                self.any = true;
                Ok(())
            }
            NameClass::Ns(ns) => self.add_written(ns.as_str(), None),
            NameClass::Name(name) => self.add_written(name.ns.as_str(), Some(name.local.as_str())),
            NameClass::AnyExcept(except) => self.add_excepting(alloc, tables, None, except),
            NameClass::NsExcept(ns, except) => {
                self.add_excepting(alloc, tables, Some(ns.as_str()), except)
            }
            NameClass::Choice(members) => {
                'members: for member in members {
                    self.add(alloc, tables, member)?;
                }
                Ok(())
            }
        }
    }

    /// Adds all names, or those of a namespace, except those of a class, and to the tables one for this class and for each
    /// except in it.
    // Not inlined, so that `add`, which calls itself as deep as a class nests, has a small frame.
    #[cycle(additions)]
    #[inline(never)]
    fn add_excepting(
        &mut self,
        alloc: Global,
        tables: &mut Vec<Alternatives<'a>>,
        ns: Option<&'a str>,
        except: &'a NameClass,
    ) -> Result<(), OutOfMemory>
        ensures adds { OnOk result (Adds self.old self.new (λ test. test (excepting (seen ns.entry) (class_of except.now)))) }
        ensures grows { OnOk result (Grows tables.old.items tables.new.items) }
        ensures linked { OnOk result (Linked tables.old.items self.old → Linked tables.new.items self.new) }
    {
        let mut inner = Alternatives::new(alloc, except);
        inner.add(alloc, tables, except)?;
        self.add_except(tables, ns, inner)
    }

    /// Adds a name, or all names of a namespace.
    // Not inlined, so that `add` has a small frame.
    #[inline(never)]
    fn add_written(&mut self, ns: &'a str, local: Option<&'a str>) -> Result<(), OutOfMemory>
        ensures class { OnOk result (self.new.class ≡ self.old.class) }
        ensures any { OnOk result (self.new.any ≡ self.old.any) }
        ensures written { OnOk result ((u : List ℕ) (l : Option (List ℕ)) → has self.new.written u l
            ≡ (has self.old.written u l || same_parts ns.now (seen local.entry) u l)) }
        ensures excepted { OnOk result (self.new.excepted.items ≡ self.old.excepted.items) }
    {
        self.written.insert(ns, local)
    }

    /// Adds all names, or those of a namespace, except those of a class. The table of this class becomes the last one.
    fn add_except(
        &mut self,
        tables: &mut Vec<Alternatives<'a>>,
        ns: Option<&'a str>,
        except: Alternatives<'a>,
    ) -> Result<(), OutOfMemory>
        ensures adds { OnOk result (Adds self.old self.new (λ test. test (excepting (seen ns.entry) (class_of except.entry.class.now)))) }
        ensures except { OnOk result (AddsExcept tables.old.items tables.new.items self.old self.new except.entry) }
    {
        let excepted = Excepted {
            ns,
            except: except.class,
            table: tables.len(),
        };
        tables.push(except)?;
        self.excepted.push(excepted)?;
        Ok(())
    }

    /// Returns whether an alternative without an except holds the name.
    fn told(&self, ns: &str, local: &str) -> bool
        ensures { result ≡ told self.now (pair ns.now local.now) }
    {
        self.any || self.written.contains(ns, None) || self.written.contains(ns, Some(local))
    }
}

impl Excepted<'_> {
    /// Returns whether the alternative is about all namespaces or about this one.
    fn is_in(&self, ns: &str) -> bool
        ensures { result ≡ in_scope self.now.ns ns.now }
    {
        match self.ns {
            Some(only) => only == ns,
            None => true,
        }
    }
}

/// Returns whether the class of a table holds the name. Allocates nothing.
///
/// The cost is at most three look-ups by hashing, and three for each except in the class.
pub(crate) fn hold_in(tables: &[Alternatives], number: usize, ns: &str, local: &str) -> bool
    requires tables { AreTables tables.now }
    requires inside { number < length tables.now }
    ensures { (all : declared.Alternatives) → slice_get tables.now number ≡ Some all → result ≡ holds (class_of all.class.now) (pair ns.now local.now) }
{
    let all = &tables[number];
    if all.told(ns, local) {
        return true;
    }
    'excepts: for excepted in all.excepted.as_slice() {
        if excepted.is_in(ns) && !hold_in(tables, excepted.table, ns, local) {
            return true;
        }
    }
    false
}
