// Name classes that are prepared for comparisons.
ghost use Rattle.std.specs.Prelude.{◌≡◌, ◌↔◌, IfOk, IsOk, IsTrue, IsFalse};
ghost use Rattle.std.specs.Bool.{Decides};
ghost use Rattle.rng_model.specs.names.Names.{In, Overlap};
ghost use Rattle.rng_model.specs.plain.ClassesApart.{AreApart};
ghost use Rattle.rng_model.specs.names.NameViews.{class_of, name_of};
ghost use Rattle.rng_names.specs.plain.Holding.{same_name};
ghost use Rattle.rng_names.specs.views.PlainNames.{IsPlain};

use crate::class_table::ClassTable;
use crate::common_name::meet;
use rng_model::{Name, NameClass, OutOfMemory};
use std::alloc::Global;
use std::marker::Model;

/// A name class, prepared for comparisons with many others.
///
/// RELAX NG Specification, section 7.3. Contracts see the class. A plain name needs no further memory. For any other class,
/// memory is linear in its size.
#[derive(Drop)]
pub struct PreparedClass<'a> {
    kind: Kind<'a>,
}

/// A name, or another class with its tables.
#[derive(Drop)]
enum Kind<'a> {
    Name(&'a Name),
    Table(Box<ClassTable<'a>>),
}

impl<'a> Model for PreparedClass<'a> {
    ghost use Rattle.std.specs.Coded.{codes};
    ghost use Rattle.rng_model.specs.declared.name.NameClass.{NameClass};
    ghost use Rattle.rng_model.specs.contracts.name.NameClass as classes;

    ghost Value = { NameClass };

    ghost coded = { Prim.hlevel (codes, classes.the_row.coded) };

    ghost use Rattle.rng_names.specs.views.PreparedClasses.{IsToldApart, kind_class};

    ghost view = { λ p. kind_class p.kind };

    ghost invariant = { λ p. IsToldApart p.kind };
}

impl<'a> PreparedClass<'a> {
    /// Prepares a class. Fails only when out of memory, and never for a plain name. Costs hashing, and a pass over the
    /// class.
    pub fn of(alloc: Global, class: &'a NameClass) -> Result<Self, OutOfMemory>
        ensures class { IfOk result (λ prepared. prepared ≡ class.now) }
        ensures plain { IsPlain class.now → IsOk result }
    {
        match class {
            NameClass::Name(name) => Ok(PreparedClass {
                kind: Kind::Name(name),
            }),
            _ => {
                let table = ClassTable::of_class(alloc, class)?;
                Ok(PreparedClass {
                    kind: Kind::Table(Box::new(alloc, table)?),
                })
            }
        }
    }

    /// Returns whether the class is a plain name. Allocates nothing.
    pub fn is_name(&self) -> bool
        ensures { IsTrue result ↔ IsPlain self.now }
    {
        match &self.kind {
            Kind::Name(_) => true,
            Kind::Table(_) => false,
        }
    }

    /// Returns whether the class holds the name. Allocates nothing. The cost is at most three look-ups by hashing, and three
    /// for each except in the class.
    pub fn contains(&self, name: &Name) -> bool
        ensures { Decides result (In (class_of self.now) (name_of name.now)) }
    {
        match &self.kind {
            Kind::Name(own) => is_same(own, name),
            Kind::Table(table) => table.contains(name),
        }
    }

    /// Returns whether some name is in both classes, where any pair of texts is a name. Allocates nothing.
    ///
    /// If one of the two is a plain name, the cost is one `contains` of the other. If the two have no namespace in common,
    /// it is one look-up by hashing for each namespace of `other`. Otherwise each name and each namespace that is written
    /// in them costs at most two `contains` of each class.
    pub fn overlaps(&self, other: &PreparedClass) -> bool
        ensures common { IsTrue result → Overlap (class_of self.now) (class_of other.now) }
        ensures apart { IsFalse result → AreApart (class_of self.now) (class_of other.now) }
    {
        match &self.kind {
            Kind::Name(name) => other.contains(name),
            Kind::Table(table) => other.meets(table),
        }
    }

    /// Returns whether some name is in this class and in that of a table.
    fn meets(&self, table: &ClassTable) -> bool
        ensures common { IsTrue result → Overlap (class_of table.now) (class_of self.now) }
        ensures apart { IsFalse result → AreApart (class_of table.now) (class_of self.now) }
    {
        match &self.kind {
            Kind::Name(name) => table.contains(name),
            Kind::Table(own) => meet(table, own),
        }
    }
}

/// Returns whether the two names are the same.
fn is_same(own: &Name, name: &Name) -> bool
    ensures { result ≡ same_name (name_of own.now) (name_of name.now) }
{
    own.local.as_str() == name.local.as_str() && own.ns.as_str() == name.ns.as_str()
}
