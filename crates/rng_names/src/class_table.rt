// A name class with tables for look-ups of its names.
ghost use Rattle.std.specs.Prelude.{◌≡◌, ◌<◌, length, IfOk, IsTrue};
ghost use Rattle.std.specs.Bool.{Decides};
ghost use Rattle.rng_model.specs.names.Names.{In};
ghost use Rattle.rng_model.specs.plain.ClassesApart.{AreApart};
ghost use Rattle.rng_model.specs.names.NameViews.{class_of, name_of};
ghost use Rattle.rng_names.specs.plain.Holding.{holds, pair};
ghost use Rattle.rng_names.specs.plain.Written.{longest};

use crate::alternatives::{Alternatives, hold_in};
use crate::namespaces::Namespaces;
use crate::written::{fresh_text, longest};
use rng_model::{Name, NameClass, OutOfMemory};
use std::alloc::Global;
use std::marker::Model;

/// A name class with tables of its alternatives and of its excepts. Contracts see the class.
#[derive(Drop)]
pub(crate) struct ClassTable<'a> {
    class: &'a NameClass,
    /// The tables of its excepts, and after them its own.
    tables: Vec<Alternatives<'a>>,
    /// The number of its own.
    own: usize,
    namespaces: Namespaces<'a>,
    /// A text that is longer than each text written in it.
    fresh: String,
}

impl<'a> Model for ClassTable<'a> {
    ghost use Rattle.std.specs.Coded.{codes};
    ghost use Rattle.rng_model.specs.declared.name.NameClass.{NameClass};
    ghost use Rattle.rng_model.specs.contracts.name.NameClass as classes;

    ghost Value = { NameClass };

    ghost coded = { Prim.hlevel (codes, classes.the_row.coded) };

    ghost use Rattle.rng_model.specs.names.NameViews.{class_of};
    ghost use Rattle.rng_names.specs.views.ClassTables.{IsReady};

    ghost view = { λ t. t.class.now };

    ghost invariant = { λ t. IsReady (class_of t.class.now) t.tables.items t.own t.namespaces t.fresh };
}

impl<'a> ClassTable<'a> {
    /// Builds the tables of a class. Fails only when out of memory. Linear in its size, apart from hashing.
    pub(crate) fn of_class(alloc: Global, class: &'a NameClass) -> Result<Self, OutOfMemory>
        ensures { IfOk result (λ table. table ≡ class.now) }
    {
        let mut tables = Vec::new(alloc);
        let mut all = Alternatives::new(alloc, class);
        all.add(alloc, &mut tables, class)?;
        let own = tables.len();
        tables.push(all)?;
        Ok(ClassTable {
            class,
            tables,
            own,
            namespaces: Namespaces::of_class(alloc, class)?,
            fresh: fresh_text(alloc, longest(class))?,
        })
    }

    /// Returns the class.
    pub(crate) fn class(&self) -> &'a NameClass
        ensures { result.now ≡ self.now }
    {
        self.class
    }

    /// Returns a text that is longer than each text written in the class.
    pub(crate) fn fresh(&self) -> &str
        ensures { longest (class_of self.now) < length result.now }
    {
        self.fresh.as_str()
    }

    /// Returns whether the class holds the name with this namespace and this local name. Allocates nothing.
    ///
    /// The cost is at most three look-ups by hashing, and three for each except in the class.
    pub(crate) fn hold(&self, ns: &str, local: &str) -> bool
        ensures { result ≡ holds (class_of self.now) (pair ns.now local.now) }
    {
        hold_in(self.tables.as_slice(), self.own, ns, local)
    }

    /// Returns whether the class holds the name. Allocates nothing. The cost is that of `hold`.
    pub(crate) fn contains(&self, name: &Name) -> bool
        ensures { Decides result (In (class_of self.now) (name_of name.now)) }
    {
        self.hold(name.ns.as_str(), name.local.as_str())
    }

    /// Returns true only if no name is in both classes, by their namespaces alone. Allocates nothing.
    pub(crate) fn is_apart(&self, other: &ClassTable) -> bool
        ensures { IsTrue result → AreApart (class_of self.now) (class_of other.now) }
    {
        self.namespaces.are_apart(&other.namespaces)
    }
}
