// The rows whose class is a name, grouped by name.
ghost use Rattle.std.specs.Prelude.{◌≡◌, ◌↔◌, ◌+◌, ◌<◌, ◌≤◌, ◌++◌, ◌∷◌, [], ℕ, List, Some, length, map, slice_get, slice_index_or, Contains, IfOk, OnOk};
ghost use Rattle.rng_model.specs.names.Names as names;
ghost use Rattle.rng_model.specs.declared.name.NameClass.{NameClass};
ghost use Rattle.rng_model.specs.declared.name.NameClass.TheVariants as class;
ghost use Rattle.rng_rules.specs.views.NamesMeetLabels.{AreNamesApart, AreGroups, label_of, plain_name_of};
ghost use Rattle.rng_rules.specs.plain.NamesMeetReach.{lists};

use crate::names_meet_labels::Label;
use crate::names_meet_rows::add_above;
use indexmap::IndexSet;
use rng_model::{Name, NameClass, OutOfMemory};
use std::alloc::Global;

/// A name, borrowed from the texts of another one.
#[derive(Clone, Copy, PartialEq, Eq, Hash)]
pub(crate) struct PlainName<'a> {
    pub ns: &'a str,
    pub local: &'a str,
}

/// Names, and for each of them the rows that have it as their class.
#[derive(Drop)]
pub(crate) struct NameGroups<'a> {
    pub names: IndexSet<PlainName<'a>>,
    pub rows: Vec<Vec<usize>>,
}

/// Groups these rows. Linear, apart from hashing.
pub(crate) fn name_groups<'a>(
    alloc: Global,
    labels: &[Label<'a>],
) -> Result<NameGroups<'a>, OutOfMemory>
    ensures { IfOk result (λ g. AreGroups (map label_of labels.now) (map plain_name_of g.names.keys) (lists g.rows.items)) }
{
    let mut groups = NameGroups {
        names: IndexSet::new(alloc),
        rows: Vec::new(alloc),
    };
    for label in labels {
        groups.add(alloc, *label)?;
    }
    Ok(groups)
}

impl<'a> NameGroups<'a> {
    /// Adds a row if its class is a name.
    fn add(&mut self, alloc: Global, label: Label<'a>) -> Result<(), OutOfMemory>
        requires { length self.old.rows.items ≡ length self.old.names.keys }
        ensures { OnOk result ((ls : List (ℕ × NameClass)) → AreGroups ls (map plain_name_of self.old.names.keys) (lists self.old.rows.items)
            → AreGroups (ls ++ label_of label.entry ∷ []) (map plain_name_of self.new.names.keys) (lists self.new.rows.items)) }
    {
        match label.class {
            NameClass::Name(name) => self.add_name(alloc, name, label.row),
            _ => Ok(()),
        }
    }

    /// Adds a row whose class is this name.
    fn add_name(&mut self, alloc: Global, name: &'a Name, row: usize) -> Result<(), OutOfMemory>
        requires { length self.old.rows.items ≡ length self.old.names.keys }
        ensures { OnOk result ((ls : List (ℕ × NameClass)) → AreGroups ls (map plain_name_of self.old.names.keys) (lists self.old.rows.items)
            → AreGroups (ls ++ (row, class.Name name.now) ∷ []) (map plain_name_of self.new.names.keys) (lists self.new.rows.items)) }
    {
        let name = PlainName {
            ns: name.ns.as_str(),
            local: name.local.as_str(),
        };
        let number = number(&mut self.names, name)?;
        make_room(alloc, &mut self.rows, number)?;
        add_above(&mut self.rows, number, row)?;
        Ok(())
    }
}

/// Adds an empty list for a number that has none.
fn make_room(alloc: Global, rows: &mut Vec<Vec<usize>>, number: usize) -> Result<(), OutOfMemory>
    requires { number ≤ length rows.old.items }
    ensures old { OnOk result (number < length rows.old.items → length rows.new.items ≡ length rows.old.items) }
    ensures one { OnOk result (number ≡ length rows.old.items → length rows.new.items ≡ length rows.old.items + 1) }
    ensures same { OnOk result ((c p : ℕ) → Contains (slice_index_or (lists rows.new.items) c []) p ↔ Contains (slice_index_or (lists rows.old.items) c []) p) }
{
    if number == rows.len() {
        rows.push(Vec::new(alloc))?;
    }
    Ok(())
}

/// Returns the number of a name. A new name gets the next number.
fn number<'a>(
    known: &mut IndexSet<PlainName<'a>>,
    name: PlainName<'a>,
) -> Result<usize, OutOfMemory>
    ensures apart { OnOk result (AreNamesApart (map plain_name_of known.old.keys) → AreNamesApart (map plain_name_of known.new.keys)) }
    ensures there { IfOk result (λ n. slice_get (map plain_name_of known.new.keys) n ≡ Some (plain_name_of name.entry)) }
    ensures kept { OnOk result ((k : ℕ) (q : names.Name) → slice_get (map plain_name_of known.old.keys) k ≡ Some q → slice_get (map plain_name_of known.new.keys) k ≡ Some q) }
    ensures within { IfOk result (λ n. n ≤ length known.old.keys) }
    ensures old { IfOk result (λ n. n < length known.old.keys → length known.new.keys ≡ length known.old.keys) }
    ensures one { IfOk result (λ n. n ≡ length known.old.keys → length known.new.keys ≡ length known.old.keys + 1) }
{
    let (number, _) = known.insert_full(name)?;
    Ok(number)
}
