// Patterns that break a rule.
ghost use Rattle.std.specs.Prelude.{◌≡◌, IfOk, string_bytes};
ghost use Rattle.rng_model.specs.views.SchemaView.{patterns_in, schema_pattern_of};
ghost use Rattle.rng_model.specs.datatypes.DatatypeViews.{datatype_of};
ghost use Rattle.rng_model.specs.names.NameViews.{class_of};
ghost use Rattle.rng_schema_checks.specs.views.Defined.{finds};
ghost use Rattle.rng_schema_checks.specs.plain.PatternTests.{has_written};
ghost use Rattle.rng_schema_checks.specs.plain.RowTests.{first_met, met_with, row_passes};
ghost use Rattle.rng_schema_checks.specs.plain.RuleTests.{rule_test};

use crate::datatypes::{is_refused, is_unknown};
use crate::definitions::DefinedNames;
use crate::name_classes::{breaks_except, has_declaration};
use rng_model::{
    Datatype, DatatypeValue, NameClass, OutOfMemory, SchemaPattern, SchemaRow, TypeSet,
};
use std::alloc::Global;

/// A rule that each pattern keeps by itself.
#[derive(Clone, Copy)]
pub enum Rule<'a, 'd> {
    /// Excepts contain only what is allowed, and no attribute is a declaration. RELAX NG Specification, section 4.16.
    NameClasses,
    /// Each datatype is one of the set, and each value is one of its datatype. RELAX NG Specification, section 4.16.
    Datatypes(Datatypes),
    /// Each ref has a definition. RELAX NG Specification, section 4.18.
    Refs(Scope<'a, 'd>),
}

/// The datatypes that a schema may name.
#[derive(Clone, Copy)]
pub struct Datatypes {
    /// Where a search copies the texts of bounds.
    pub alloc: Global,
    /// The set that has the datatypes.
    pub types: TypeSet,
}

/// The names that the refs of a grammar may refer to.
#[derive(Clone, Copy)]
pub struct Scope<'a, 'd> {
    /// The names that the grammar defines.
    pub names: Option<&'d DefinedNames<'a>>,
    /// The names that the grammar around it defines, if there is one.
    pub outer: Option<&'d DefinedNames<'a>>,
}

/// Whether the name is one of these, if there are any.
fn is_defined(names: Option<&DefinedNames<'_>>, name: &str) -> bool
    ensures { result ≡ finds names.entry name.now }
{
    match names {
        Some(names) => names.has(name),
        None => false,
    }
}

impl Rule<'_, '_> {
    fn is_broken_by_element(&self, class: &NameClass) -> bool
        ensures { result ≡ (rule_test self.now).element (class_of class.now) }
    {
        match self {
            Rule::NameClasses => breaks_except(class),
            Rule::Datatypes(_) | Rule::Refs(_) => false,
        }
    }

    fn is_broken_by_attribute(&self, class: &NameClass) -> bool
        ensures { result ≡ (rule_test self.now).attribute (class_of class.now) }
    {
        match self {
            Rule::NameClasses => breaks_except(class) || has_declaration(class),
            Rule::Datatypes(_) | Rule::Refs(_) => false,
        }
    }

    fn is_broken_by_datatype(&self, datatype: &Datatype) -> Result<bool, OutOfMemory>
        ensures { IfOk result (λ broken. broken ≡ (rule_test self.now).datatype (datatype_of datatype.now)) }
    {
        match self {
            Rule::Datatypes(of) => is_unknown(of.alloc, of.types, datatype),
            Rule::NameClasses | Rule::Refs(_) => Ok(false),
        }
    }

    fn is_broken_by_value(&self, value: &DatatypeValue) -> Result<bool, OutOfMemory>
        ensures { IfOk result (λ broken. broken ≡ (rule_test self.now).value (string_bytes value.now.library) (string_bytes value.now.name) (string_bytes value.now.text)) }
    {
        match self {
            Rule::Datatypes(of) => is_refused(
                of.alloc,
                of.types,
                value.library.as_str(),
                value.name.as_str(),
                value.text.as_str(),
            ),
            Rule::NameClasses | Rule::Refs(_) => Ok(false),
        }
    }

    fn is_broken_by_ref(&self, name: &str) -> bool
        ensures { result ≡ (rule_test self.now).ref name.now }
    {
        match self {
            Rule::NameClasses | Rule::Datatypes(_) => false,
            Rule::Refs(scope) => !is_defined(scope.names, name),
        }
    }

    fn is_broken_by_parent_ref(&self, name: &str) -> bool
        ensures { result ≡ (rule_test self.now).parent_ref name.now }
    {
        match self {
            Rule::NameClasses | Rule::Datatypes(_) => false,
            Rule::Refs(scope) => !is_defined(scope.outer, name),
        }
    }

    /// Whether the pattern of the row breaks the rule, its children apart.
    fn is_broken_by(&self, row: &SchemaRow) -> Result<bool, OutOfMemory>
        ensures { IfOk result (λ broken. broken ≡ row_passes (rule_test self.now) row.now) }
    {
        match row {
            SchemaRow::NotAllowed | SchemaRow::Empty | SchemaRow::Text => Ok(false),
            SchemaRow::Element(class) => Ok(self.is_broken_by_element(class)),
            SchemaRow::Attribute(class) => Ok(self.is_broken_by_attribute(class)),
            SchemaRow::Data(datatype) => self.is_broken_by_datatype(datatype),
            SchemaRow::DataExcept(datatype) => self.is_broken_by_datatype(datatype),
            SchemaRow::Value(value) => self.is_broken_by_value(value),
            SchemaRow::List | SchemaRow::Mixed | SchemaRow::Optional => Ok(false),
            SchemaRow::ZeroOrMore | SchemaRow::OneOrMore | SchemaRow::External => Ok(false),
            SchemaRow::Group(_) | SchemaRow::Interleave(_) | SchemaRow::Choice(_) => Ok(false),
            SchemaRow::Ref(name) => Ok(self.is_broken_by_ref(name.as_str())),
            SchemaRow::ParentRef(name) => Ok(self.is_broken_by_parent_ref(name.as_str())),
            SchemaRow::Grammar(_) => Ok(false),
        }
    }

    /// The number of the first pattern that breaks the rule, by itself or inside it, once the pattern of a row has
    /// replaced those from `start` on. Before that, the number is `broken`.
    fn broken_with(
        &self,
        row: &SchemaRow,
        start: usize,
        broken: Option<usize>,
    ) -> Result<Option<usize>, OutOfMemory>
        ensures { IfOk result (λ broken_now. broken_now ≡ met_with (row_passes (rule_test self.now) row.now) start broken) }
    {
        match broken {
            Some(number) => Ok(Some(number.min(start))),
            None => Ok(self.is_broken_by(row)?.then_some(start)),
        }
    }

    /// The number of the first of the patterns of these rows that breaks the rule, by itself or inside it. A row replaces
    /// patterns at the end, so this number tells whether one of them breaks the rule, and no list is kept.
    fn first_broken(&self, rows: &[SchemaRow]) -> Result<Option<usize>, OutOfMemory>
        ensures { IfOk result (λ first. first ≡ first_met (has_written (rule_test self.now)) (patterns_in rows.now)) }
    {
        let mut count: usize = 0;
        let mut broken = None;
        for row in rows {
            let start = count.saturating_sub(row.arity());
            broken = self.broken_with(row, start, broken)?;
            count = start + 1;
        }
        Ok(broken)
    }

    /// Whether the pattern or one inside it breaks the rule. The components of a nested grammar are not inside, since
    /// they are at its own place. Fails only when out of memory: a search for a datatype copies the texts of bounds.
    /// Takes linear time.
    #[tactic(auto, using(crate::proofs::BrokenRows::first_is))]
    pub fn is_broken_in(&self, pattern: &SchemaPattern) -> Result<bool, OutOfMemory>
        ensures { IfOk result (λ broken. broken ≡ has_written (rule_test self.now) (schema_pattern_of pattern.now)) }
    {
        Ok(matches!(self.first_broken(&pattern.rows)?, Some(0)))
    }
}
