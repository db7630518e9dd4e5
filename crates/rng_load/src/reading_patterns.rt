// From the patterns of files to those of a schema.
ghost use Rattle.std.specs.Prelude.{◌≡◌, [], ◌++◌, false, IfOk, OnOk, map, option_map, reverse, string_bytes};
ghost use Rattle.rng_model.specs.schema.Patterns as schema;
ghost use Rattle.rng_model.specs.declared.schema_pattern.SchemaRow.TheVariants as rows;
ghost use Rattle.rng_model.specs.views.SchemaView.{row_arity, row_pattern, schema_pattern_of};
ghost use Rattle.rng_model.specs.datatypes.DatatypeViews.{datatype_of, parameter_of};
ghost use Rattle.rng_model.specs.names.NameViews.{class_of as schema_class_of, namespace_bytes};
ghost use Rattle.rnc_model.specs.grammar.Syntax.{components_of};
ghost use Rattle.rnc_grammar.specs.views.View.{class_of, component_of, data_of, file_of, mention_of, parameters_of, pattern_of, type_of};
ghost use Rattle.rnc_model.specs.loading.Places.{TreePath, class_in, datatype_in};
ghost use Rattle.rng_load.specs.plain.OpenPatterns.{Files, finished, with_read};
ghost use Rattle.rng_load.specs.plain.PlainReading.{nested_here, read_at, read_mention};
ghost use Rattle.rng_load.specs.views.PatternRows.{Fits, made_of, opens, read_head};
ghost use Rattle.rng_load.specs.views.ReadPatterns.{files_in, nested_of};

use crate::pattern_rows::{Children, FileScope, PatternHead, PatternRows};
use crate::reading_names::{name_class, namespace_uri};
use indexmap::IndexMap;
use rnc_grammar::{Component, FileTree, Mention, Pattern};
use rng_model::{
    Datatype, DatatypeValue, NameClass, Namespace, OutOfMemory, Place, SchemaPattern, SchemaRow,
};
use std::alloc::Global;

/// A nested grammar: its place, the namespace that its file inherits, and its components.
///
/// RELAX NG Specification, sections 4.6 and 4.18.
#[derive(Drop)]
pub(crate) struct NestedGrammar<'a> {
    pub place: Place,
    pub uri: &'a Namespace,
    pub components: &'a [Component],
}

/// Reads patterns, given the trees of the files by name.
#[derive(Clone, Copy)]
pub(crate) struct TreeReader<'a> {
    pub alloc: Global,
    pub trees: &'a IndexMap<String, FileTree>,
}

impl<'a> TreeReader<'a> {
    /// Reads a pattern of a file as a pattern of the schema, and returns the grammars that are nested in it too. Follows
    /// mentions for at most the levels of the scope. `way` leads to the pattern, with the outermost number first.
    ///
    /// A mention is `notAllowed` if its file does not exist, or no level is left.
    ///
    /// RELAX NG Specification, sections 4.6, 4.9 and 4.18.
    pub(crate) fn pattern(
        self,
        scope: FileScope<'a>,
        way: &mut Vec<usize>,
        pattern: &'a Pattern,
    ) -> Result<(SchemaPattern, Vec<NestedGrammar<'a>>), OutOfMemory>
        ensures read { IfOk result (λ r. (schema_pattern_of r.0, map nested_of r.1.items)
            ≡ read_at (files_in self.entry) scope.entry.levels (namespace_bytes scope.entry.uri.now) (reverse way.old.items) (pattern_of pattern.now)) }
        ensures way { OnOk result (way.new.items ≡ way.old.items) }
    {
        let mut made = PatternRows::new(self.alloc);
        self.open(scope, way, pattern, &mut made)?;
        // The count only bounds the loop for the proof.
        'steps: for _ in 0..usize::MAX {
            if !self.step(way, &mut made)? {
                made.rows.shrink_to_fit();
                return Ok((SchemaPattern { rows: made.rows }, made.grammars));
            }
        }
        Err(OutOfMemory)
    }

    /// Reads the next child of the innermost open pattern, or ends that pattern if it has none. Returns whether a
    /// pattern was open.
    fn step(self, way: &mut Vec<usize>, made: &mut PatternRows<'a>) -> Result<bool, OutOfMemory>
        ensures same { OnOk result (finished (files_in self.entry) (opens made.new) (reverse way.new.items) (made_of made.new)
            ≡ finished (files_in self.entry) (opens made.old) (reverse way.old.items) (made_of made.old)) }
        ensures none { IfOk result (λ some. some ≡ false → opens made.new ≡ []) }
    {
        let Some(mut open) = made.open.pop() else {
            return Ok(false);
        };
        way.pop();
        let Some(child) = open.children.get(open.number) else {
            made.rows.push(open.row)?;
            return Ok(true);
        };
        let scope = open.scope;
        way.push(open.number)?;
        open.number += 1;
        made.open.push(open)?;
        self.open(scope, way, child, made)?;
        Ok(true)
    }

    /// Appends the rows of a pattern to which this way leads, or opens it.
    fn open(
        self,
        scope: FileScope<'a>,
        way: &mut Vec<usize>,
        pattern: &'a Pattern,
        made: &mut PatternRows<'a>,
    ) -> Result<(), OutOfMemory>
        ensures { OnOk result (finished (files_in self.entry) (opens made.new) (reverse way.new.items) (made_of made.new)
            ≡ finished (files_in self.entry) (opens made.old) (reverse way.old.items) (with_read (made_of made.old)
            (read_at (files_in self.entry) scope.entry.levels (namespace_bytes scope.entry.uri.now) (reverse way.old.items) (pattern_of pattern.now)))) }
    {
        let head = self.head(scope, way.as_slice(), pattern, &mut made.grammars)?;
        made.put(way, head)
    }

    /// How a pattern begins to which this way leads. Appends a grammar to `grammars`.
    ///
    /// RELAX NG Specification, sections 4.6, 4.9 and 4.18.
    #[tactic(auto, using(crate::proofs::Patterns::OpenPatterns::no_more), unfolding(crate::specs::plain::PlainReading::read_with))]
    fn head(
        self,
        scope: FileScope<'a>,
        way: &[usize],
        pattern: &'a Pattern,
        grammars: &mut Vec<NestedGrammar<'a>>,
    ) -> Result<PatternHead<'a>, OutOfMemory>
        ensures pattern { IfOk result (λ h. (read_head (files_in self.entry) (reverse way.now) h).0
            ≡ (read_at (files_in self.entry) scope.entry.levels (namespace_bytes scope.entry.uri.now) (reverse way.now) (pattern_of pattern.now)).0) }
        ensures nested { IfOk result (λ h. map nested_of grammars.new.items ++ (read_head (files_in self.entry) (reverse way.now) h).1
            ≡ map nested_of grammars.old.items
            ++ (read_at (files_in self.entry) scope.entry.levels (namespace_bytes scope.entry.uri.now) (reverse way.now) (pattern_of pattern.now)).1) }
        ensures fits { IfOk result Fits }
    {
        match pattern {
            Pattern::Element(class, body) => {
                let class = boxed_class(self.alloc, class, scope.uri)?;
                Ok(Children::One(body).of(SchemaRow::Element(class), scope))
            }
            Pattern::Attribute(class, body) => {
                let class = boxed_class(self.alloc, class, scope.uri)?;
                Ok(Children::One(body).of(SchemaRow::Attribute(class), scope))
            }
            Pattern::List(body) => Ok(Children::One(body).of(SchemaRow::List, scope)),
            Pattern::Mixed(body) => Ok(Children::One(body).of(SchemaRow::Mixed, scope)),
            Pattern::Optional(body) => Ok(Children::One(body).of(SchemaRow::Optional, scope)),
            Pattern::ZeroOrMore(body) => Ok(Children::One(body).of(SchemaRow::ZeroOrMore, scope)),
            Pattern::OneOrMore(body) => Ok(Children::One(body).of(SchemaRow::OneOrMore, scope)),
            Pattern::Ref(name) => {
                let name = String::from_str(self.alloc, name.as_str())?;
                Ok(PatternHead::Leaf(SchemaRow::Ref(name)))
            }
            Pattern::ParentRef(name) => {
                let name = String::from_str(self.alloc, name.as_str())?;
                Ok(PatternHead::Leaf(SchemaRow::ParentRef(name)))
            }
            Pattern::Empty => Ok(PatternHead::Leaf(SchemaRow::Empty)),
            Pattern::Text => Ok(PatternHead::Leaf(SchemaRow::Text)),
            Pattern::NotAllowed => Ok(PatternHead::Leaf(SchemaRow::NotAllowed)),
            Pattern::Value(written) => {
                let value = value(self.alloc, written)?;
                Ok(PatternHead::Leaf(SchemaRow::Value(value)))
            }
            Pattern::Data { datatype, except } => data(self.alloc, scope, datatype, except),
            Pattern::External(mention) => self.external(scope, way, mention, grammars),
            Pattern::Grammar(components) => {
                let row = grammar(self.alloc, scope.uri, way, components, grammars)?;
                Ok(PatternHead::Leaf(row))
            }
            Pattern::Group(all) => Ok(Children::All(all).of(SchemaRow::Group(all.len()), scope)),
            Pattern::Interleave(all) => {
                Ok(Children::All(all).of(SchemaRow::Interleave(all.len()), scope))
            }
            Pattern::Choice(all) => Ok(Children::All(all).of(SchemaRow::Choice(all.len()), scope)),
        }
    }

    /// How the pattern of a mentioned file begins. A grammar becomes a nested one.
    ///
    /// RELAX NG Specification, section 4.6.
    #[tactic(auto, unfolding(crate::specs::plain::PlainReading::external_with, crate::specs::plain::PlainReading::read_below))]
    fn external(
        self,
        scope: FileScope<'a>,
        way: &[usize],
        mention: &'a Mention,
        grammars: &mut Vec<NestedGrammar<'a>>,
    ) -> Result<PatternHead<'a>, OutOfMemory>
        ensures pattern { IfOk result (λ h. (read_head (files_in self.entry) (reverse way.now) h).0
            ≡ (read_mention (files_in self.entry) scope.entry.levels (namespace_bytes scope.entry.uri.now) (reverse way.now) (mention_of mention.now)).0) }
        ensures nested { IfOk result (λ h. map nested_of grammars.new.items ++ (read_head (files_in self.entry) (reverse way.now) h).1
            ≡ map nested_of grammars.old.items
            ++ (read_mention (files_in self.entry) scope.entry.levels (namespace_bytes scope.entry.uri.now) (reverse way.now) (mention_of mention.now)).1) }
        ensures fits { IfOk result Fits }
    {
        let uri = namespace_uri(&mention.namespace, scope.uri);
        let Some(tree) = self.tree(mention.href.as_str()) else {
            return Ok(PatternHead::Leaf(SchemaRow::NotAllowed));
        };
        match tree {
            FileTree::Grammar(components) => {
                let row = grammar(self.alloc, uri, way, components, grammars)?;
                Ok(PatternHead::External(row))
            }
            FileTree::Pattern(pattern) => {
                if scope.levels == 0 {
                    return Ok(PatternHead::External(SchemaRow::NotAllowed));
                }
                let levels = scope.levels - 1;
                let scope = FileScope { levels, uri };
                Ok(Children::One(pattern).of(SchemaRow::External, scope))
            }
        }
    }

    /// The tree of the file of this name.
    fn tree(self, name: &str) -> Option<&'a FileTree>
        ensures { option_map (λ t. file_of t.now) result ≡ files_in self.entry name.now }
    {
        self.trees.get(name)
    }
}

/// The row of a nested grammar. Appends the grammar to `grammars`.
///
/// RELAX NG Specification, section 4.18.
fn grammar<'a>(
    alloc: Global,
    uri: &'a Namespace,
    way: &[usize],
    components: &'a [Component],
    grammars: &mut Vec<NestedGrammar<'a>>,
) -> Result<SchemaRow, OutOfMemory>
    ensures pattern { IfOk result (λ r. row_pattern r [] ≡ schema.grammar (reverse way.now)) }
    ensures leaf { IfOk result (λ r. row_arity r ≡ 0) }
    ensures nested { OnOk result (map nested_of grammars.new.items ≡ map nested_of grammars.old.items
        ++ nested_here (reverse way.now) (namespace_bytes uri.now) (components_of (map component_of components.now))) }
{
    let place = Place::from_outermost(alloc, way)?;
    grammars.push(NestedGrammar {
        place: place.share()?,
        uri,
        components,
    })?;
    Ok(SchemaRow::Grammar(place))
}

/// A name class, in a file that inherits this namespace.
///
/// RELAX NG Specification, section 4.9.
fn boxed_class(
    alloc: Global,
    class: &rnc_grammar::NameClass,
    inherited: &Namespace,
) -> Result<Box<NameClass>, OutOfMemory>
    ensures { IfOk result (λ c. schema_class_of c.value ≡ class_in (namespace_bytes inherited.now) (class_of class.now)) }
{
    let class = name_class(alloc, class, inherited)?;
    Ok(Box::new(alloc, class)?)
}

/// How a datatype begins, with or without a pattern that it excludes.
#[tactic(auto, using(crate::proofs::Patterns::OpenPatterns::no_more), unfolding(crate::specs::plain::PlainReading::read_with))]
fn data<'a>(
    alloc: Global,
    scope: FileScope<'a>,
    written: &rnc_grammar::Datatype,
    except: &'a Option<Box<Pattern>>,
) -> Result<PatternHead<'a>, OutOfMemory>
    ensures pattern { (files : Files) → (x : TreePath) → IfOk result (λ h. read_head files x h
        ≡ read_at files scope.entry.levels (namespace_bytes scope.entry.uri.now) x (data_of written.now (option_map (λ p. pattern_of p.value) except.now))) }
    ensures fits { IfOk result Fits }
{
    let datatype = datatype(alloc, written)?;
    match except {
        None => Ok(PatternHead::Leaf(SchemaRow::Data(datatype))),
        Some(except) => { Ok(Children::One(except).of(SchemaRow::DataExcept(datatype), scope)) }
    }
}

/// A value of a datatype.
fn value(
    alloc: Global,
    written: &rnc_grammar::DatatypeValue,
) -> Result<Box<DatatypeValue>, OutOfMemory>
    ensures { IfOk result (λ v. row_pattern (rows.Value v) []
        ≡ schema.value (type_of written.now.type_name).library (type_of written.now.type_name).name (string_bytes written.now.text)) }
{
    let value = DatatypeValue {
        library: String::from_str(alloc, written.type_name.library.as_str())?,
        name: String::from_str(alloc, written.type_name.name.as_str())?,
        text: String::from_str(alloc, written.text.as_str())?,
    };
    Ok(Box::new(alloc, value)?)
}

/// A datatype with its parameters.
fn datatype(alloc: Global, written: &rnc_grammar::Datatype) -> Result<Box<Datatype>, OutOfMemory>
    ensures { IfOk result (λ d. datatype_of d.value ≡ datatype_in (type_of written.now.type_name) (parameters_of written.now)) }
{
    let datatype = Datatype {
        library: String::from_str(alloc, written.type_name.library.as_str())?,
        name: String::from_str(alloc, written.type_name.name.as_str())?,
        parameters: copied(alloc, &written.parameters)?,
    };
    Ok(Box::new(alloc, datatype)?)
}

/// A copy of these parameters.
fn copied(
    alloc: Global,
    parameters: &[(String, String)],
) -> Result<Vec<(String, String)>, OutOfMemory>
    ensures { IfOk result (λ ps. map parameter_of ps.items ≡ map parameter_of parameters.now) }
{
    let mut all = Vec::with_capacity(alloc, parameters.len())?;
    for (name, value) in parameters {
        let name = String::from_str(alloc, name.as_str())?;
        all.push((name, String::from_str(alloc, value.as_str())?))?;
    }
    Ok(all)
}
