// Rows of patterns that are being read, and the patterns whose children are not all read.
ghost use Rattle.std.specs.Prelude.{◌≡◌, ◌<◌, ◌+◌, ◌^◌, [], ◌∷◌, IfSome, MatchOption, OnOk, drop, reverse};
ghost use Rattle.rnc_grammar.specs.views.View.{pattern_of};
ghost use Rattle.rng_load.specs.declared.pattern_rows.PatternHead.TheVariants as heads;
ghost use Rattle.rng_load.specs.plain.OpenPatterns.{Files, finished, with_read};
ghost use Rattle.rng_load.specs.views.PatternRows.{Fits, children_of, made_of, opens, read_head};

use crate::reading_patterns::NestedGrammar;
use rnc_grammar::Pattern;
use rng_model::{Namespace, OutOfMemory, SchemaRow};
use std::alloc::Global;

/// Where a pattern is read: how many levels of mentions are left, and the namespace that its file inherits.
#[derive(Clone, Copy)]
pub(crate) struct FileScope<'a> {
    pub levels: u32,
    pub uri: &'a Namespace,
}

/// The children of a pattern.
#[derive(Clone, Copy)]
pub(crate) enum Children<'a> {
    One(&'a Pattern),
    All(&'a [Pattern]),
}

/// A pattern whose children are not all read: its row, where its children are read, and the number of the next one.
#[derive(Drop)]
pub(crate) struct OpenPattern<'a> {
    pub row: SchemaRow,
    pub scope: FileScope<'a>,
    pub children: Children<'a>,
    pub number: usize,
}

/// How a pattern begins.
#[derive(Drop)]
pub(crate) enum PatternHead<'a> {
    /// The row is the whole pattern.
    Leaf(SchemaRow),
    /// The pattern of another file, which is this row.
    External(SchemaRow),
    Open(OpenPattern<'a>),
}

/// What is read of a pattern: the rows, the grammars that are nested in it, and the patterns that are open. The
/// innermost open pattern is the last.
#[derive(Drop)]
pub(crate) struct PatternRows<'a> {
    pub rows: Vec<SchemaRow>,
    pub grammars: Vec<NestedGrammar<'a>>,
    pub open: Vec<OpenPattern<'a>>,
}

impl<'a> Children<'a> {
    /// A pattern of this row with these children, which are read in this scope.
    pub(crate) fn of(self, row: SchemaRow, scope: FileScope<'a>) -> PatternHead<'a>
        ensures { result ≡ heads.Open (record { row = row; scope = scope.entry; children = self.entry; number = 0 }) }
    {
        PatternHead::Open(OpenPattern {
            row,
            scope,
            children: self,
            number: 0,
        })
    }

    /// The child with this number.
    #[tactic(auto, using(crate::proofs::Patterns::OpenPatterns::child_there, crate::proofs::Patterns::OpenPatterns::child_past))]
    pub(crate) fn get(self, number: usize) -> Option<&'a Pattern>
        ensures child { MatchOption result (drop number (children_of self.entry) ≡ [])
            (λ p. drop number (children_of self.entry) ≡ pattern_of p.now ∷ drop (number + 1) (children_of self.entry)) }
        ensures below { IfSome result (λ p. number + 1 < 2 ^ 64) }
    {
        match self {
            Children::One(pattern) => { if number == 0 { Some(pattern) } else { None } }
            Children::All(patterns) => {
                if number < patterns.len() {
                    Some(&patterns[number])
                } else {
                    None
                }
            }
        }
    }
}

impl<'a> PatternRows<'a> {
    /// Nothing yet.
    pub(crate) fn new(alloc: Global) -> Self
        ensures opens { opens result ≡ [] }
        ensures made { made_of result ≡ ([], []) }
    {
        PatternRows {
            rows: Vec::new(alloc),
            grammars: Vec::new(alloc),
            open: Vec::new(alloc),
        }
    }

    /// Appends the rows of a pattern to which this way leads, or opens it.
    pub(crate) fn put(
        &mut self,
        way: &mut Vec<usize>,
        head: PatternHead<'a>,
    ) -> Result<(), OutOfMemory>
        requires { Fits head }
        ensures { OnOk result ((files : Files) → finished files (opens self.new) (reverse way.new.items) (made_of self.new)
            ≡ finished files (opens self.old) (reverse way.old.items) (with_read (made_of self.old) (read_head files (reverse way.old.items) head.entry))) }
    {
        match head {
            PatternHead::Leaf(row) => Ok(self.rows.push(row)?),
            PatternHead::External(row) => {
                self.rows.push(row)?;
                Ok(self.rows.push(SchemaRow::External)?)
            }
            PatternHead::Open(open) => {
                way.push(0)?;
                Ok(self.open.push(open)?)
            }
        }
    }
}
