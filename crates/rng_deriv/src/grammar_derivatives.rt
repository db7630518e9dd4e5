// What is left of the patterns of a grammar.
ghost use Rattle.std.specs.Prelude.{◌≡◌, IfOk};
ghost use Rattle.rng_model.specs.simple.Table.{grammar_of};
ghost use Rattle.rng_model.specs.restrictions.RestrictionFaults.{BreaksNone};
ghost use Rattle.rng_deriv_table.specs.views.Trees.{trees};

use crate::learned::Learned;
use crate::pattern_renewal::{Selection, copied, count_start, limit_beside, renewed};
use crate::starts::joined_ways;
use rng_deriv_events::{Derivatives, Ways};
use rng_deriv_table::{PatternNumber, PatternTable};
use rng_deriv_texts::{after_tag, after_text};
use rng_deriv_ways::{Context, Known, start};
use rng_model::{Attr, Name, OutOfMemory, SimpleGrammar};
use rng_names::{NameKey, NameKeys, is_same_name};
use std::alloc::Global;
use std::marker::Model;

/// The patterns of a grammar that obeys the restrictions, and what is left of them, by number.
///
/// RELAX NG Specification, sections 6.2 and 7. After a call runs out of memory, there are no patterns. The ways of parts
/// of patterns are kept, so each is computed once for each key of names, and for strings.
#[derive(Drop)]
pub struct GrammarDerivatives<'a> {
    pub grammar: &'a SimpleGrammar,
    pub learned: Box<Learned>,
}

impl<'a> Model for GrammarDerivatives<'a> {
    ghost use Rattle.std.specs.Prelude.{List};
    ghost use Rattle.rng_deriv_table.specs.views.Node.{Node};
    ghost use Rattle.rng_deriv_events.specs.views.Basis.{Basis};
    ghost use Rattle.rng_deriv.specs.views.Serving.{Serves, nodes_of};

    ghost Value = { Basis × List Node };

    ghost use Rattle.rng_model.specs.contracts.name.NameClass as classes;
    ghost use Rattle.std.specs.Coded.{codes};

    ghost coded = { Prim.hlevel (codes, classes.the_row.coded) };

    ghost view = { λ d. (record { grammar = d.grammar.now; keys = d.learned.value.keys }, nodes_of d.learned.value) };

    ghost invariant = { λ d. Serves d.grammar.now d.learned.value };
}

impl<'a> GrammarDerivatives<'a> {
    /// Creates the patterns of a grammar.
    ///
    /// Fails only when out of memory. Costs a look-up for each pattern, and sorting the choices.
    pub fn new(alloc: Global, grammar: &'a SimpleGrammar) -> Result<Self, OutOfMemory>
        requires { BreaksNone (grammar_of grammar.now) }
        ensures { IfOk result (λ d. d.0.grammar ≡ grammar.now) }
    {
        // A call of a reader of the grammar proves that its tables are well-formed.
        let _start = grammar.start();
        let (table, numbers) = PatternTable::of(alloc, grammar)?;
        let keys = NameKeys::of(alloc, grammar)?;
        let known = Known::new(alloc, grammar, &keys)?;
        let limit = limit_beside(table.len());
        let learned = Learned {
            numbers,
            keys,
            known,
            starts: 0,
            limit,
            table,
            lost: false,
        };
        let learned = Box::new(alloc, learned)?;
        Ok(GrammarDerivatives { grammar, learned })
    }
}

impl Derivatives for GrammarDerivatives<'_> {
    ghost basis = { λ d. d.0 };

    ghost trees = { λ d. trees d.0.grammar d.1 };

    fn start(&self) -> Result<PatternNumber, OutOfMemory> {
        let learned = &*self.learned;
        if learned.lost {
            return Err(OutOfMemory);
        }
        Ok(learned.numbers[self.grammar.start().0])
    }

    fn is_nullable(&self, pattern: PatternNumber) -> bool {
        let learned = &*self.learned;
        if learned.lost {
            return false;
        }
        learned.table.facts(pattern).nullable
    }

    fn is_not_allowed(&self, pattern: PatternNumber) -> bool {
        let learned = &*self.learned;
        if learned.lost {
            return true;
        }
        learned.table.is_not_allowed(pattern)
    }

    fn tests_strings(&self, pattern: PatternNumber) -> bool {
        let learned = &*self.learned;
        if learned.lost {
            return false;
        }
        learned.table.facts(pattern).tests_strings
    }

    fn choice(
        &mut self,
        alloc: Global,
        members: &[PatternNumber],
    ) -> Result<PatternNumber, OutOfMemory> {
        let learned = &mut *self.learned;
        if learned.lost {
            return Err(OutOfMemory);
        }
        learned.lost = true;
        let number = learned.table.joined(alloc, members)?;
        learned.lost = false;
        Ok(number)
    }

    fn after_text(
        &mut self,
        alloc: Global,
        pattern: PatternNumber,
        text: &str,
    ) -> Result<PatternNumber, OutOfMemory> {
        let learned = &mut *self.learned;
        if learned.lost {
            return Err(OutOfMemory);
        }
        learned.lost = true;
        let context = Context {
            alloc,
            grammar: self.grammar,
            keys: &learned.keys,
            numbers: learned.numbers.as_slice(),
        };
        let number = after_text(
            &context,
            &mut learned.table,
            &mut learned.known,
            pattern,
            text,
        )?;
        learned.lost = false;
        Ok(number)
    }

    fn after_tag(
        &mut self,
        alloc: Global,
        body: PatternNumber,
        attrs: &[Attr],
    ) -> Result<PatternNumber, OutOfMemory> {
        let learned = &mut *self.learned;
        if learned.lost {
            return Err(OutOfMemory);
        }
        learned.lost = true;
        let context = Context {
            alloc,
            grammar: self.grammar,
            keys: &learned.keys,
            numbers: learned.numbers.as_slice(),
        };
        let number = after_tag(
            &context,
            &mut learned.table,
            &mut learned.known,
            body,
            attrs,
        )?;
        learned.lost = false;
        Ok(number)
    }

    fn key(&self, name: &Name) -> NameKey {
        let learned = &*self.learned;
        learned.keys.key(name)
    }

    fn is_key(&self, key: NameKey, name: &Name) -> bool {
        let learned = &*self.learned;
        if key.0 >= learned.keys.len() {
            return false;
        }
        is_same_name(learned.keys.name(key), name)
    }

    fn starts(
        &mut self,
        alloc: Global,
        pattern: PatternNumber,
        key: NameKey,
    ) -> Result<Ways, OutOfMemory> {
        let learned = &mut *self.learned;
        if learned.lost {
            return Err(OutOfMemory);
        }
        learned.lost = true;
        count_start(alloc, &mut learned.known, &mut learned.starts);
        let numbers = learned.numbers.as_slice();
        let context = Context {
            alloc,
            grammar: self.grammar,
            keys: &learned.keys,
            numbers,
        };
        let ways = start(
            &context,
            &mut learned.table,
            &mut learned.known,
            pattern,
            key,
        )?;
        let starts = joined_ways(alloc, &mut learned.table, ways.as_slice())?;
        learned.lost = false;
        Ok(starts)
    }

    fn is_crowded(&self) -> bool {
        self.learned.table.len() >= self.learned.limit
    }

    fn renew(
        &mut self,
        alloc: Global,
        held: &[PatternNumber],
    ) -> Result<Vec<PatternNumber>, OutOfMemory> {
        let learned = &mut *self.learned;
        if learned.lost {
            return Err(OutOfMemory);
        }
        // What is known of the patterns stays, if only the levels are crowded.
        if learned.table.len() < learned.limit {
            return copied(alloc, held);
        }
        learned.lost = true;
        let Selection {
            table,
            numbers,
            held,
        } = renewed(alloc, &learned.table, learned.numbers.as_slice(), held)?;
        learned.known.forget(alloc);
        learned.numbers = numbers;
        learned.limit = limit_beside(table.len());
        learned.table = table;
        learned.lost = false;
        Ok(held)
    }
}
