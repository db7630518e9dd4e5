// An expression read symbol by symbol: what is kept, and the step outside of classes.
ghost use Rattle.std.specs.Prelude.{◌≡◌, ◌<◌, IfOk};
ghost use Rattle.rng_model.specs.regexes.ExpressionGrammar.{is_meta};
ghost use Rattle.xsd_regex.specs.plain.KeptSteps as kept;
ghost use Rattle.xsd_regex.specs.plain.KeptSteps.{written, marked, number_with};
ghost use Rattle.rng_model.specs.regexes.plain.Machine.{opens_quantifier};
ghost use Rattle.xsd_regex.specs.views.Classes.{class_of, mark_of};
ghost use Rattle.xsd_regex.specs.views.Rows.{row_of};
ghost use Rattle.xsd_regex.specs.views.Steps.{kept_of, IsStep, IsFinish};
ghost use Rattle.xsd_regex.specs.views.Symbols.{symbol_of};

use crate::class::{Class, Member, only_char, wildcard};
use crate::expression::Row;
use crate::fault::ReadFault;
use crate::symbol::Symbol;
use rng_model::{OutOfMemory, RegexMode};
use std::alloc::Global;

/// What is read so far of an expression.
#[derive(Drop)]
pub(crate) struct Reader {
    pub(crate) alloc: Global,
    // the parts that are complete, each before what it is a part of
    pub(crate) rows: Vec<Row>,
    // the class that is open
    pub(crate) members: Vec<Member>,
    // for each `(` that is open, whether an alternative was before it
    pub(crate) groups: Vec<bool>,
    // whether an expression and `|` are before the branch
    pub(crate) alternative: bool,
    // the number of classes that subtract the class that is open
    pub(crate) depth: usize,
    pub(crate) mode: RegexMode,
}

impl Reader {
    // one more row
    pub(crate) fn write(&mut self, row: Row) -> Result<(), OutOfMemory>
        ensures { IfOk result (λ _. kept_of self.new ≡ written (row_of row) (kept_of self.old)) }
    {
        self.rows.push(row)?;
        Ok(())
    }

    // one more member of the open class, or the end of a group of it
    pub(crate) fn mark(&mut self, member: Member) -> Result<(), OutOfMemory>
        ensures { IfOk result (λ _. kept_of self.new ≡ marked (mark_of member) (kept_of self.old)) }
    {
        self.members.push(member)?;
        Ok(())
    }

    // a class is an atom
    fn atom(&mut self, class: Class) -> Result<(), OutOfMemory>
        ensures { IfOk result (λ _. kept_of self.new ≡ kept.atom_of (class_of class) (kept_of self.old)) }
    {
        self.write(Row::OneOf(class))?;
        self.mode = RegexMode::Atom;
        Ok(())
    }

    // the last piece is complete
    fn join(&mut self) -> Result<(), OutOfMemory>
        ensures { IfOk result (λ _. kept_of self.new ≡ kept.joined (kept_of self.old)) }
    {
        self.write(Row::Both)?;
        self.mode = RegexMode::Ready;
        Ok(())
    }

    // the last atom, so often
    fn quantify(&mut self, least: u32, most: Option<u32>) -> Result<(), OutOfMemory>
        ensures { IfOk result (λ _. kept_of self.new ≡ kept.quantified least most (kept_of self.old)) }
    {
        self.write(Row::Times(least, most))?;
        self.join()
    }

    // the branch is complete
    fn end_branch(&mut self) -> Result<(), OutOfMemory>
        ensures { IfOk result (λ _. kept_of self.new ≡ kept.with_alternative (kept_of self.old)) }
    {
        if self.alternative {
            self.write(Row::Either)
        } else {
            Ok(())
        }
    }

    // `|`
    fn next_branch(&mut self) -> Result<(), OutOfMemory>
        ensures { IfOk result (λ _. kept_of self.new ≡ kept.next_branch (kept_of self.old)) }
    {
        self.end_branch()?;
        self.write(Row::Nothing)?;
        self.alternative = true;
        self.mode = RegexMode::Ready;
        Ok(())
    }

    // `(`
    fn open_group(&mut self) -> Result<(), OutOfMemory>
        ensures { IfOk result (λ _. kept_of self.new ≡ kept.open_group (kept_of self.old)) }
    {
        self.write(Row::Nothing)?;
        self.groups.push(self.alternative)?;
        self.alternative = false;
        self.mode = RegexMode::Ready;
        Ok(())
    }

    // `)`
    fn close_group(&mut self) -> Result<(), ReadFault>
        ensures { IsStep result (kept_of self.new) (kept.closed_in (kept_of self.old).groups (kept_of self.old)) }
    {
        match self.groups.pop() {
            Some(alternative) => {
                self.end_branch()?;
                self.alternative = alternative;
                self.mode = RegexMode::Atom;
                Ok(())
            }
            None => Err(ReadFault::NoExpression),
        }
    }

    // a character with a meaning of its own, where a piece may begin
    fn sign(&mut self, c: char) -> Result<(), ReadFault>
        ensures { IsStep result (kept_of self.new) (kept.sign c (kept_of self.old)) }
    {
        match c {
            '(' => Ok(self.open_group()?),
            ')' => self.close_group(),
            '|' => Ok(self.next_branch()?),
            '[' => {
                self.mode = RegexMode::Open;
                Ok(())
            }
            '.' => Ok(self.atom(Class::Leaf(wildcard()))?),
            _ => Err(ReadFault::NoExpression),
        }
    }

    // where a piece may begin
    fn piece(&mut self, symbol: Symbol) -> Result<(), ReadFault>
        ensures { IsStep result (kept_of self.new) (kept.piece (symbol_of symbol) (kept_of self.old)) }
    {
        match symbol {
            Symbol::Escaped(c) => Ok(self.atom(Class::Leaf(only_char(c)))?),
            Symbol::Class(leaf) => Ok(self.atom(Class::Leaf(leaf))?),
            Symbol::Char(c) if is_meta(c) => self.sign(c),
            Symbol::Char(c) => Ok(self.atom(Class::Leaf(only_char(c)))?),
        }
    }

    // a character that begins a quantifier
    fn quantifier(&mut self, c: char) -> Result<(), OutOfMemory>
        ensures { IfOk result (λ _. Some (kept_of self.new) ≡ kept.quantifier c (kept_of self.old)) }
    {
        match c {
            '?' => self.quantify(0, Some(1)),
            '*' => self.quantify(0, None),
            '+' => self.quantify(1, None),
            _ => {
                self.mode = RegexMode::Least(None);
                Ok(())
            }
        }
    }

    // behind an atom
    fn behind_atom(&mut self, symbol: Symbol) -> Result<(), ReadFault>
        ensures { IsStep result (kept_of self.new) (kept.behind_atom (symbol_of symbol) (kept_of self.old)) }
    {
        match symbol {
            Symbol::Char(c) if opens_quantifier(c) => Ok(self.quantifier(c)?),
            _ => {
                self.join()?;
                self.piece(symbol)
            }
        }
    }

    // behind the digits of the first number
    fn behind_least(&mut self, least: Option<u32>, c: char) -> Result<(), ReadFault>
        ensures { IsStep result (kept_of self.new) (kept.behind_least least c (kept_of self.old)) }
    {
        match (least, c) {
            (Some(least), ',') => {
                self.mode = RegexMode::Most(least, None);
                Ok(())
            }
            (Some(least), '}') => Ok(self.quantify(least, Some(least))?),
            _ => Err(ReadFault::NoExpression),
        }
    }

    // behind the digits of the second number
    fn behind_most(&mut self, least: u32, most: Option<u32>, c: char) -> Result<(), ReadFault>
        ensures { IsStep result (kept_of self.new) (kept.behind_most least most c (kept_of self.old)) }
    {
        match (c, most) {
            ('}', None) => Ok(self.quantify(least, None)?),
            ('}', Some(most)) if least <= most => Ok(self.quantify(least, Some(most))?),
            _ => Err(ReadFault::NoExpression),
        }
    }

    // in the first number
    fn in_least(&mut self, least: Option<u32>, symbol: Symbol) -> Result<(), ReadFault>
        ensures { IsStep result (kept_of self.new) (kept.in_least least (symbol_of symbol) (kept_of self.old)) }
    {
        let Symbol::Char(c) = symbol else {
            return Err(ReadFault::NoExpression);
        };
        match c.to_digit(10) {
            Some(digit) => match number_with(least, digit) {
                Some(number) => {
                    self.mode = RegexMode::Least(Some(number));
                    Ok(())
                }
                None => Err(ReadFault::NoExpression),
            },
            None => self.behind_least(least, c),
        }
    }

    // in the second number
    fn in_most(&mut self, least: u32, most: Option<u32>, symbol: Symbol) -> Result<(), ReadFault>
        ensures { IsStep result (kept_of self.new) (kept.in_most least most (symbol_of symbol) (kept_of self.old)) }
    {
        let Symbol::Char(c) = symbol else {
            return Err(ReadFault::NoExpression);
        };
        match c.to_digit(10) {
            Some(digit) => match number_with(most, digit) {
                Some(number) => {
                    self.mode = RegexMode::Most(least, Some(number));
                    Ok(())
                }
                None => Err(ReadFault::NoExpression),
            },
            None => self.behind_most(least, most, c),
        }
    }

    /// Reads the next symbol.
    pub(crate) fn step(&mut self, symbol: Symbol) -> Result<(), ReadFault>
        ensures { IsStep result (kept_of self.new) (kept.step_in (kept_of self.old).mode (symbol_of symbol) (kept_of self.old)) }
    {
        match self.mode {
            RegexMode::Ready => self.piece(symbol),
            RegexMode::Atom => self.behind_atom(symbol),
            RegexMode::Least(least) => self.in_least(least, symbol),
            RegexMode::Most(least, most) => self.in_most(least, most, symbol),
            RegexMode::Open => self.behind_open(symbol),
            RegexMode::Group(negated, place) => self.in_group(negated, place, symbol),
            RegexMode::Closed => self.behind_closed(symbol),
        }
    }

    /// Returns the rows of the expression, at the end of the text.
    pub(crate) fn finish(mut self) -> Result<Vec<Row>, ReadFault>
        ensures { IsFinish result (kept.finished_in (kept_of self).mode (kept_of self)) }
    {
        match self.mode {
            RegexMode::Ready => self.whole(),
            RegexMode::Atom => {
                self.join()?;
                self.whole()
            }
            _ => Err(ReadFault::NoExpression),
        }
    }

    // the rows, if no group is open
    fn whole(mut self) -> Result<Vec<Row>, ReadFault>
        ensures { IsFinish result (kept.whole_in (kept_of self).groups (kept_of self)) }
    {
        if !self.groups.is_empty() {
            return Err(ReadFault::NoExpression);
        }
        self.end_branch()?;
        Ok(self.rows)
    }

    /// Begins an expression.
    pub(crate) fn new(alloc: Global) -> Result<Reader, OutOfMemory>
        ensures { IfOk result (λ r. kept_of r ≡ kept.start) }
    {
        let mut reader = Reader {
            alloc,
            rows: Vec::new(alloc),
            members: Vec::new(alloc),
            groups: Vec::new(alloc),
            alternative: false,
            depth: 0,
            mode: RegexMode::Ready,
        };
        reader.write(Row::Nothing)?;
        Ok(reader)
    }
}

// the number with one more digit, if it is not too large
fn number_with(number: Option<u32>, digit: u32) -> Option<u32>
    requires { digit < 10 }
    ensures { result ≡ number_with number digit }
{
    number.unwrap_or(0).checked_mul(10)?.checked_add(digit)
}

// the character has a meaning of its own outside of classes
fn is_meta(c: char) -> bool
    ensures { result ≡ is_meta c }
{
    matches!(
        c,
        '.' | '\\' | '?' | '*' | '+' | '{' | '}' | '(' | ')' | '|' | '[' | ']'
    )
}

// a quantifier begins with the character
fn opens_quantifier(c: char) -> bool
    ensures { result ≡ opens_quantifier c }
{
    matches!(c, '?' | '*' | '+' | '{')
}
