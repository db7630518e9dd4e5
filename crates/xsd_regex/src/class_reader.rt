// A class in brackets read symbol by symbol.
ghost use Rattle.std.specs.Prelude.{◌≡◌, IfOk};
ghost use Rattle.rng_model.specs.regexes.plain.ClassSteps.{is_end};
ghost use Rattle.xsd_regex.specs.plain.KeptSteps as kept;
ghost use Rattle.xsd_regex.specs.views.Classes.{leaf_class};
ghost use Rattle.xsd_regex.specs.views.Steps.{kept_of, IsStep};
ghost use Rattle.xsd_regex.specs.views.Symbols.{symbol_of};

use crate::class::{Class, Leaf, Member, char_from_to, only_char};
use crate::expression::Row;
use crate::fault::ReadFault;
use crate::reader::Reader;
use crate::symbol::Symbol;
use rng_model::{ClassPlace, OutOfMemory, RegexMode};
use std::mem;

impl Reader {
    // `]` of a class: it is subtracted, or it is an atom
    fn end_class(&mut self) -> Result<(), OutOfMemory>
        ensures { IfOk result (λ _. kept_of self.new ≡ kept.ended_at (kept_of self.old).depth (kept_of self.old)) }
    {
        if self.depth > 0 {
            self.depth -= 1;
            self.mode = RegexMode::Closed;
            return Ok(());
        }
        let members = mem::replace(&mut self.members, Vec::new(self.alloc));
        self.write(Row::OneOf(Class::Groups(members)))?;
        self.mode = RegexMode::Atom;
        Ok(())
    }

    // `]` of a class, behind a group
    fn end_group(&mut self, negated: bool) -> Result<(), OutOfMemory>
        ensures { IfOk result (λ _. kept_of self.new ≡ kept.end_group negated (kept_of self.old)) }
    {
        self.mark(Member::End(negated))?;
        self.end_class()
    }

    // `[` of a class that is subtracted
    fn subtract(&mut self, negated: bool) -> Result<(), OutOfMemory>
        ensures { IfOk result (λ _. kept_of self.new ≡ kept.subtracted negated (kept_of self.old)) }
    {
        self.mark(Member::End(negated))?;
        // no more classes are open than there are members, so this is always a number
        self.depth = self.depth.checked_add(1).ok_or(OutOfMemory)?;
        self.mode = RegexMode::Open;
        Ok(())
    }

    // one more member, which is complete
    fn add(&mut self, negated: bool, leaf: Leaf) -> Result<(), OutOfMemory>
        ensures { IfOk result (λ _. kept_of self.new ≡ kept.with_member negated (leaf_class leaf) (kept_of self.old)) }
    {
        self.mark(Member::Leaf(leaf))?;
        self.mode = RegexMode::Group(negated, ClassPlace::Member);
        Ok(())
    }

    // the range from one character to another
    fn end_range(&mut self, negated: bool, first: char, last: char) -> Result<(), ReadFault>
        ensures { IsStep result (kept_of self.new) (kept.ended_range negated first last (kept_of self.old)) }
    {
        if first <= last {
            Ok(self.add(negated, char_from_to(first, last))?)
        } else {
            Err(ReadFault::NoExpression)
        }
    }

    // behind a member and `-`
    fn behind_dash(&mut self, negated: bool, symbol: Symbol) -> Result<(), ReadFault>
        ensures { IsStep result (kept_of self.new) (kept.behind_dash negated (symbol_of symbol) (kept_of self.old)) }
    {
        match symbol {
            Symbol::Char(']') => {
                self.mark(Member::Leaf(only_char('-')))?;
                Ok(self.end_group(negated)?)
            }
            Symbol::Char('[') => Ok(self.subtract(negated)?),
            Symbol::Char('-') => {
                self.mark(Member::Leaf(only_char('-')))?;
                self.mode = RegexMode::Group(negated, ClassPlace::Last);
                Ok(())
            }
            _ => Err(ReadFault::NoExpression),
        }
    }

    // behind the last `-` and another one
    fn behind_last(&mut self, negated: bool, symbol: Symbol) -> Result<(), ReadFault>
        ensures { IsStep result (kept_of self.new) (kept.behind_last negated (symbol_of symbol) (kept_of self.old)) }
    {
        match symbol {
            Symbol::Char('[') => Ok(self.subtract(negated)?),
            _ => Err(ReadFault::NoExpression),
        }
    }

    // behind a member
    fn behind_member(&mut self, negated: bool, symbol: Symbol) -> Result<(), ReadFault>
        ensures { IsStep result (kept_of self.new) (kept.behind_member negated (symbol_of symbol) (kept_of self.old)) }
    {
        match symbol {
            Symbol::Escaped(c) => {
                self.mode = RegexMode::Group(negated, ClassPlace::Char(c));
                Ok(())
            }
            Symbol::Class(leaf) => Ok(self.add(negated, leaf)?),
            Symbol::Char(']') => Ok(self.end_group(negated)?),
            Symbol::Char('-') => {
                self.mode = RegexMode::Group(negated, ClassPlace::Dash);
                Ok(())
            }
            Symbol::Char(c) if is_end(c) => {
                self.mode = RegexMode::Group(negated, ClassPlace::Char(c));
                Ok(())
            }
            Symbol::Char(_) => Err(ReadFault::NoExpression),
        }
    }

    // behind the beginning of a group
    fn behind_first(&mut self, negated: bool, symbol: Symbol) -> Result<(), ReadFault>
        ensures { IsStep result (kept_of self.new) (kept.behind_first negated (symbol_of symbol) (kept_of self.old)) }
    {
        match symbol {
            Symbol::Escaped(c) => {
                self.mode = RegexMode::Group(negated, ClassPlace::Char(c));
                Ok(())
            }
            Symbol::Class(leaf) => Ok(self.add(negated, leaf)?),
            Symbol::Char('-') => Ok(self.add(negated, only_char('-'))?),
            Symbol::Char(c) if is_end(c) => {
                self.mode = RegexMode::Group(negated, ClassPlace::Char(c));
                Ok(())
            }
            Symbol::Char(_) => Err(ReadFault::NoExpression),
        }
    }

    // behind a character
    fn behind_char(&mut self, negated: bool, first: char, symbol: Symbol) -> Result<(), ReadFault>
        ensures { IsStep result (kept_of self.new) (kept.behind_char negated first (symbol_of symbol) (kept_of self.old)) }
    {
        match symbol {
            Symbol::Char('-') => {
                self.mode = RegexMode::Group(negated, ClassPlace::Range(first));
                Ok(())
            }
            _ => {
                self.mark(Member::Leaf(only_char(first)))?;
                self.behind_member(negated, symbol)
            }
        }
    }

    // behind a character and `-`
    fn behind_range(&mut self, negated: bool, first: char, symbol: Symbol) -> Result<(), ReadFault>
        ensures { IsStep result (kept_of self.new) (kept.behind_range negated first (symbol_of symbol) (kept_of self.old)) }
    {
        match symbol {
            Symbol::Escaped(last) => self.end_range(negated, first, last),
            Symbol::Class(_) => Err(ReadFault::NoExpression),
            Symbol::Char(last) if is_end(last) => self.end_range(negated, first, last),
            Symbol::Char(_) => {
                self.mark(Member::Leaf(only_char(first)))?;
                self.behind_dash(negated, symbol)
            }
        }
    }

    // in a group
    pub(crate) fn in_group(
        &mut self,
        negated: bool,
        place: ClassPlace,
        symbol: Symbol,
    ) -> Result<(), ReadFault>
        ensures { IsStep result (kept_of self.new) (kept.in_group negated place (symbol_of symbol) (kept_of self.old)) }
    {
        match place {
            ClassPlace::First => self.behind_first(negated, symbol),
            ClassPlace::Member => self.behind_member(negated, symbol),
            ClassPlace::Char(first) => self.behind_char(negated, first, symbol),
            ClassPlace::Range(first) => self.behind_range(negated, first, symbol),
            ClassPlace::Dash => self.behind_dash(negated, symbol),
            ClassPlace::Last => self.behind_last(negated, symbol),
        }
    }

    // behind `[`
    pub(crate) fn behind_open(&mut self, symbol: Symbol) -> Result<(), ReadFault>
        ensures { IsStep result (kept_of self.new) (kept.behind_open (symbol_of symbol) (kept_of self.old)) }
    {
        match symbol {
            Symbol::Char('^') => {
                self.mode = RegexMode::Group(true, ClassPlace::First);
                Ok(())
            }
            _ => self.behind_first(false, symbol),
        }
    }

    // behind the `]` of a class that is subtracted
    pub(crate) fn behind_closed(&mut self, symbol: Symbol) -> Result<(), ReadFault>
        ensures { IsStep result (kept_of self.new) (kept.behind_closed (symbol_of symbol) (kept_of self.old)) }
    {
        match symbol {
            Symbol::Char(']') => Ok(self.end_class()?),
            _ => Err(ReadFault::NoExpression),
        }
    }
}

// the character may be an end of a range as it is
fn is_end(c: char) -> bool
    ensures { result ≡ is_end c }
{
    !matches!(c, '\\' | '-' | '[' | ']')
}
