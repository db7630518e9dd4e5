// Classes of characters (XML Schema Part 2, Second Edition, section F.1).
ghost use Rattle.std.specs.Prelude.{◌≡◌, map};
ghost use Rattle.rng_model.specs.regexes.Expressions.{holds, only_char, char_from_to};
ghost use Rattle.rng_model.specs.regexes.ExpressionGrammar.{wildcard};
ghost use Rattle.xsd_regex.specs.views.Classes.{set_class, leaf_class, mark_of, class_of};
ghost use Rattle.xsd_regex.specs.plain.Groups.{class_of_marks};
ghost use Rattle.rng_model.specs.regexes.Symbols.{word_char};

use rng_model::{is_name_char, is_name_start};
use ucd_category::{GeneralCategory, GeneralCategoryGroup};

/// A class of characters: one escape or one character, or a class in brackets.
#[derive(Drop)]
pub enum Class {
    /// A class that is written by a character or by an escape, outside of brackets.
    Leaf(Leaf),
    /// A class in brackets: the members of each group, and behind them the end of the group. What is behind the end of a
    /// group is subtracted from the group.
    Groups(Vec<Member>),
}

/// A part of a class in brackets.
#[derive(Clone, Copy)]
pub enum Member {
    /// A character, a range or an escape.
    Leaf(Leaf),
    /// The end of a group, and whether `^` begins the group.
    End(bool),
}

/// A set of characters, or its complement.
#[derive(Clone, Copy)]
pub struct Leaf {
    /// The set.
    pub set: CharSet,
    /// Whether the complement of the set is meant.
    pub negated: bool,
}

/// A set of characters that has a name of its own, or is a range.
#[derive(Clone, Copy)]
pub enum CharSet {
    /// The characters from the first one to the last one.
    Range(char, char),
    /// The characters that may begin a name (`\i`).
    NameStart,
    /// The characters that may occur in a name (`\c`).
    NameChar,
    /// The characters of a general category of Unicode (`\p{Lu}`).
    Category(GeneralCategory),
    /// The characters of a group of general categories (`\p{L}`).
    Categories(GeneralCategoryGroup),
    /// The white space of XML (`\s`).
    WhiteSpace,
    /// A line feed and a carriage return, which `.` leaves out.
    LineEnds,
    /// All characters but punctuation, separators and others (`\w`).
    WordChars,
    /// The block `PrivateUse`, which has three ranges.
    PrivateUse,
    /// The block `Specials`, which has two ranges.
    Specials,
}

impl Class {
    /// Returns whether the class holds the character.
    ///
    /// One pass over the members. Allocates nothing.
    pub fn holds(&self, c: char) -> bool
        ensures { result ≡ holds (class_of self.now) c }
    {
        match self {
            Class::Leaf(leaf) => leaf.holds(c),
            Class::Groups(members) => groups_hold(members, c),
        }
    }
}

// the groups hold the character: the first one does, and what is subtracted from it does not
fn groups_hold(members: &[Member], c: char) -> bool
    ensures { result ≡ holds (class_of_marks (map mark_of members.now)) c }
{
    let mut is_held = false;
    let mut is_subtracted = false;
    for member in members {
        match member {
            Member::Leaf(leaf) => is_held = is_held || leaf.holds(c),
            Member::End(negated) => {
                if is_held == *negated {
                    return is_subtracted;
                }
                is_held = false;
                is_subtracted = !is_subtracted;
            }
        }
    }
    is_held != is_subtracted
}

impl Leaf {
    /// Returns whether the set, or its complement, holds the character. Allocates nothing.
    pub fn holds(self, c: char) -> bool
        ensures { result ≡ holds (leaf_class self) c }
    {
        if self.negated {
            !self.set.holds(c)
        } else {
            self.set.holds(c)
        }
    }
}

impl CharSet {
    // the set holds the character
    fn holds(self, c: char) -> bool
        ensures { result ≡ holds (set_class self) c }
    {
        match self {
            CharSet::Range(first, last) => first <= c && c <= last,
            CharSet::NameStart => is_name_start(c),
            CharSet::NameChar => is_name_char(c),
            CharSet::Category(category) => GeneralCategory::for_char(c) == category,
            CharSet::Categories(group) => group.contains(GeneralCategory::for_char(c)),
            CharSet::WhiteSpace => matches!(c, '\t' | '\n' | '\r' | ' '),
            CharSet::LineEnds => matches!(c, '\n' | '\r'),
            CharSet::WordChars => is_word_char(c),
            CharSet::PrivateUse => {
                matches!(c, '\u{E000}'..='\u{F8FF}' | '\u{F0000}'..='\u{FFFFD}' | '\u{100000}'..='\u{10FFFD}')
            }
            CharSet::Specials => matches!(c, '\u{FEFF}' | '\u{FFF0}'..='\u{FFFD}'),
        }
    }
}

// the character is no punctuation, separator or other character
fn is_word_char(c: char) -> bool
    ensures { result ≡ holds word_char c }
{
    let category = GeneralCategory::for_char(c);
    !(GeneralCategoryGroup::Punctuation.contains(category)
        || GeneralCategoryGroup::Separator.contains(category)
        || GeneralCategoryGroup::Other.contains(category))
}

// the character alone
pub(crate) fn only_char(c: char) -> Leaf
    ensures { leaf_class result ≡ only_char c }
{
    char_from_to(c, c)
}

// the characters from one to another
pub(crate) fn char_from_to(first: char, last: char) -> Leaf
    ensures { leaf_class result ≡ char_from_to first last }
{
    Leaf {
        set: CharSet::Range(first, last),
        negated: false,
    }
}

// all characters but line ends
pub(crate) fn wildcard() -> Leaf
    ensures { leaf_class result ≡ wildcard }
{
    Leaf {
        set: CharSet::LineEnds,
        negated: true,
    }
}
