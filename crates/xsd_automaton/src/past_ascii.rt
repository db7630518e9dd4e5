// Classes that hold all characters past ASCII, or none of them.
ghost use Rattle.std.specs.Prelude.{◌≡◌, IsTrue};
ghost use Rattle.std.specs.List.{list_all};
ghost use Rattle.xsd_automaton.specs.plain.PastAscii.{is_of_ascii, is_member_of_ascii, is_class_of_ascii};
ghost use Rattle.xsd_automaton.specs.plain.Sets.{AreAlikePast};
ghost use Rattle.xsd_positions.specs.views.Positions.{positions_of};

use xsd_positions::Positions;
use xsd_regex::{CharSet, Class, Member};

// Whether all characters past ASCII are in the same classes. Says so only of classes that are made of sets of ASCII.
pub(crate) fn are_alike_past(positions: &Positions) -> bool
    ensures { IsTrue result → AreAlikePast (positions_of positions.now) }
{
    all_of_ascii(positions.classes.as_slice())
}

// whether each of the classes is made of sets that hold no character past ASCII
fn all_of_ascii(classes: &[Class]) -> bool
    ensures { result ≡ list_all is_class_of_ascii classes.now }
{
    classes.iter().all(|class| is_class_of_ascii(class))
}

// whether the class is made of sets that hold no character past ASCII
fn is_class_of_ascii(class: &Class) -> bool
    ensures { result ≡ is_class_of_ascii class.now }
{
    match class {
        Class::Leaf(leaf) => is_of_ascii(leaf.set),
        Class::Groups(members) => are_of_ascii(members.as_slice()),
    }
}

// whether the set of each member holds no character past ASCII
fn are_of_ascii(members: &[Member]) -> bool
    ensures { result ≡ list_all is_member_of_ascii members.now }
{
    members.iter().all(|member| is_member_of_ascii(*member))
}

// whether the set of the member, if it has one, holds no character past ASCII
fn is_member_of_ascii(member: Member) -> bool
    ensures { result ≡ is_member_of_ascii member }
{
    match member {
        Member::Leaf(leaf) => is_of_ascii(leaf.set),
        Member::End(_) => true,
    }
}

// whether the set holds no character past ASCII
fn is_of_ascii(set: CharSet) -> bool
    ensures { result ≡ is_of_ascii set }
{
    match set {
        CharSet::Range(_, last) => last < '\u{80}',
        CharSet::WhiteSpace | CharSet::LineEnds => true,
        CharSet::NameStart
        | CharSet::NameChar
        | CharSet::Category(_)
        | CharSet::Categories(_)
        | CharSet::WordChars
        | CharSet::PrivateUse
        | CharSet::Specials => false,
    }
}
