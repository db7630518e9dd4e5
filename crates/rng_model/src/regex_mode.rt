// What the last symbols that were read are a part of.

/// What the last symbols that were read are a part of, and so what may follow.
#[derive(Clone, Copy)]
pub enum RegexMode {
    /// A branch, behind its pieces.
    Ready,
    /// An atom, which a quantifier may follow.
    Atom,
    /// `{`, and the number that the digits behind it write, if there are any.
    Least(Option<u32>),
    /// `{`, a number and `,`, and the number that the digits behind it write, if there are any.
    Most(u32, Option<u32>),
    /// The `[` of a class.
    Open,
    /// A class: whether it begins with `^`, and what is behind that.
    Group(bool, ClassPlace),
    /// The class that another one subtracts, which has to end.
    Closed,
}

/// What the last symbols of a class are.
#[derive(Clone, Copy)]
pub enum ClassPlace {
    /// None: the class is still empty.
    First,
    /// A member that is complete.
    Member,
    /// A character, which may begin a range.
    Char(char),
    /// A character and `-`.
    Range(char),
    /// A member and `-`.
    Dash,
    /// The `-` that ends the members, and another one, which `[` has to follow.
    Last,
}
