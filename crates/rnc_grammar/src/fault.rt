// Why tokens have no file tree.
ghost use Rattle.std.specs.Prelude.{◌≡◌};
ghost use Rattle.rnc_grammar.specs.views.Fault.{fault_of};

use rnc_syntax::SyntaxFault;

/// Why tokens have no file tree.
///
/// Clause 6 is reported with the number of a token, from 1; clauses 7 and 8 are reported without a number.
#[derive(Clone, Copy)]
pub enum ParseFault {
    /// The tokens break this clause at the token with this number.
    At { clause: u8, number: u64 },
    /// The tokens break this clause.
    Clause(u8),
    /// Out of memory. Says nothing about the tokens.
    Memory,
}

impl From<SyntaxFault> for ParseFault {
    ghost from_gives = { λ e f. f ≡ fault_of e };

    fn from(fault: SyntaxFault) -> ParseFault {
        match fault {
            SyntaxFault::TooDeep => ParseFault::Clause(7),
            SyntaxFault::Unexpected { number } => ParseFault::At { clause: 6, number },
            SyntaxFault::Memory => ParseFault::Memory,
        }
    }
}
