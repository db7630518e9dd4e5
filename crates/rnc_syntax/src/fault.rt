// Why tokens have no syntax tree.
ghost use Rattle.std.specs.Prelude.{◌≡◌};
ghost use Rattle.rnc_syntax.specs.declared.fault.ReadFault.TheVariants as read_faults;

use rng_model::OutOfMemory;

/// Why tokens have no syntax tree.
#[derive(Clone, Copy)]
pub enum SyntaxFault {
    /// More than 128 brackets are open at some token.
    TooDeep,
    /// The tokens, which are numbered from 1, are no sentence. Some sentence begins with the tokens before the one with
    /// this number, and none with those up to and including it. The number of tokens plus one refers to their end.
    Unexpected { number: u64 },
    /// Out of memory. Says nothing about the tokens.
    Memory,
}

/// Why reading stops: a token that no production allows here, too many open brackets, or the end of the tokens. A token
/// is counted from the end: the last one is 1, and the end is 0.
#[derive(Clone, Copy)]
pub enum Stop {
    Unexpected(usize),
    TooDeep,
}

/// Why nothing could be read.
#[derive(Clone, Copy)]
pub enum ReadFault {
    Stop(Stop),
    Memory,
}

impl<E: Drop> From<E> for ReadFault
where
    OutOfMemory: From<E>,
{
    ghost from_gives = { λ _ e. e ≡ read_faults.Memory };

    fn from(_e: E) -> ReadFault {
        ReadFault::Memory
    }
}
