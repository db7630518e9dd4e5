// Why a text cannot be decoded or cut into tokens.
ghost use Rattle.std.specs.Prelude.{◌≡◌};
ghost use Rattle.rnc_text.specs.declared.fault.TextFault.TheVariants as faults;

use rng_model::OutOfMemory;

/// Why a text cannot be decoded or cut into tokens.
#[derive(Clone, Copy, Debug)]
pub enum TextFault {
    /// The text breaks a clause at an offset in bytes.
    ///
    /// - Clause 3: the file is not UTF-8. The offset is the length of its longest front that is UTF-8.
    /// - Clause 4: XML does not allow a character, or an escape is bad. The offset is where it begins in the file.
    /// - Clause 5: neither a blank, a comment nor a token begins at the offset in the decoded text.
    At { clause: u8, offset: u64 },
    /// Out of memory. Says nothing about the text.
    Memory,
}

impl<E: Drop> From<E> for TextFault
where
    OutOfMemory: From<E>,
{
    ghost from_gives = { λ _ e. e ≡ faults.Memory };

    fn from(_e: E) -> TextFault {
        TextFault::Memory
    }
}
