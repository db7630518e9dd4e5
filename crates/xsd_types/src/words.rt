// Types whose values are the collapsed texts that pass a test.
ghost use Rattle.std.specs.Prelude.{◌≡◌, true};
ghost use Rattle.std.specs.List.{list_all};
ghost use Rattle.rng_model.specs.datatypes.Datatypes.{is_allowed_by, are_equal_by};
ghost use Rattle.rng_types.specs.plain.Words.{is_word_byte};
ghost use Rattle.rng_types.specs.views.View.{lengths_of};
ghost use Rattle.rng_model.specs.xsd.Types.{xsd_word};
ghost use Rattle.xsd_types.specs.views.View.{word_test};

use crate::languages::is_language;
use crate::names::{is_name, is_qname};
use rng_types::{Lengths, ascii_word, char_count, is_same_collapsed, only_piece, starts_name};

/// Which texts a type allows whose values are collapsed texts without a blank.
#[derive(Clone, Copy, Debug)]
pub enum WordKind {
    /// `language`. XML Schema Part 2, section 3.3.3.
    Language,
    /// `Name`. XML Schema Part 2, section 3.3.6.
    Name,
    /// `QName` and `NOTATION`, by their spelling. XML Schema Part 2, sections 3.2.18 and 3.2.19.
    QName,
}

/// `language`, `Name`, or the spelling of `QName`: each text that collapses to such a word, with an allowed number of
/// characters. Texts that collapse to the same text are equal.
#[derive(Clone, Copy, Debug)]
pub struct Word {
    pub kind: WordKind,
    pub lengths: Lengths,
}

impl Word {
    // whether the text collapses to such a word
    pub(crate) fn allows(&self, text: &str) -> bool
        ensures { result ≡ is_allowed_by (xsd_word (word_test self.now.kind) (lengths_of self.now.lengths)) text.now }
    {
        if let Some(word) = ascii_word(text)
            && self.kind.is_ascii(word)
        {
            return self.lengths.allow(word.len());
        }
        match only_piece(text) {
            Some(word) => self.kind.is_word(word) && self.lengths.allow(char_count(word)),
            None => false,
        }
    }

    // whether both texts collapse to the same such word
    pub(crate) fn equal(&self, a: &str, b: &str) -> bool
        ensures { result ≡ are_equal_by (xsd_word (word_test self.now.kind) (lengths_of self.now.lengths)) a.now b.now }
    {
        self.allows(a) && is_same_collapsed(a, b)
    }
}

impl WordKind {
    // whether the word of ASCII letters, digits, `_`, `-` and `.` is one of these
    #[tactic(auto, using(crate::proofs::AsciiWords::name_ascii, crate::proofs::AsciiWords::qname_ascii))]
    fn is_ascii(&self, word: &[u8]) -> bool
        requires { list_all is_word_byte word.now ≡ true }
        ensures { result ≡ true → word_test self.now word.now ≡ true }
    {
        match self {
            WordKind::Language => is_language(word),
            WordKind::Name => starts_name(word),
            WordKind::QName => starts_name(word),
        }
    }

    fn is_word(&self, word: &str) -> bool
        ensures { result ≡ word_test self.now word.now }
    {
        match self {
            WordKind::Language => is_language(word.as_bytes()),
            WordKind::Name => is_name(word),
            WordKind::QName => is_qname(word),
        }
    }
}
