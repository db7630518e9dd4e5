// Laws of texts that are made of marks.
ghost use Rattle.rnc_text.specs.plain.Marks.{MarksAreCut, MarksAreDecoded};

/// The laws of marks. The call does nothing; its contract is the theorem.
///
/// A text is made of marks: words, names, segments, signs, single spaces and line ends. If each is separated from the
/// next, the text is cut into exactly these marks. Its UTF-8 decodes to their characters, however the characters within
/// quotes are written, provided that each is read back. RELAX NG Compact Syntax, "Lexical structure".
pub fn marks_laws()
    // Each mark is the longest piece at its offset.
    ensures cut { MarksAreCut }
    // The bytes decode to the characters of the marks.
    ensures decoded { MarksAreDecoded }
{}
