// The properties of characters that have names (XML Schema Part 2, Second Edition, section F.1.1, productions 27 to 36).
ghost use Rattle.std.specs.Prelude.{◌≡◌, option_map};
ghost use Rattle.std.specs.Str.{chars};
ghost use Rattle.rng_model.specs.datatypes.Facets.{named};
ghost use Rattle.rng_model.specs.regexes.Properties.{category_names, block_names, property_named};
ghost use Rattle.xsd_regex.specs.views.Classes.{set_class};
ghost use Rattle.xsd_regex.specs.plain.PropertyParts.{letter_names, number_names, other_names, block_part};

use crate::class::CharSet;
use ucd_category::{GeneralCategory, GeneralCategoryGroup};

// the characters that have the property of that name
pub(crate) fn find_property(name: &str) -> Option<CharSet>
    ensures { option_map set_class result ≡ property_named (chars name.now) }
{
    match find_category(name) {
        Some(set) => Some(set),
        None => find_block(name),
    }
}

// the general category of that name, or the group of them
fn find_category(name: &str) -> Option<CharSet>
    ensures { option_map set_class result ≡ named name.now category_names }
{
    find_letters(name)
        .or(find_numbers(name))
        .or(find_others(name))
}

// the category of letters or of marks that has that name
fn find_letters(name: &str) -> Option<CharSet>
    ensures { option_map set_class result ≡ named name.now letter_names }
{
    match name {
        "L" => Some(CharSet::Categories(GeneralCategoryGroup::Letter)),
        "Lu" => Some(CharSet::Category(GeneralCategory::UppercaseLetter)),
        "Ll" => Some(CharSet::Category(GeneralCategory::LowercaseLetter)),
        "Lt" => Some(CharSet::Category(GeneralCategory::TitlecaseLetter)),
        "Lm" => Some(CharSet::Category(GeneralCategory::ModifierLetter)),
        "Lo" => Some(CharSet::Category(GeneralCategory::OtherLetter)),
        "M" => Some(CharSet::Categories(GeneralCategoryGroup::Mark)),
        "Mn" => Some(CharSet::Category(GeneralCategory::NonspacingMark)),
        "Mc" => Some(CharSet::Category(GeneralCategory::SpacingMark)),
        "Me" => Some(CharSet::Category(GeneralCategory::EnclosingMark)),
        _ => None,
    }
}

// the category of numbers or of punctuation that has that name
fn find_numbers(name: &str) -> Option<CharSet>
    ensures { option_map set_class result ≡ named name.now number_names }
{
    match name {
        "N" => Some(CharSet::Categories(GeneralCategoryGroup::Number)),
        "Nd" => Some(CharSet::Category(GeneralCategory::DecimalNumber)),
        "Nl" => Some(CharSet::Category(GeneralCategory::LetterNumber)),
        "No" => Some(CharSet::Category(GeneralCategory::OtherNumber)),
        "P" => Some(CharSet::Categories(GeneralCategoryGroup::Punctuation)),
        "Pc" => Some(CharSet::Category(GeneralCategory::ConnectorPunctuation)),
        "Pd" => Some(CharSet::Category(GeneralCategory::DashPunctuation)),
        "Ps" => Some(CharSet::Category(GeneralCategory::OpenPunctuation)),
        "Pe" => Some(CharSet::Category(GeneralCategory::ClosePunctuation)),
        "Pi" => Some(CharSet::Category(GeneralCategory::InitialPunctuation)),
        "Pf" => Some(CharSet::Category(GeneralCategory::FinalPunctuation)),
        "Po" => Some(CharSet::Category(GeneralCategory::OtherPunctuation)),
        _ => None,
    }
}

// the category of separators, of symbols or of others that has that name
fn find_others(name: &str) -> Option<CharSet>
    ensures { option_map set_class result ≡ named name.now other_names }
{
    match name {
        "Z" => Some(CharSet::Categories(GeneralCategoryGroup::Separator)),
        "Zs" => Some(CharSet::Category(GeneralCategory::SpaceSeparator)),
        "Zl" => Some(CharSet::Category(GeneralCategory::LineSeparator)),
        "Zp" => Some(CharSet::Category(GeneralCategory::ParagraphSeparator)),
        "S" => Some(CharSet::Categories(GeneralCategoryGroup::Symbol)),
        "Sm" => Some(CharSet::Category(GeneralCategory::MathSymbol)),
        "Sc" => Some(CharSet::Category(GeneralCategory::CurrencySymbol)),
        "Sk" => Some(CharSet::Category(GeneralCategory::ModifierSymbol)),
        "So" => Some(CharSet::Category(GeneralCategory::OtherSymbol)),
        "C" => Some(CharSet::Categories(GeneralCategoryGroup::Other)),
        "Cc" => Some(CharSet::Category(GeneralCategory::Control)),
        "Cf" => Some(CharSet::Category(GeneralCategory::Format)),
        "Co" => Some(CharSet::Category(GeneralCategory::PrivateUse)),
        "Cn" => Some(CharSet::Category(GeneralCategory::Unassigned)),
        _ => None,
    }
}

// the block of that name
fn find_block(name: &str) -> Option<CharSet>
    ensures { option_map set_class result ≡ named name.now block_names }
{
    find_from_basic_latin(name)
        .or(find_from_gurmukhi(name))
        .or(find_from_canadian_syllabics(name))
        .or(find_from_control_pictures(name))
        .or(find_from_hangul_jamo(name))
        .or(find_from_small_forms(name))
}

// the block of that name among the sixteen from `BasicLatin` on
fn find_from_basic_latin(name: &str) -> Option<CharSet>
    ensures { option_map set_class result ≡ named name.now (block_part 0) }
{
    match name {
        "IsBasicLatin" => Some(CharSet::Range('\u{0000}', '\u{007F}')),
        "IsLatin-1Supplement" => Some(CharSet::Range('\u{0080}', '\u{00FF}')),
        "IsLatinExtended-A" => Some(CharSet::Range('\u{0100}', '\u{017F}')),
        "IsLatinExtended-B" => Some(CharSet::Range('\u{0180}', '\u{024F}')),
        "IsIPAExtensions" => Some(CharSet::Range('\u{0250}', '\u{02AF}')),
        "IsSpacingModifierLetters" => Some(CharSet::Range('\u{02B0}', '\u{02FF}')),
        "IsCombiningDiacriticalMarks" => Some(CharSet::Range('\u{0300}', '\u{036F}')),
        "IsGreek" => Some(CharSet::Range('\u{0370}', '\u{03FF}')),
        "IsCyrillic" => Some(CharSet::Range('\u{0400}', '\u{04FF}')),
        "IsArmenian" => Some(CharSet::Range('\u{0530}', '\u{058F}')),
        "IsHebrew" => Some(CharSet::Range('\u{0590}', '\u{05FF}')),
        "IsArabic" => Some(CharSet::Range('\u{0600}', '\u{06FF}')),
        "IsSyriac" => Some(CharSet::Range('\u{0700}', '\u{074F}')),
        "IsThaana" => Some(CharSet::Range('\u{0780}', '\u{07BF}')),
        "IsDevanagari" => Some(CharSet::Range('\u{0900}', '\u{097F}')),
        "IsBengali" => Some(CharSet::Range('\u{0980}', '\u{09FF}')),
        _ => None,
    }
}

// the block of that name among the sixteen from `Gurmukhi` on
fn find_from_gurmukhi(name: &str) -> Option<CharSet>
    ensures { option_map set_class result ≡ named name.now (block_part 1) }
{
    match name {
        "IsGurmukhi" => Some(CharSet::Range('\u{0A00}', '\u{0A7F}')),
        "IsGujarati" => Some(CharSet::Range('\u{0A80}', '\u{0AFF}')),
        "IsOriya" => Some(CharSet::Range('\u{0B00}', '\u{0B7F}')),
        "IsTamil" => Some(CharSet::Range('\u{0B80}', '\u{0BFF}')),
        "IsTelugu" => Some(CharSet::Range('\u{0C00}', '\u{0C7F}')),
        "IsKannada" => Some(CharSet::Range('\u{0C80}', '\u{0CFF}')),
        "IsMalayalam" => Some(CharSet::Range('\u{0D00}', '\u{0D7F}')),
        "IsSinhala" => Some(CharSet::Range('\u{0D80}', '\u{0DFF}')),
        "IsThai" => Some(CharSet::Range('\u{0E00}', '\u{0E7F}')),
        "IsLao" => Some(CharSet::Range('\u{0E80}', '\u{0EFF}')),
        "IsTibetan" => Some(CharSet::Range('\u{0F00}', '\u{0FFF}')),
        "IsMyanmar" => Some(CharSet::Range('\u{1000}', '\u{109F}')),
        "IsGeorgian" => Some(CharSet::Range('\u{10A0}', '\u{10FF}')),
        "IsHangulJamo" => Some(CharSet::Range('\u{1100}', '\u{11FF}')),
        "IsEthiopic" => Some(CharSet::Range('\u{1200}', '\u{137F}')),
        "IsCherokee" => Some(CharSet::Range('\u{13A0}', '\u{13FF}')),
        _ => None,
    }
}

// the block of that name among the sixteen from `UnifiedCanadianAboriginalSyllabics` on
fn find_from_canadian_syllabics(name: &str) -> Option<CharSet>
    ensures { option_map set_class result ≡ named name.now (block_part 2) }
{
    match name {
        "IsUnifiedCanadianAboriginalSyllabics" => Some(CharSet::Range('\u{1400}', '\u{167F}')),
        "IsOgham" => Some(CharSet::Range('\u{1680}', '\u{169F}')),
        "IsRunic" => Some(CharSet::Range('\u{16A0}', '\u{16FF}')),
        "IsKhmer" => Some(CharSet::Range('\u{1780}', '\u{17FF}')),
        "IsMongolian" => Some(CharSet::Range('\u{1800}', '\u{18AF}')),
        "IsLatinExtendedAdditional" => Some(CharSet::Range('\u{1E00}', '\u{1EFF}')),
        "IsGreekExtended" => Some(CharSet::Range('\u{1F00}', '\u{1FFF}')),
        "IsGeneralPunctuation" => Some(CharSet::Range('\u{2000}', '\u{206F}')),
        "IsSuperscriptsandSubscripts" => Some(CharSet::Range('\u{2070}', '\u{209F}')),
        "IsCurrencySymbols" => Some(CharSet::Range('\u{20A0}', '\u{20CF}')),
        "IsCombiningMarksforSymbols" => Some(CharSet::Range('\u{20D0}', '\u{20FF}')),
        "IsLetterlikeSymbols" => Some(CharSet::Range('\u{2100}', '\u{214F}')),
        "IsNumberForms" => Some(CharSet::Range('\u{2150}', '\u{218F}')),
        "IsArrows" => Some(CharSet::Range('\u{2190}', '\u{21FF}')),
        "IsMathematicalOperators" => Some(CharSet::Range('\u{2200}', '\u{22FF}')),
        "IsMiscellaneousTechnical" => Some(CharSet::Range('\u{2300}', '\u{23FF}')),
        _ => None,
    }
}

// the block of that name among the sixteen from `ControlPictures` on
fn find_from_control_pictures(name: &str) -> Option<CharSet>
    ensures { option_map set_class result ≡ named name.now (block_part 3) }
{
    match name {
        "IsControlPictures" => Some(CharSet::Range('\u{2400}', '\u{243F}')),
        "IsOpticalCharacterRecognition" => Some(CharSet::Range('\u{2440}', '\u{245F}')),
        "IsEnclosedAlphanumerics" => Some(CharSet::Range('\u{2460}', '\u{24FF}')),
        "IsBoxDrawing" => Some(CharSet::Range('\u{2500}', '\u{257F}')),
        "IsBlockElements" => Some(CharSet::Range('\u{2580}', '\u{259F}')),
        "IsGeometricShapes" => Some(CharSet::Range('\u{25A0}', '\u{25FF}')),
        "IsMiscellaneousSymbols" => Some(CharSet::Range('\u{2600}', '\u{26FF}')),
        "IsDingbats" => Some(CharSet::Range('\u{2700}', '\u{27BF}')),
        "IsBraillePatterns" => Some(CharSet::Range('\u{2800}', '\u{28FF}')),
        "IsCJKRadicalsSupplement" => Some(CharSet::Range('\u{2E80}', '\u{2EFF}')),
        "IsKangxiRadicals" => Some(CharSet::Range('\u{2F00}', '\u{2FDF}')),
        "IsIdeographicDescriptionCharacters" => Some(CharSet::Range('\u{2FF0}', '\u{2FFF}')),
        "IsCJKSymbolsandPunctuation" => Some(CharSet::Range('\u{3000}', '\u{303F}')),
        "IsHiragana" => Some(CharSet::Range('\u{3040}', '\u{309F}')),
        "IsKatakana" => Some(CharSet::Range('\u{30A0}', '\u{30FF}')),
        "IsBopomofo" => Some(CharSet::Range('\u{3100}', '\u{312F}')),
        _ => None,
    }
}

// the block of that name among the sixteen from `HangulCompatibilityJamo` on
fn find_from_hangul_jamo(name: &str) -> Option<CharSet>
    ensures { option_map set_class result ≡ named name.now (block_part 4) }
{
    match name {
        "IsHangulCompatibilityJamo" => Some(CharSet::Range('\u{3130}', '\u{318F}')),
        "IsKanbun" => Some(CharSet::Range('\u{3190}', '\u{319F}')),
        "IsBopomofoExtended" => Some(CharSet::Range('\u{31A0}', '\u{31BF}')),
        "IsEnclosedCJKLettersandMonths" => Some(CharSet::Range('\u{3200}', '\u{32FF}')),
        "IsCJKCompatibility" => Some(CharSet::Range('\u{3300}', '\u{33FF}')),
        "IsCJKUnifiedIdeographsExtensionA" => Some(CharSet::Range('\u{3400}', '\u{4DB5}')),
        "IsCJKUnifiedIdeographs" => Some(CharSet::Range('\u{4E00}', '\u{9FFF}')),
        "IsYiSyllables" => Some(CharSet::Range('\u{A000}', '\u{A48F}')),
        "IsYiRadicals" => Some(CharSet::Range('\u{A490}', '\u{A4CF}')),
        "IsHangulSyllables" => Some(CharSet::Range('\u{AC00}', '\u{D7A3}')),
        "IsPrivateUse" => Some(CharSet::PrivateUse),
        "IsCJKCompatibilityIdeographs" => Some(CharSet::Range('\u{F900}', '\u{FAFF}')),
        "IsAlphabeticPresentationForms" => Some(CharSet::Range('\u{FB00}', '\u{FB4F}')),
        "IsArabicPresentationForms-A" => Some(CharSet::Range('\u{FB50}', '\u{FDFF}')),
        "IsCombiningHalfMarks" => Some(CharSet::Range('\u{FE20}', '\u{FE2F}')),
        "IsCJKCompatibilityForms" => Some(CharSet::Range('\u{FE30}', '\u{FE4F}')),
        _ => None,
    }
}

// the block of that name among those from `SmallFormVariants` on
fn find_from_small_forms(name: &str) -> Option<CharSet>
    ensures { option_map set_class result ≡ named name.now (block_part 5) }
{
    match name {
        "IsSmallFormVariants" => Some(CharSet::Range('\u{FE50}', '\u{FE6F}')),
        "IsArabicPresentationForms-B" => Some(CharSet::Range('\u{FE70}', '\u{FEFE}')),
        "IsSpecials" => Some(CharSet::Specials),
        "IsHalfwidthandFullwidthForms" => Some(CharSet::Range('\u{FF00}', '\u{FFEF}')),
        "IsOldItalic" => Some(CharSet::Range('\u{10300}', '\u{1032F}')),
        "IsGothic" => Some(CharSet::Range('\u{10330}', '\u{1034F}')),
        "IsDeseret" => Some(CharSet::Range('\u{10400}', '\u{1044F}')),
        "IsByzantineMusicalSymbols" => Some(CharSet::Range('\u{1D000}', '\u{1D0FF}')),
        "IsMusicalSymbols" => Some(CharSet::Range('\u{1D100}', '\u{1D1FF}')),
        "IsMathematicalAlphanumericSymbols" => Some(CharSet::Range('\u{1D400}', '\u{1D7FF}')),
        "IsCJKUnifiedIdeographsExtensionB" => Some(CharSet::Range('\u{20000}', '\u{2A6D6}')),
        "IsCJKCompatibilityIdeographsSupplement" => Some(CharSet::Range('\u{2F800}', '\u{2FA1F}')),
        "IsTags" => Some(CharSet::Range('\u{E0000}', '\u{E007F}')),
        _ => None,
    }
}
