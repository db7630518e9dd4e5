// Keywords and signs.
ghost use Rattle.std.specs.Prelude.{◌≡◌, ◌∷◌, []};
ghost use Rattle.rnc_model.specs.tokens.Tokens.{keyword_of, sign_of, keyword_or_identifier};

use rnc_model::{Keyword, Sign, TokenKind};

/// Returns the keyword that is written so.
#[tactic(auto, unfolding(rnc_model::specs::tokens::Tokens::keyword_of))]
pub fn find_keyword(word: &str) -> Option<Keyword>
    ensures { result ≡ keyword_of word.now }
{
    match word {
        "attribute" => Some(Keyword::Attribute),
        "default" => Some(Keyword::Default),
        "datatypes" => Some(Keyword::Datatypes),
        "div" => Some(Keyword::Div),
        "element" => Some(Keyword::Element),
        "empty" => Some(Keyword::Empty),
        "external" => Some(Keyword::External),
        "grammar" => Some(Keyword::Grammar),
        "include" => Some(Keyword::Include),
        "inherit" => Some(Keyword::Inherit),
        "list" => Some(Keyword::List),
        "mixed" => Some(Keyword::Mixed),
        "namespace" => Some(Keyword::Namespace),
        "notAllowed" => Some(Keyword::NotAllowed),
        "parent" => Some(Keyword::Parent),
        "start" => Some(Keyword::Start),
        "string" => Some(Keyword::String),
        "text" => Some(Keyword::Text),
        "token" => Some(Keyword::Token),
        _ => None,
    }
}

/// Whether a word is a keyword or an identifier.
pub fn word_kind(word: &str) -> TokenKind
    ensures { result ≡ keyword_or_identifier (keyword_of word.now) }
{
    match find_keyword(word) {
        Some(keyword) => TokenKind::Keyword(keyword),
        None => TokenKind::Identifier,
    }
}

/// Returns the sign that is this character.
#[tactic(auto, unfolding(rnc_model::specs::tokens::Tokens::sign_of))]
pub fn single_sign(character: char) -> Option<Sign>
    ensures { result ≡ sign_of (character ∷ []) }
{
    match character {
        '=' => Some(Sign::Equal),
        ',' => Some(Sign::Comma),
        '|' => Some(Sign::Bar),
        '&' => Some(Sign::And),
        '?' => Some(Sign::Question),
        '*' => Some(Sign::Star),
        '+' => Some(Sign::Plus),
        '-' => Some(Sign::Minus),
        '{' => Some(Sign::OpenBrace),
        '}' => Some(Sign::CloseBrace),
        '(' => Some(Sign::OpenParenthesis),
        ')' => Some(Sign::CloseParenthesis),
        '[' => Some(Sign::OpenBracket),
        ']' => Some(Sign::CloseBracket),
        '~' => Some(Sign::Tilde),
        _ => None,
    }
}

/// Returns the sign that is these two characters.
#[tactic(auto, unfolding(rnc_model::specs::tokens::Tokens::sign_of))]
pub fn double_sign(first: char, second: char) -> Option<Sign>
    ensures { result ≡ sign_of (first ∷ second ∷ []) }
{
    match (first, second) {
        ('|', '=') => Some(Sign::BarEqual),
        ('&', '=') => Some(Sign::AndEqual),
        _ => None,
    }
}
