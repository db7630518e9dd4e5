// The elements that are open, as they are kept.
ghost use Rattle.std.specs.Prelude.{◌≡◌, ◌++◌, ◌<◌, [], ◌∷◌, IfSome, MatchOption, length, map, reverse};
ghost use Rattle.pyx.specs.views.DeclarationView.{declaration_of};
ghost use Rattle.pyx.specs.views.ElementView.{AreNamed, stack_of};
ghost use Rattle.pyx.specs.views.Held.{opened_held};

use crate::namespaces::{Declaration, declarations_len, name_len};

/// An element whose end has not been read.
#[derive(Drop)]
pub struct OpenElement {
    /// Where its name begins in the text of the names of all open elements. It ends where the name inside it begins.
    pub start: usize,
    /// The number of declarations of its tag.
    pub count: usize,
}

/// Returns the innermost of the elements, and those around it.
pub fn innermost(opened: &[OpenElement]) -> Option<(&OpenElement, &[OpenElement])>
    ensures parts { MatchOption result (opened.now ≡ []) (λ x. opened.now ≡ x.1.now ++ x.0.now ∷ []) }
    ensures shorter { IfSome result (λ x. length x.1.now < length opened.now) }
{
    opened.split_last()
}

/// Returns how many bytes are kept of these elements, with these names and declarations.
#[tactic(auto, unfolding(crate::specs::views::Held::opened_held))]
pub fn opened_len(opened: &[OpenElement], names: &str, declarations: &[Declaration]) -> u64
    requires { AreNamed (reverse opened.now) names.now }
    ensures { result ≡ opened_held (stack_of opened.now names.now (map declaration_of (reverse declarations.now))) }
{
    match innermost(opened) {
        Some((element, outer)) => {
            let (names, name) = names.split_at(element.start);
            let count = declarations.len().saturating_sub(element.count);
            let (around, own) = declarations.split_at(count);
            name_len(name)
                .saturating_add(declarations_len(own))
                .saturating_add(opened_len(outer, names, around))
        }
        None => 0,
    }
}
