// Lists of names and of name tokens.
ghost use Rattle.std.specs.Prelude.{◌≡◌, if◌then◌else◌, Some, None, length};
ghost use Rattle.std.specs.List.{list_all};
ghost use Rattle.rng_model.specs.datatypes.Texts.{pieces};
ghost use Rattle.rng_model.specs.datatypes.Datatypes.{is_allowed_by, are_equal_by};
ghost use Rattle.rng_types.specs.views.View.{lengths_of};
ghost use Rattle.rng_model.specs.xsd.Types.{xsd_list};
ghost use Rattle.xsd_types.specs.views.View.{item_test};

use crate::names::{is_ncname, is_nmtoken};
use rng_model::Pieces;
use rng_types::{Lengths, is_same_collapsed};

/// What the items of a list are.
#[derive(Clone, Copy, Debug)]
pub enum ItemKind {
    /// Those of `NMTOKENS`. XML Schema Part 2, section 3.3.5.
    NmToken,
    /// Those of `IDREFS` and `ENTITIES`. XML Schema Part 2, sections 3.3.10 and 3.3.12.
    NcName,
}

/// `NMTOKENS`, `IDREFS` or `ENTITIES`: one item or more, in an allowed number. Texts with the same items are equal.
#[derive(Clone, Copy, Debug)]
pub struct List {
    pub kind: ItemKind,
    pub lengths: Lengths,
}

impl List {
    // whether the text is such a list
    pub(crate) fn allows(&self, text: &str) -> bool
        ensures { result ≡ is_allowed_by (xsd_list (item_test self.now.kind) (lengths_of self.now.lengths)) text.now }
    {
        match self.item_count(text) {
            Some(count) => count > 0 && self.lengths.allow(count),
            None => false,
        }
    }

    // the number of items, if all pieces are items
    fn item_count(&self, text: &str) -> Option<usize>
        ensures { result ≡ (if list_all (item_test self.now.kind) (pieces text.now) then Some (length (pieces text.now)) else None) }
    {
        let mut count = 0;
        for piece in Pieces::new(text) {
            if !self.kind.is_item(piece) {
                return None;
            }
            count += 1;
        }
        Some(count)
    }

    // whether both texts are such a list, of the same items
    pub(crate) fn equal(&self, a: &str, b: &str) -> bool
        ensures { result ≡ are_equal_by (xsd_list (item_test self.now.kind) (lengths_of self.now.lengths)) a.now b.now }
    {
        self.allows(a) && is_same_collapsed(a, b)
    }
}

impl ItemKind {
    fn is_item(&self, piece: &str) -> bool
        ensures { result ≡ item_test self.now piece.now }
    {
        match self {
            ItemKind::NmToken => is_nmtoken(piece),
            ItemKind::NcName => is_ncname(piece),
        }
    }
}
