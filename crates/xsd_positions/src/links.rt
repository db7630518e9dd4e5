//! The numbers of the first parts, and which parts match the empty text.
ghost use Rattle.std.specs.Prelude.{◌≡◌, ◌&&◌, ◌||◌, IfOk};
ghost use Rattle.std.specs.Option.{option_map};
ghost use Rattle.xsd_positions.specs.views.Drafts.{links_of};
ghost use Rattle.xsd_positions.specs.plain.Folds.{kept};
ghost use Rattle.xsd_positions.specs.plain.Links.{no_links, linked, with_kind, with_part, with_both, with_either, with_around};

use crate::drafts::Kind;
use crate::position::{Part, Position};
use rng_model::OutOfMemory;
use std::alloc::Global;

/// A part that is not yet a part of another one.
#[derive(Clone, Copy)]
pub(crate) struct Root {
    /// Its number.
    pub(crate) number: u16,
    /// Whether it matches the empty text.
    pub(crate) is_nullable: bool,
}

/// The positions so far.
#[derive(Drop)]
pub(crate) struct Links {
    /// What is behind them is not yet known.
    pub(crate) positions: Vec<Position>,
    /// The parts that are not yet a part of another one.
    pub(crate) roots: Vec<Root>,
}

/// Returns the positions of rows, or `None` if there are more than 65,536. What is behind them is not yet known.
///
/// One pass.
pub(crate) fn linked(alloc: Global, rows: &[Kind]) -> Result<Option<Links>, OutOfMemory>
    ensures { IfOk result (λ o. option_map links_of o ≡ linked rows.now no_links) }
{
    let mut links = Links {
        positions: Vec::new(alloc),
        roots: Vec::new(alloc),
    };
    'rows: for kind in rows {
        if !links.put_kind(*kind)? {
            return Ok(None);
        }
    }
    Ok(Some(links))
}

impl Links {
    /// Puts the position of a row. Returns false if there are too many positions, or the row has no parts.
    fn put_kind(&mut self, kind: Kind) -> Result<bool, OutOfMemory>
        ensures { IfOk result (λ goes_on. kept goes_on (links_of self.new) ≡ with_kind kind (links_of self.old)) }
    {
        match kind {
            Kind::Nothing => self.put_part(Part::Nothing, true),
            Kind::OneOf(class) => self.put_part(Part::OneOf(class), false),
            Kind::Never => self.put_part(Part::Never, false),
            Kind::Both => self.put_both(),
            Kind::Either => self.put_either(),
            Kind::Optional => self.put_around(Part::Optional),
            Kind::Repeated => self.put_around(Part::Repeated),
        }
    }

    // the last two parts, one after the other
    fn put_both(&mut self) -> Result<bool, OutOfMemory>
        ensures { IfOk result (λ goes_on. kept goes_on (links_of self.new) ≡ with_both (links_of self.old).roots (links_of self.old)) }
    {
        let Some(second) = self.roots.pop() else {
            return Ok(false);
        };
        let Some(first) = self.roots.pop() else {
            return Ok(false);
        };
        self.put_part(
            Part::Both(first.number),
            first.is_nullable && second.is_nullable,
        )
    }

    // one of the last two parts
    fn put_either(&mut self) -> Result<bool, OutOfMemory>
        ensures { IfOk result (λ goes_on. kept goes_on (links_of self.new) ≡ with_either (links_of self.old).roots (links_of self.old)) }
    {
        let Some(second) = self.roots.pop() else {
            return Ok(false);
        };
        let Some(first) = self.roots.pop() else {
            return Ok(false);
        };
        self.put_part(
            Part::Either(first.number),
            first.is_nullable || second.is_nullable,
        )
    }

    // the last part once or not at all, or any number of times
    fn put_around(&mut self, part: Part) -> Result<bool, OutOfMemory>
        ensures { IfOk result (λ goes_on. kept goes_on (links_of self.new) ≡ with_around part (links_of self.old).roots (links_of self.old)) }
    {
        let Some(_) = self.roots.pop() else {
            return Ok(false);
        };
        self.put_part(part, true)
    }

    // a position behind the others
    fn put_part(&mut self, part: Part, is_nullable: bool) -> Result<bool, OutOfMemory>
        ensures { IfOk result (λ goes_on. kept goes_on (links_of self.new) ≡ with_part part is_nullable (links_of self.old).roots (links_of self.old)) }
    {
        let Ok(number) = u16::try_from(self.positions.len()) else {
            return Ok(false);
        };
        self.roots.push(Root {
            number,
            is_nullable,
        })?;
        self.positions.push(Position {
            part,
            next: 0,
            is_nullable,
        })?;
        Ok(true)
    }
}
