//! Expressions with their counts written out, as rows.
ghost use Rattle.std.specs.Prelude.{◌≡◌, ◌+◌, ◌*◌, ◌^◌, ◌<◌, ◌++◌, IfOk, OnOk, drop, map, reverse};
ghost use Rattle.std.specs.Option.{option_map};
ghost use Rattle.xsd_regex.specs.views.Rows.{row_of};
ghost use Rattle.xsd_regex.specs.views.Classes.{class_of};
ghost use Rattle.rng_model.specs.regexes.Sizes.{most_copies};
ghost use Rattle.xsd_positions.specs.views.Drafts.{draft_of};
ghost use Rattle.xsd_positions.specs.plain.Folds.{kept};
ghost use Rattle.xsd_positions.specs.plain.Drafts.{nothing_written, written, with_row, with_block, with_leaf, with_class, with_pair, with_count};
ghost use Rattle.xsd_positions.specs.plain.Drafts.{total_of, copied, rows_counted, counted_from};

use rng_model::OutOfMemory;
use std::alloc::Global;
use xsd_regex::{Class, Row};

/// The greatest size of an expression with its counts written out.
pub(crate) const MOST_SIZE: u64 = 4096;

/// A part of an expression whose counts are written out, behind its own parts.
#[derive(Clone, Copy)]
pub(crate) enum Kind {
    /// The empty branch.
    Nothing,
    /// A character of the class with this number.
    OneOf(u16),
    /// No text.
    Never,
    /// The last two parts, one after the other.
    Both,
    /// One of the last two parts.
    Either,
    /// The last part, once or not at all.
    Optional,
    /// The last part, any number of times.
    Repeated,
}

/// A part that is not yet a part of another one.
#[derive(Clone, Copy)]
pub(crate) struct Block {
    /// The number of its first row.
    pub(crate) start: usize,
    /// Its size.
    pub(crate) size: u16,
    /// The size of all parts up to this one.
    pub(crate) total: u16,
}

/// What is written so far.
#[derive(Drop)]
pub(crate) struct Draft {
    pub(crate) rows: Vec<Kind>,
    pub(crate) classes: Vec<Class>,
    /// The parts that are not yet a part of another one.
    pub(crate) blocks: Vec<Block>,
}

/// Returns the rows of an expression with its counts written out, or `None` if its size is above `MOST_SIZE`.
///
/// The cost is linear in the rows that are read and written.
pub(crate) fn written_out(alloc: Global, rows: Vec<Row>) -> Result<Option<Draft>, OutOfMemory>
    ensures { IfOk result (λ o. option_map draft_of o ≡ written (map row_of rows.items) nothing_written) }
{
    let mut draft = Draft {
        rows: Vec::new(alloc),
        classes: Vec::new(alloc),
        blocks: Vec::new(alloc),
    };
    'rows: for row in rows {
        if !draft.put_row(alloc, row)? {
            return Ok(None);
        }
    }
    Ok(Some(draft))
}

impl Draft {
    /// Writes a row. Returns false if the rows so far are too large, or no row can be written.
    fn put_row(&mut self, alloc: Global, row: Row) -> Result<bool, OutOfMemory>
        ensures { IfOk result (λ goes_on. kept goes_on (draft_of self.new) ≡ with_row (row_of row) (draft_of self.old)) }
    {
        match row {
            Row::Nothing => self.put_leaf(Kind::Nothing),
            Row::OneOf(class) => self.put_class(class),
            Row::Both => self.put_pair(Kind::Both),
            Row::Either => self.put_pair(Kind::Either),
            Row::Times(least, most) => self.put_count(alloc, least, most),
        }
    }

    // a part that has no parts
    fn put_leaf(&mut self, kind: Kind) -> Result<bool, OutOfMemory>
        ensures { IfOk result (λ goes_on. kept goes_on (draft_of self.new) ≡ with_leaf kind (draft_of self.old)) }
    {
        let start = self.rows.len();
        self.rows.push(kind)?;
        self.put_block(start, 1)
    }

    // A character of the class. Each class is at least one in the size of the expression.
    fn put_class(&mut self, class: Class) -> Result<bool, OutOfMemory>
        ensures { IfOk result (λ goes_on. kept goes_on (draft_of self.new) ≡ with_class (class_of class) (draft_of self.old)) }
    {
        let number = self.classes.len();
        if number >= MOST_SIZE as usize {
            return Ok(false);
        }
        self.classes.push(class)?;
        self.put_leaf(Kind::OneOf(number as u16))
    }

    // one part of the last two
    fn put_pair(&mut self, kind: Kind) -> Result<bool, OutOfMemory>
        ensures { IfOk result (λ goes_on. kept goes_on (draft_of self.new) ≡ with_pair kind (draft_of self.old).blocks (draft_of self.old)) }
    {
        let Some(second) = self.blocks.pop() else {
            return Ok(false);
        };
        let Some(first) = self.blocks.pop() else {
            return Ok(false);
        };
        self.rows.push(kind)?;
        self.put_block(first.start, u64::from(first.size) + u64::from(second.size))
    }

    // the last part with the count of a quantifier
    fn put_count(
        &mut self,
        alloc: Global,
        least: u32,
        most: Option<u32>,
    ) -> Result<bool, OutOfMemory>
        ensures { IfOk result (λ goes_on. kept goes_on (draft_of self.new) ≡ with_count least most (draft_of self.old).blocks (draft_of self.old)) }
    {
        let Some(block) = self.blocks.pop() else {
            return Ok(false);
        };
        let size = 1 + copies(least, most) * u64::from(block.size);
        if !self.put_block(block.start, size)? {
            return Ok(false);
        }
        write_count(alloc, &mut self.rows, block.start, least, most)?;
        Ok(true)
    }

    // a part that begins at this row, behind the others
    fn put_block(&mut self, start: usize, size: u64) -> Result<bool, OutOfMemory>
        requires { size < 2 ^ 63 }
        ensures { IfOk result (λ goes_on. kept goes_on (draft_of self.new) ≡ with_block start size (draft_of self.old)) }
    {
        let total = u64::from(total_size(self.blocks.as_slice())) + size;
        if total > MOST_SIZE {
            return Ok(false);
        }
        self.blocks.push(Block {
            start,
            size: size as u16,
            total: total as u16,
        })?;
        Ok(true)
    }
}

// the size of all parts
fn total_size(blocks: &[Block]) -> u16
    ensures { result ≡ total_of (reverse blocks.now) }
{
    match blocks.last() {
        Some(block) => block.total,
        None => 0,
    }
}

// how often a part is written
fn copies(least: u32, most: Option<u32>) -> u64
    ensures value { result ≡ most_copies least most }
    ensures small { result < 2 ^ 33 }
{
    match most {
        Some(most) => u64::from(most).max(1),
        None => u64::from(least) + 1,
    }
}

// writes the rows from this one on with the count of a quantifier
fn write_count(
    alloc: Global,
    rows: &mut Vec<Kind>,
    start: usize,
    least: u32,
    most: Option<u32>,
) -> Result<(), OutOfMemory>
    ensures { OnOk result (rows.new.items ≡ counted_from start least most rows.old.items) }
{
    let part = Vec::from_slice(alloc, rows_from(rows.as_slice(), start))?;
    rows.truncate(start);
    match most {
        Some(most) => put_at_most(rows, part.as_slice(), least, most),
        None => put_at_least(rows, part.as_slice(), least),
    }
}

// writes at least so many copies of the rows
fn put_at_least(rows: &mut Vec<Kind>, part: &[Kind], least: u32) -> Result<(), OutOfMemory>
    ensures { OnOk result (rows.new.items ≡ rows.old.items ++ rows_counted least None part.now) }
{
    put_copies(rows, part, least)?;
    rows.extend_from_slice(part)?;
    rows.push(Kind::Repeated)?;
    put_copies(rows, [Kind::Both].as_slice(), least)?;
    Ok(())
}

// writes from so many to so many copies of the rows
fn put_at_most(
    rows: &mut Vec<Kind>,
    part: &[Kind],
    least: u32,
    most: u32,
) -> Result<(), OutOfMemory>
    ensures { OnOk result (rows.new.items ≡ rows.old.items ++ rows_counted least (Some most) part.now) }
{
    if least > most {
        rows.push(Kind::Never)?;
        return Ok(());
    }
    put_copies(rows, part, most)?;
    rows.push(Kind::Nothing)?;
    put_copies(rows, [Kind::Both, Kind::Optional].as_slice(), most - least)?;
    put_copies(rows, [Kind::Both].as_slice(), least)?;
    Ok(())
}

// the rows from this one on
fn rows_from(rows: &[Kind], start: usize) -> &[Kind]
    ensures { result.now ≡ drop start rows.now }
{
    match rows.get(start..) {
        Some(rest) => rest,
        None => &[],
    }
}

// writes so many copies of the rows
fn put_copies(rows: &mut Vec<Kind>, part: &[Kind], count: u32) -> Result<(), OutOfMemory>
    ensures { OnOk result (rows.new.items ≡ rows.old.items ++ copied count part.now) }
{
    'copies: for _ in 0..count {
        rows.extend_from_slice(part)?;
    }
    Ok(())
}
