// Regular expressions as lists of rows (XML Schema Part 2, Second Edition, appendix F).
ghost use Rattle.std.specs.Prelude.{◌≡◌, IfOk, map};
ghost use Rattle.std.specs.Str.{chars};
ghost use Rattle.xsd_regex.specs.views.Rows.{row_of, rows_of};
ghost use Rattle.xsd_regex.specs.views.Readings.{IsReading};
ghost use Rattle.xsd_regex.specs.views.Steps.{AreRead};

use crate::class::Class;
use crate::fault::ReadFault;
use crate::reader::Reader;
use crate::symbol::next_symbol;
use rng_model::OutOfMemory;
use std::alloc::Global;

/// A part of an expression, without the parts that it is made of.
#[derive(Drop)]
pub enum Row {
    /// The empty branch.
    Nothing,
    /// One character of the class.
    OneOf(Class),
    /// The last two parts, one after the other.
    Both,
    /// One of the last two parts.
    Either,
    /// The last part, at least so often, and at most so often, if there is a limit.
    Times(u32, Option<u32>),
}

/// A regular expression: its parts as rows, each part before what it is a part of.
#[derive(Drop)]
pub struct Expression {
    rows: Vec<Row>,
}

impl Expression {
    /// Returns the rows. Allocates nothing.
    pub fn rows(&self) -> &[Row]
        ensures { map row_of result.now ≡ rows_of self.now }
    {
        self.rows.as_slice()
    }

    /// Returns the rows as a vector of the caller's own. Allocates nothing.
    pub fn into_rows(self) -> Vec<Row>
        ensures { map row_of result.items ≡ rows_of self }
    {
        self.rows
    }
}

/// Reads a regular expression of XML Schema. Returns `None` if the text is none.
///
/// A count is at most 4,294,967,295. The categories of characters are those of the kit's version of Unicode, and the blocks
/// those of the standard. XML Schema Part 2, Second Edition, appendix F.
///
/// One pass over the text. Groups and classes may be nested as deep as the text goes: nothing is recursive, and the memory
/// that is taken is linear in the length of the text.
///
/// # Errors
///
/// Returns `OutOfMemory` if memory is out, and in no other case.
pub fn read(alloc: Global, text: &str) -> Result<Option<Expression>, OutOfMemory>
    ensures { IfOk result (IsReading (chars text.now)) }
{
    match read_rows(alloc, text) {
        Ok(rows) => Ok(Some(Expression { rows })),
        Err(ReadFault::NoExpression) => Ok(None),
        Err(ReadFault::Memory) => Err(OutOfMemory),
    }
}

// the rows of the expression
fn read_rows(alloc: Global, text: &str) -> Result<Vec<Row>, ReadFault>
    ensures { AreRead (chars text.now) result }
{
    let mut reader = Reader::new(alloc)?;
    let mut rest = text;
    while !rest.is_empty() {
        match next_symbol(rest) {
            Some((symbol, after)) => {
                reader.step(symbol)?;
                rest = after;
            }
            None => return Err(ReadFault::NoExpression),
        }
    }
    reader.finish()
}
