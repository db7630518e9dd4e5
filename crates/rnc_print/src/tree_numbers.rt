// Numbers that distinguish the patterns of a grammar by their trees.
ghost use Rattle.std.specs.Prelude.{◌≡◌, ◌++◌, IfOk, OnOk, Some, length, map, slice_get};
ghost use Rattle.rng_labels.specs.plain.LabelCodes.{AreCodesApart, codes_of, part_of};
ghost use Rattle.rng_model.specs.simple.TableRules.{AreChildrenBelow, IsTable};
ghost use Rattle.rnc_print.specs.plain.PatternCodes.{Stays, label_code, number_at, numbers_of, pattern_code};
ghost use Rattle.rnc_print.specs.views.TreeNumbers.{AreTreeNumbers};

use indexmap::IndexSet;
use rng_labels::{LabelPart, place_of_code, put_class, put_datatype, put_value};
use rng_model::{OutOfMemory, PatternId, Simple, SimpleGrammar};
use std::alloc::{AllocError, Global};

/// Returns a number for each pattern of a grammar, by its position. Two have the same number exactly if their trees are
/// equal.
///
/// Time and memory are linear in the tables.
pub(crate) fn tree_numbers(
    alloc: Global,
    grammar: &SimpleGrammar,
) -> Result<Vec<usize>, OutOfMemory>
    requires { IsTable grammar.now }
    ensures { IfOk result (λ numbers. AreTreeNumbers grammar.now numbers.items) }
{
    let mut codes = IndexSet::new(alloc);
    let mut numbers = Vec::new(alloc);
    'patterns: while let Some(pattern) = grammar.pattern(PatternId(numbers.len())) {
        let code = pattern_code(alloc, pattern, numbers.as_slice())?;
        let number = number_of_code(&mut codes, code)?;
        numbers.push(number)?;
    }
    Ok(numbers)
}

/// Returns the place of a code among these. A new code is appended.
fn number_of_code<'a>(
    codes: &mut IndexSet<Vec<LabelPart<'a>>>,
    code: Vec<LabelPart<'a>>,
) -> Result<usize, AllocError>
    ensures apart { OnOk result (AreCodesApart (codes_of codes.new)) }
    ensures stays { OnOk result (Stays (codes_of codes.old) (codes_of codes.new)) }
    ensures there { IfOk result (λ n. slice_get (codes_of codes.new) n ≡ Some (map part_of code.entry.items)) }
{
    let last = codes.len();
    Ok(place_of_code(codes, code)?.unwrap_or(last))
}

/// Returns what distinguishes a pattern from others, if the patterns before it have these numbers. This is its kind,
/// the numbers of its parts, and the code of its label.
fn pattern_code<'a>(
    alloc: Global,
    pattern: &'a Simple,
    numbers: &[usize],
) -> Result<Vec<LabelPart<'a>>, AllocError>
    requires { AreChildrenBelow (length numbers.now) pattern.now }
    ensures { IfOk result (λ code. map part_of code.items ≡ pattern_code (number_at numbers.now) pattern.now) }
{
    let (kind, first, second) = numbers_of(pattern, numbers);
    let mut code = vec![in alloc;
        LabelPart::Number(kind),
        LabelPart::Number(first),
        LabelPart::Number(second),
    ]?;
    put_label(&mut code, pattern)?;
    Ok(code)
}

/// Returns the kind of a pattern, and the numbers of its element or of its parts, or 0 if it has none.
fn numbers_of(pattern: &Simple, numbers: &[usize]) -> (usize, usize, usize)
    requires { AreChildrenBelow (length numbers.now) pattern.now }
    ensures { result ≡ numbers_of (number_at numbers.now) pattern.now }
{
    match pattern {
        Simple::NotAllowed => (0, 0, 0),
        Simple::Empty => (1, 0, 0),
        Simple::Text => (2, 0, 0),
        Simple::Element(element) => (3, element.0, 0),
        Simple::Attribute(_, body) => (4, numbers[body.0], 0),
        Simple::List(body) => (5, numbers[body.0], 0),
        Simple::Data(_) => (6, 0, 0),
        Simple::DataExcept(_, except) => (7, numbers[except.0], 0),
        Simple::Value(_) => (8, 0, 0),
        Simple::OneOrMore(body) => (9, numbers[body.0], 0),
        Simple::Group(first, second) => (10, numbers[first.0], numbers[second.0]),
        Simple::Interleave(first, second) => (11, numbers[first.0], numbers[second.0]),
        Simple::Choice(first, second) => (12, numbers[first.0], numbers[second.0]),
    }
}

/// Appends the code of the label of a pattern: of its name class, its datatype or its value.
fn put_label<'a>(code: &mut Vec<LabelPart<'a>>, pattern: &'a Simple) -> Result<(), AllocError>
    ensures { OnOk result (map part_of code.new.items ≡ map part_of code.old.items ++ label_code pattern.now) }
{
    match pattern {
        Simple::Attribute(class, _) => put_class(code, class),
        Simple::Data(datatype) | Simple::DataExcept(datatype, _) => put_datatype(code, datatype),
        Simple::Value(value) => put_value(code, value),
        Simple::NotAllowed
        | Simple::Empty
        | Simple::Text
        | Simple::Element(_)
        | Simple::List(_)
        | Simple::OneOrMore(_)
        | Simple::Group(_, _)
        | Simple::Interleave(_, _)
        | Simple::Choice(_, _) => Ok(()),
    }
}
