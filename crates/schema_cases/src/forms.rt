// Simple grammars, printed.
use crate::classes::print_class;
use crate::elements::Mentioned;
use crate::patterns::print_pattern;
use rng_model::{ElementId, PatternId, SimpleGrammar};
use std::io;

/// The most patterns or elements that are counted.
const MOST: usize = 1_000_000;

/// Prints the start, and then each element, its name class and its body in braces. If some listed elements are never
/// mentioned, prints how many.
pub fn print_form(rt: &(impl Print + AllocGlobal), grammar: &SimpleGrammar) -> io::Result<()> {
    let mut mentioned = Mentioned::new(rt.alloc());
    print_pattern(rt, grammar, &mut mentioned, grammar.start())?;
    let count = element_count(grammar);
    let mut printed: usize = 0;
    for number in 0..count {
        if let Some(element) = mentioned.get(number) {
            print_element(rt, grammar, &mut mentioned, element)?;
            printed = printed.wrapping_add(1);
        }
    }
    if printed < count {
        print!(rt; "; {} not mentioned", count - printed)?;
    }
    println!(rt;)
}

/// Prints the name class and the body of an element.
fn print_element(
    rt: &impl Print,
    grammar: &SimpleGrammar,
    mentioned: &mut Mentioned,
    element: ElementId,
) -> io::Result<()> {
    let Some((class, body)) = grammar.element(element) else {
        return print!(rt; "; no element");
    };
    print!(rt; "; ")?;
    print_class(rt, class)?;
    print!(rt; " {{ ")?;
    print_pattern(rt, grammar, mentioned, *body)?;
    print!(rt; " }}")
}

/// Prints how many patterns and elements the tables have.
pub fn print_size(rt: &impl Print, grammar: &SimpleGrammar) -> io::Result<()> {
    let patterns = pattern_count(grammar);
    let elements = element_count(grammar);
    println!(rt; "{patterns} patterns, {elements} elements")
}

fn pattern_count(grammar: &SimpleGrammar) -> usize {
    for place in 0..MOST {
        if grammar.pattern(PatternId(place)).is_none() {
            return place;
        }
    }
    MOST
}

fn element_count(grammar: &SimpleGrammar) -> usize {
    for place in 0..MOST {
        if grammar.element(ElementId(place)).is_none() {
            return place;
        }
    }
    MOST
}
