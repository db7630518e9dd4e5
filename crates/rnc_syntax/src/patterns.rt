// Reading patterns and the components of grammars.
ghost use Rattle.std.specs.Prelude.{◌≡◌, [], Some, map, if◌then◌else◌};
ghost use Rattle.rnc_syntax.specs.plain.Reading.{lexemes_in};
ghost use Rattle.rnc_model.specs.grammar.Syntax as syntax;
ghost use Rattle.rnc_syntax.specs.plain.Combinators.{with_front};
ghost use Rattle.rng_model.specs.plain.Answers.{Gives};
ghost use Rattle.rnc_syntax.specs.views.Fault.{stop_of};
ghost use Rattle.rnc_syntax.specs.plain.Productions.{bare_pattern_with, bare_primary_with, particle_with, pattern_from as pattern_read_from, pattern_with, rest_with};
ghost use Rattle.rnc_syntax.specs.plain.Productions.{braced_with, contents_with, inside_at, named_with, opened_with};
ghost use Rattle.rnc_syntax.specs.plain.Productions.{bare_component_with, component_with, components_with};
ghost use Rattle.rnc_syntax.specs.plain.DataParts.{excluded_with};
ghost use Rattle.rnc_syntax.specs.plain.ComponentParts.{div_with, include_with};
ghost use Rattle.rnc_syntax.specs.declared.atoms.Opening.TheVariants as openings;
ghost use Rattle.rnc_syntax.specs.views.SyntaxView.{component_of, pattern_of, setting_of};

use crate::atoms::{
    Opening, Setting, append_pattern, put_assigned, put_except, put_grammar, put_joined, put_named,
};
use crate::fault::{ReadFault, Stop};
use crate::reading::{Reader, onward, put};
use crate::syntax_tree::{Component, NameClass, Pattern};
use rnc_text::{Keyword, Sign, Token};

impl Reader {
    /// Reads a pattern one bracket deeper.
    #[cycle(patterns)]
    #[tactic(auto, using(crate::proofs::InsideBrackets::pattern_step, crate::proofs::InsideBrackets::pattern_too_deep))]
    fn inner_pattern<'t, 'a>(
        self,
        levels: u8,
        tokens: &'t [Token<'a>],
        place: &mut Pattern<'a>,
    ) -> Result<&'t [Token<'a>], ReadFault>
        ensures { Gives stop_of (λ x. (pattern_of place.new, lexemes_in self.count x.now)) result ((inside_at levels).pattern (lexemes_in self.count tokens.now)) }
    {
        if levels == 0 {
            return Err(ReadFault::Stop(Stop::TooDeep));
        }
        self.pattern(levels - 1, tokens, place)
    }

    /// Reads `"{" pattern "}"`.
    #[cycle(patterns)]
    #[tactic(auto, unfolding(crate::specs::plain::Productions::braced_with, crate::specs::plain::Productions::in_braces_at))]
    fn braced<'t, 'a>(
        self,
        levels: u8,
        tokens: &'t [Token<'a>],
        place: &mut Pattern<'a>,
    ) -> Result<&'t [Token<'a>], ReadFault>
        ensures { Gives stop_of (λ x. (pattern_of place.new, lexemes_in self.count x.now)) result (braced_with (inside_at levels) (lexemes_in self.count tokens.now)) }
    {
        let rest = self.skip(Sign::OpenBrace, tokens)?;
        let rest = self.inner_pattern(levels, rest, place)?;
        self.skip(Sign::CloseBrace, rest)
    }

    /// Reads `"{" content* "}"` or `"{" over* "}"` into this list, which is empty.
    #[cycle(patterns)]
    #[tactic(auto, using(crate::proofs::InsideBrackets::components_inside, crate::proofs::ReadItems::nothing_before), unfolding(crate::specs::plain::Productions::contents_with, crate::specs::plain::Productions::in_braces_at))]
    fn contents<'t, 'a>(
        self,
        levels: u8,
        setting: Setting,
        tokens: &'t [Token<'a>],
        place: &mut Vec<Component<'a>>,
    ) -> Result<&'t [Token<'a>], ReadFault>
        requires { place.old.items ≡ [] }
        ensures { Gives stop_of (λ x. (map component_of place.new.items, lexemes_in self.count x.now)) result (contents_with (inside_at levels) (setting_of setting) (lexemes_in self.count tokens.now)) }
    {
        let rest = self.skip(Sign::OpenBrace, tokens)?;
        if levels == 0 {
            return Err(ReadFault::Stop(Stop::TooDeep));
        }
        let rest = self.more_components(levels - 1, setting, rest, place)?;
        self.skip(Sign::CloseBrace, rest)
    }

    /// Reads the name class and the body of an element or an attribute, after its keyword.
    #[cycle(patterns)]
    #[inline(never)]
    #[tactic(auto, unfolding(crate::specs::plain::Productions::named_with))]
    fn named<'t, 'a>(
        self,
        levels: u8,
        is_attribute: bool,
        tokens: &'t [Token<'a>],
        place: &mut Pattern<'a>,
    ) -> Result<&'t [Token<'a>], ReadFault>
        ensures { Gives stop_of (λ x. (pattern_of place.new, lexemes_in self.count x.now)) result (named_with (inside_at levels) (if is_attribute then syntax.attribute else syntax.element) (lexemes_in self.count tokens.now)) }
    {
        let mut class = NameClass::Any;
        let rest = self.class(levels, tokens, &mut class)?;
        let mut body = self.no_pattern()?;
        let rest = self.braced(levels, rest, &mut body)?;
        put_named(place, is_attribute, &mut class, body);
        Ok(rest)
    }

    /// Reads the body of a list or of what is mixed, after its keyword.
    #[cycle(patterns)]
    #[inline(never)]
    #[tactic(auto, unfolding(crate::specs::plain::Productions::opened_with))]
    fn wrapped<'t, 'a>(
        self,
        levels: u8,
        is_mixed: bool,
        tokens: &'t [Token<'a>],
        place: &mut Pattern<'a>,
    ) -> Result<&'t [Token<'a>], ReadFault>
        ensures { Gives stop_of (λ x. (pattern_of place.new, lexemes_in self.count x.now)) result (opened_with (inside_at levels) (if is_mixed then openings.Mixed else openings.List) (lexemes_in self.count tokens.now)) }
    {
        let mut body = self.no_pattern()?;
        let rest = self.braced(levels, tokens, &mut body)?;
        if is_mixed {
            put(place, Pattern::Mixed(body));
            return Ok(rest);
        }
        put(place, Pattern::List(body));
        Ok(rest)
    }

    /// Reads the components of a grammar, after its keyword.
    #[cycle(patterns)]
    #[inline(never)]
    #[tactic(auto, unfolding(crate::specs::plain::Productions::opened_with))]
    fn grammar<'t, 'a>(
        self,
        levels: u8,
        tokens: &'t [Token<'a>],
        place: &mut Pattern<'a>,
    ) -> Result<&'t [Token<'a>], ReadFault>
        ensures { Gives stop_of (λ x. (pattern_of place.new, lexemes_in self.count x.now)) result (opened_with (inside_at levels) openings.Grammar (lexemes_in self.count tokens.now)) }
    {
        let mut components = Vec::new(self.alloc);
        let rest = self.contents(levels, Setting::Content, tokens, &mut components);
        // Put there after a fault too: nothing is dropped here then, which would take room in the frame.
        put_grammar(place, components);
        rest
    }

    /// Reads a primary after its annotation.
    #[cycle(patterns)]
    #[tactic(auto, unfolding(crate::specs::plain::Productions::bare_primary_with, crate::specs::plain::Productions::opened_with, crate::specs::plain::Productions::parens_with))]
    fn bare_primary<'t, 'a>(
        self,
        levels: u8,
        tokens: &'t [Token<'a>],
        place: &mut Pattern<'a>,
    ) -> Result<&'t [Token<'a>], ReadFault>
        ensures { Gives stop_of (λ x. (pattern_of place.new, lexemes_in self.count x.now)) result (bare_primary_with (inside_at levels) (lexemes_in self.count tokens.now)) }
    {
        let Some((opening, rest)) = self.find_opening(tokens) else {
            return self.atom(tokens, place);
        };
        match opening {
            Opening::Element => self.named(levels, false, rest, place),
            Opening::Attribute => self.named(levels, true, rest, place),
            Opening::List => self.wrapped(levels, false, rest, place),
            Opening::Mixed => self.wrapped(levels, true, rest, place),
            Opening::Grammar => self.grammar(levels, rest, place),
            Opening::Parenthesis => {
                let rest = self.inner_pattern(levels, rest, place)?;
                self.skip(Sign::CloseParenthesis, rest)
            }
        }
    }

    /// Reads `primary | primary "?" | primary "*" | primary "+"`.
    #[cycle(patterns)]
    #[tactic(auto, unfolding(crate::specs::plain::Productions::particle_with, crate::specs::plain::Productions::primary_with))]
    fn particle<'t, 'a>(
        self,
        levels: u8,
        tokens: &'t [Token<'a>],
        place: &mut Pattern<'a>,
    ) -> Result<&'t [Token<'a>], ReadFault>
        ensures { Gives stop_of (λ x. (pattern_of place.new, lexemes_in self.count x.now)) result (particle_with (inside_at levels) (lexemes_in self.count tokens.now)) }
    {
        let rest = self.annotation(tokens)?;
        let rest = self.bare_primary(levels, rest, place)?;
        self.repeated(rest, place)
    }

    /// Reads the patterns that follow the one in this place, each after this connector, and joins them.
    #[cycle(patterns)]
    #[inline(never)]
    fn more<'t, 'a>(
        self,
        levels: u8,
        sign: Sign,
        tokens: &'t [Token<'a>],
        place: &mut Pattern<'a>,
    ) -> Result<&'t [Token<'a>], ReadFault>
        ensures { Gives stop_of (λ x. (pattern_of place.new, lexemes_in self.count x.now)) result (rest_with (inside_at levels) (pattern_of place.old) (Some sign) (lexemes_in self.count tokens.now)) }
    {
        let mut all = Vec::new(self.alloc);
        append_pattern(&mut all, place)?;
        let mut rest = tokens;
        while let Some(after) = self.find_after(sign, rest) {
            let after = self.particle(levels, after, place)?;
            append_pattern(&mut all, place)?;
            rest = onward(after);
        }
        put_joined(place, sign, all);
        Ok(rest)
    }

    /// Reads the rest of a pattern after its first primary.
    #[cycle(patterns)]
    #[tactic(auto, unfolding(crate::specs::plain::Productions::rest_with))]
    fn pattern_from<'t, 'a>(
        self,
        levels: u8,
        tokens: &'t [Token<'a>],
        place: &mut Pattern<'a>,
    ) -> Result<&'t [Token<'a>], ReadFault>
        ensures { Gives stop_of (λ x. (pattern_of place.new, lexemes_in self.count x.now)) result (pattern_read_from (inside_at levels) (pattern_of place.old) (lexemes_in self.count tokens.now)) }
    {
        let rest = self.repeated(tokens, place)?;
        match self.separator(rest) {
            None => Ok(rest),
            Some(sign) => self.more(levels, sign, rest, place),
        }
    }

    /// Reads the pattern that the datatype in this place excludes, after the `-`.
    #[cycle(patterns)]
    #[inline(never)]
    #[tactic(auto, unfolding(crate::specs::plain::Productions::primary_with))]
    fn excluded<'t, 'a>(
        self,
        levels: u8,
        tokens: &'t [Token<'a>],
        place: &mut Pattern<'a>,
    ) -> Result<&'t [Token<'a>], ReadFault>
        ensures { Gives stop_of (λ x. (pattern_of place.new, lexemes_in self.count x.now)) result (excluded_with (inside_at levels) (pattern_of place.old) (lexemes_in self.count tokens.now)) }
    {
        let mut except = self.no_pattern()?;
        let rest = self.annotation(tokens)?;
        let rest = self.bare_primary(levels, rest, &mut except)?;
        put_except(place, except);
        Ok(rest)
    }

    /// Reads a pattern inside which at most `levels` brackets may be open.
    #[cycle(patterns)]
    #[tactic(auto, unfolding(crate::specs::plain::Productions::pattern_with))]
    pub fn pattern<'t, 'a>(
        self,
        levels: u8,
        tokens: &'t [Token<'a>],
        place: &mut Pattern<'a>,
    ) -> Result<&'t [Token<'a>], ReadFault>
        ensures { Gives stop_of (λ x. (pattern_of place.new, lexemes_in self.count x.now)) result (pattern_with (inside_at levels) (lexemes_in self.count tokens.now)) }
    {
        let rest = self.annotation(tokens)?;
        self.bare_pattern(levels, rest, place)
    }

    /// Reads a pattern after an annotation.
    #[cycle(patterns)]
    #[tactic(auto, unfolding(crate::specs::plain::Productions::bare_pattern_with))]
    pub fn bare_pattern<'t, 'a>(
        self,
        levels: u8,
        tokens: &'t [Token<'a>],
        place: &mut Pattern<'a>,
    ) -> Result<&'t [Token<'a>], ReadFault>
        ensures { Gives stop_of (λ x. (pattern_of place.new, lexemes_in self.count x.now)) result (bare_pattern_with (inside_at levels) (lexemes_in self.count tokens.now)) }
    {
        let rest = self.bare_primary(levels, tokens, place)?;
        match self.find_exclusion(tokens, rest) {
            None => self.pattern_from(levels, rest, place),
            Some(rest) => self.excluded(levels, rest, place),
        }
    }

    /// Reads the components of a div, after its keyword.
    #[cycle(patterns)]
    #[inline(never)]
    fn div<'t, 'a>(
        self,
        levels: u8,
        setting: Setting,
        tokens: &'t [Token<'a>],
        place: &mut Component<'a>,
    ) -> Result<&'t [Token<'a>], ReadFault>
        ensures { Gives stop_of (λ x. (component_of place.new, lexemes_in self.count x.now)) result (div_with (inside_at levels) (setting_of setting) (lexemes_in self.count tokens.now)) }
    {
        let mut components = Vec::new(self.alloc);
        let rest = self.contents(levels, setting, tokens, &mut components)?;
        put(place, Component::Div(components));
        Ok(rest)
    }

    /// Reads the mention and the components of an include, after its keyword, which has this number.
    #[cycle(patterns)]
    #[inline(never)]
    #[tactic(auto, unfolding(crate::specs::plain::Productions::overrides_with))]
    fn include<'t, 'a>(
        self,
        levels: u8,
        number: usize,
        tokens: &'t [Token<'a>],
        place: &mut Component<'a>,
    ) -> Result<&'t [Token<'a>], ReadFault>
        ensures { Gives stop_of (λ x. (component_of place.new, lexemes_in self.count x.now)) result (include_with (inside_at levels) number (lexemes_in self.count tokens.now)) }
    {
        let (mention, rest) = self.mention(number, tokens)?;
        let mut components = Vec::new(self.alloc);
        let rest = match self.find_after(Sign::OpenBrace, rest) {
            None => rest,
            Some(_) => self.contents(levels, Setting::Override, rest, &mut components)?,
        };
        put(place, Component::Include(mention, components));
        Ok(rest)
    }

    /// Reads one component.
    #[cycle(patterns)]
    #[tactic(auto, unfolding(crate::specs::plain::Productions::component_with))]
    fn component<'t, 'a>(
        self,
        levels: u8,
        setting: Setting,
        tokens: &'t [Token<'a>],
        place: &mut Component<'a>,
    ) -> Result<&'t [Token<'a>], ReadFault>
        ensures { Gives stop_of (λ x. (component_of place.new, lexemes_in self.count x.now)) result (component_with (inside_at levels) (setting_of setting) (lexemes_in self.count tokens.now)) }
    {
        let rest = self.annotation(tokens)?;
        self.bare_component(levels, setting, rest, place)
    }

    /// Reads one component after its annotation.
    #[cycle(patterns)]
    #[tactic(auto, unfolding(crate::specs::plain::Productions::bare_component_with))]
    pub fn bare_component<'t, 'a>(
        self,
        levels: u8,
        setting: Setting,
        tokens: &'t [Token<'a>],
        place: &mut Component<'a>,
    ) -> Result<&'t [Token<'a>], ReadFault>
        ensures { Gives stop_of (λ x. (component_of place.new, lexemes_in self.count x.now)) result (bare_component_with (inside_at levels) (setting_of setting) (lexemes_in self.count tokens.now)) }
    {
        if let Some(rest) = self.find_after_keyword(Keyword::Div, tokens) {
            return self.div(levels, setting, rest, place);
        }
        if let Some((number, rest)) = self.find_include(setting, tokens) {
            return self.include(levels, number, rest, place);
        }
        let (name, method, rest) = self.assigned(tokens)?;
        let mut body = self.no_pattern()?;
        let rest = self.pattern(levels, rest, &mut body);
        // Put there after a fault too, as in `grammar`.
        put_assigned(place, name, method, body);
        rest
    }

    /// Reads components inside which at most `levels` brackets may be open, and appends them.
    #[cycle(patterns)]
    #[tactic(auto, unfolding(crate::specs::plain::Productions::components_with))]
    pub fn more_components<'t, 'a>(
        self,
        levels: u8,
        setting: Setting,
        tokens: &'t [Token<'a>],
        all: &mut Vec<Component<'a>>,
    ) -> Result<&'t [Token<'a>], ReadFault>
        ensures { Gives stop_of (λ x. (map component_of all.new.items, lexemes_in self.count x.now)) result
            (with_front (map component_of all.old.items) (components_with (inside_at levels) (setting_of setting) (lexemes_in self.count tokens.now))) }
    {
        let mut next = Box::new(self.alloc, Component::Div(Vec::new(self.alloc)))?;
        let mut rest = tokens;
        while self.begins_component(setting, rest) {
            let after = self.component(levels, setting, rest, &mut next)?;
            self.append_component(all, &mut next)?;
            rest = onward(after);
        }
        Ok(rest)
    }
}
