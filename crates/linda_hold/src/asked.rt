//! Templates of requests: what is asked of the space, and whether to take it.

ghost use Rattle.std.specs.Prelude.{◌≡◌, ◌&&◌, not};
ghost use Rattle.std.specs.Option.{option_copied, option_map};
ghost use Rattle.linda_tuple.specs.Matching.{is_match};
ghost use Rattle.linda_hold.specs.FirstValue.{first_of, later_of, value_from};

use linda_tuple::{Atom, Pattern, Template, Tuple, matches};

/// What a request asks for: a tuple that the template matches, to take it away or to copy it.
#[derive(Debug, Drop)]
pub struct Asked {
    /// Whether the request is an input, which takes the tuple; else it is a read, which copies it.
    pub remove: bool,
    pub template: Template,
}

impl Asked {
    /// The first value of the template, wherever it is, with how many patterns are before it.
    pub(crate) fn value(&self) -> Option<(usize, &Atom)>
        ensures { option_map (λ p. (p.0, p.1.now)) result ≡ value_from 0 self.now.template.fields }
    {
        let mut before = 0;
        for pattern in self.template.fields() {
            match pattern {
                Pattern::Value(value) => {
                    return Some((before, value));
                }
                Pattern::IntFormal => {}
                Pattern::TextFormal => {}
                Pattern::BoolFormal => {}
                Pattern::Any => {}
            }
            before += 1;
        }
        None
    }

    /// The first value of the template, wherever it is, if it has one.
    pub(crate) fn first(&self) -> Option<&Atom>
        ensures { option_copied result ≡ first_of self.now }
    {
        let (_, value) = self.value()?;
        Some(value)
    }

    /// How many patterns are before the first value, if it does not begin the template.
    pub(crate) fn later(&self) -> Option<usize>
        ensures { result ≡ later_of self.now }
    {
        let (before, _) = self.value()?;
        if before == 0 {
            return None;
        }
        Some(before)
    }

    /// Whether this is a read that the tuple answers.
    pub(crate) fn is_read_matching(&self, tuple: &Tuple) -> bool
        ensures { result ≡ (not self.now.remove && is_match self.now.template tuple.now) }
    {
        !self.remove && matches(&self.template, tuple)
    }

    /// Whether this is an input that the tuple answers.
    pub(crate) fn is_input_matching(&self, tuple: &Tuple) -> bool
        ensures { result ≡ (self.now.remove && is_match self.now.template tuple.now) }
    {
        self.remove && matches(&self.template, tuple)
    }
}
