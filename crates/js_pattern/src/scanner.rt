//! A pattern read character by character: what is open, and what the next character belongs to.

ghost use Rattle.std.specs.Prelude.{◌≡◌, ◌+◌, ◌^◌, ◌<◌, ◌≤◌, IfSome};
ghost use Rattle.js_pattern.specs.Patterns as pattern;
ghost use Rattle.js_pattern.specs.Scan as spec;

use crate::pattern::{Forms, Mode};
use js_chars::{is_identifier_part, is_identifier_start};

/// What has been begun where the next character stands.
#[derive(Clone, Copy)]
pub(crate) enum Place {
    /// Nothing: here an item may begin, or a part of a class.
    Between,
    /// `\`
    Backslash,
    /// `\p` or `\P`, which `{` has to follow
    Property,
    /// `\p{`
    PropertyBrace,
    /// `\p{` and some of the name
    PropertyName,
    /// `(`
    Paren,
    /// `(?`
    Question,
    /// `(?` and letters
    Letters,
    /// `(?`, letters and `-`, and letters
    LettersOff,
    /// `(?<`
    Angle,
    /// `(?<` and some of the name
    GroupName,
}

/// What is open behind the characters read, and the forms among them.
#[derive(Clone, Copy)]
pub(crate) struct Scanner {
    pub(crate) groups: usize,
    pub(crate) classes: usize,
    pub(crate) place: Place,
    pub(crate) forms: Forms,
}

fn is_property_part(c: char) -> bool
    ensures { result ≡ pattern.is_property_part c }
{
    matches!(c, 'a'..='z' | 'A'..='Z' | '0'..='9' | '_' | '=')
}

fn is_modifier(c: char) -> bool
    ensures { result ≡ pattern.is_modifier c }
{
    c == 'i' || c == 'm' || c == 's'
}

impl Scanner {
    pub(crate) fn start() -> Scanner
        ensures { result ≡ spec.start }
    {
        let forms = Forms {
            look_behind: false,
            named_groups: false,
            property_escapes: false,
        };
        Scanner {
            groups: 0,
            classes: 0,
            place: Place::Between,
            forms,
        }
    }

    fn at(self, place: Place) -> Scanner
        ensures { result ≡ spec.moved self place }
    {
        Scanner { place, ..self }
    }

    /// Behind a form.
    fn with(self, forms: Forms) -> Scanner
        ensures { result ≡ spec.found self forms }
    {
        Scanner {
            place: Place::Between,
            forms,
            ..self
        }
    }

    fn in_items(self, c: char) -> Option<Scanner>
        requires { self.groups < 2 ^ 63 }
        ensures { result ≡ spec.in_items self c }
    {
        match c {
            '\\' => Some(self.at(Place::Backslash)),
            '[' => Some(Scanner {
                classes: 1,
                place: Place::Between,
                ..self
            }),
            '(' => Some(Scanner {
                groups: self.groups + 1,
                place: Place::Paren,
                ..self
            }),
            ')' if self.groups == 0 => None,
            ')' => Some(Scanner {
                groups: self.groups - 1,
                place: Place::Between,
                ..self
            }),
            _ => Some(self.at(Place::Between)),
        }
    }

    fn in_class(self, mode: Mode, c: char) -> Scanner
        requires some { 0 < self.classes }
        requires few { self.classes < 2 ^ 63 }
        ensures { result ≡ spec.in_class mode self c }
    {
        match c {
            '\\' => self.at(Place::Backslash),
            '[' if mode.nests => Scanner {
                classes: self.classes + 1,
                place: Place::Between,
                ..self
            },
            ']' => Scanner {
                classes: self.classes - 1,
                place: Place::Between,
                ..self
            },
            _ => self.at(Place::Between),
        }
    }

    fn between(self, mode: Mode, c: char) -> Option<Scanner>
        requires groups { self.groups < 2 ^ 63 }
        requires classes { self.classes < 2 ^ 63 }
        ensures { result ≡ spec.between mode self c }
    {
        if self.classes == 0 {
            self.in_items(c)
        } else {
            Some(self.in_class(mode, c))
        }
    }

    fn escaped(self, mode: Mode, c: char) -> Scanner
        ensures { result ≡ spec.escaped mode self c }
    {
        if mode.unicode && (c == 'p' || c == 'P') {
            self.at(Place::Property)
        } else {
            self.at(Place::Between)
        }
    }

    fn in_property(self, c: char) -> Option<Scanner>
        ensures { result ≡ spec.in_property self c }
    {
        if is_property_part(c) {
            Some(self.at(Place::PropertyName))
        } else if c == '}' {
            Some(self.with(Forms {
                property_escapes: true,
                ..self.forms
            }))
        } else {
            None
        }
    }

    /// Behind `(?` and letters, or these, `-` and letters.
    fn in_letters(self, place: Place, c: char) -> Option<Scanner>
        ensures { result ≡ spec.in_letters self place c }
    {
        if is_modifier(c) {
            Some(self.at(place))
        } else if c == ':' {
            Some(self.at(Place::Between))
        } else {
            None
        }
    }

    fn in_modifiers(self, c: char) -> Option<Scanner>
        ensures { result ≡ spec.in_modifiers self c }
    {
        if c == '-' {
            Some(self.at(Place::LettersOff))
        } else {
            self.in_letters(Place::Letters, c)
        }
    }

    fn behind_question(self, c: char) -> Option<Scanner>
        ensures { result ≡ spec.behind_question self c }
    {
        match c {
            '<' => Some(self.at(Place::Angle)),
            '=' | '!' => Some(self.at(Place::Between)),
            _ => self.in_modifiers(c),
        }
    }

    fn behind_angle(self, c: char) -> Option<Scanner>
        ensures { result ≡ spec.behind_angle self c }
    {
        if c == '=' || c == '!' {
            Some(self.with(Forms {
                look_behind: true,
                ..self.forms
            }))
        } else if is_identifier_start(c) {
            Some(self.at(Place::GroupName))
        } else {
            None
        }
    }

    fn in_name(self, c: char) -> Option<Scanner>
        ensures { result ≡ spec.in_name self c }
    {
        if c == '>' {
            Some(self.with(Forms {
                named_groups: true,
                ..self.forms
            }))
        } else if is_identifier_part(c) {
            Some(self.at(Place::GroupName))
        } else {
            None
        }
    }

    /// Behind one more character, if it may stand here.
    pub(crate) fn step(self, mode: Mode, c: char) -> Option<Scanner>
        requires groups { self.groups < 2 ^ 63 }
        requires classes { self.classes < 2 ^ 63 }
        ensures step { result ≡ spec.step mode self c }
        ensures slow { IfSome result (λ s. (s.groups ≤ self.groups + 1) × (s.classes ≤ self.classes + 1)) }
    {
        match self.place {
            Place::Between => self.between(mode, c),
            Place::Backslash => Some(self.escaped(mode, c)),
            Place::Property if c == '{' => Some(self.at(Place::PropertyBrace)),
            Place::PropertyBrace if is_property_part(c) => Some(self.at(Place::PropertyName)),
            Place::Property | Place::PropertyBrace => None,
            Place::PropertyName => self.in_property(c),
            Place::Paren if c == '?' => Some(self.at(Place::Question)),
            Place::Paren => self.between(mode, c),
            Place::Question => self.behind_question(c),
            Place::Letters => self.in_modifiers(c),
            Place::LettersOff => self.in_letters(Place::LettersOff, c),
            Place::Angle => self.behind_angle(c),
            Place::GroupName => self.in_name(c),
        }
    }

    /// The forms, where nothing is open.
    pub(crate) fn finish(self) -> Option<Forms>
        ensures { result ≡ spec.finish self }
    {
        match self.place {
            Place::Between if self.groups == 0 && self.classes == 0 => Some(self.forms),
            _ => None,
        }
    }
}
