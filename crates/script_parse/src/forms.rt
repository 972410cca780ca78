// The forms of terms in brackets.
ghost use Rattle.std.specs.Prelude.{◌≡◌, ℕ, ◌<◌, List, length, MatchOption};
ghost use Rattle.script_parse.specs.Forms.{opening, closing, has_tail, all_forms};
ghost use Rattle.script_parse.specs.Reading.{form_in};

use crate::blanks::after_text;

/// A form in brackets that is built.
#[derive(Clone, Copy)]
pub(crate) enum Form {
    List,
    Tuple,
    Map,
    Binary,
}

/// The forms in brackets that are built.
const FORMS: [Form; 4] = [Form::List, Form::Tuple, Form::Map, Form::Binary];

impl Form {
    /// What opens the form.
    fn opening(self) -> &'static [u8]
        ensures { result.now ≡ opening self }
    {
        match self {
            Form::List => b"[",
            Form::Tuple => b"{",
            Form::Map => b"#{",
            Form::Binary => b"<<",
        }
    }

    /// What closes it.
    pub(crate) fn closing(self) -> &'static [u8]
        ensures value { result.now ≡ closing self }
        ensures some { 0 < length result.now }
    {
        match self {
            Form::List => b"]",
            Form::Tuple | Form::Map => b"}",
            Form::Binary => b">>",
        }
    }

    /// Whether a last tail may stand before its end, after a bar.
    pub(crate) fn has_tail(self) -> bool
        ensures { result ≡ has_tail self }
    {
        matches!(self, Form::List)
    }
}

/// The first of these forms that is opened here, and the line after its opening.
fn opened_of<'a>(forms: &[Form], line: &'a [u8]) -> Option<(Form, &'a [u8])>
    ensures value { MatchOption result (form_in forms.now line.now ≡ None) (λ r. form_in forms.now line.now ≡ Some (r.0, r.1.now)) }
    ensures shorter { MatchOption result (Unit {0}) (λ r. length r.1.now < length line.now) }
{
    for form in forms {
        if let Some(rest) = after_text(line, form.opening()) {
            return Some((*form, rest));
        }
    }
    None
}

/// The form that is opened here, and the line after its opening.
pub(crate) fn opened(line: &[u8]) -> Option<(Form, &[u8])>
    ensures value { MatchOption result (form_in all_forms line.now ≡ None) (λ r. form_in all_forms line.now ≡ Some (r.0, r.1.now)) }
    ensures shorter { MatchOption result (Unit {0}) (λ r. length r.1.now < length line.now) }
{
    opened_of(&FORMS, line)
}
