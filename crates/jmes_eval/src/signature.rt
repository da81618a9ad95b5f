ghost use Rattle.std.specs.Prelude.{◌≡◌};
ghost use Rattle.jmes_eval.specs.Forms.{form_of};

use jmes_syntax::Function;

/// What a function is called with.
#[derive(Clone, Copy, Debug, PartialEq, Eq)]
pub enum Form {
    /// One value.
    One,
    /// Two values.
    Two,
    /// Any number of values.
    Many,
    /// An expref, and a value whose elements it is applied to.
    ExprefFirst,
    /// A value, and an expref that is applied to its elements.
    ExprefLast,
}

pub(crate) fn form_of(function: Function) -> Form
    ensures { result ≡ form_of function }
{
    match function {
        Function::Abs => Form::One,
        Function::Ceil => Form::One,
        Function::Contains => Form::Two,
        Function::EndsWith => Form::Two,
        Function::Floor => Form::One,
        Function::Join => Form::Two,
        Function::Keys => Form::One,
        Function::Length => Form::One,
        Function::Map => Form::ExprefFirst,
        Function::Max => Form::One,
        Function::MaxBy => Form::ExprefLast,
        Function::Merge => Form::Many,
        Function::Min => Form::One,
        Function::MinBy => Form::ExprefLast,
        Function::NotNull => Form::Many,
        Function::Reverse => Form::One,
        Function::Sort => Form::One,
        Function::SortBy => Form::ExprefLast,
        Function::StartsWith => Form::Two,
        Function::Sum => Form::One,
        Function::ToArray => Form::One,
        Function::ToNumber => Form::One,
        Function::ToString => Form::One,
        Function::Type => Form::One,
        Function::Values => Form::One,
    }
}
