ghost use Rattle.std.specs.Prelude.{◌≡◌, IsTrue};
ghost use Rattle.texts.specs.Ascii.{is_ascii_text};
ghost use Rattle.jmes_syntax.specs.Functions.{name_of, arity_of, parameter_of, function_named};

use json_doc::Text;

/// The functions of the JMESPath specification (section "Built-in Functions"), without `avg`.
#[derive(Clone, Copy, Debug, PartialEq, Eq)]
pub enum Function {
    Abs,
    Ceil,
    Contains,
    EndsWith,
    Floor,
    Join,
    Keys,
    Length,
    Map,
    Max,
    MaxBy,
    Merge,
    Min,
    MinBy,
    NotNull,
    Reverse,
    Sort,
    SortBy,
    StartsWith,
    Sum,
    ToArray,
    ToNumber,
    ToString,
    Type,
    Values,
}

/// How many arguments a function takes.
#[derive(Clone, Copy, Debug, PartialEq, Eq)]
pub enum Arity {
    Exactly(u64),
    AtLeast(u64),
}

/// What an argument is to be: the value of an expression, or an expref to one.
#[derive(Clone, Copy, Debug, PartialEq, Eq)]
pub enum Parameter {
    Value,
    Expref,
}

/// All functions, in the order of their names.
pub const FUNCTIONS: [Function; 25] = [
    Function::Abs,
    Function::Ceil,
    Function::Contains,
    Function::EndsWith,
    Function::Floor,
    Function::Join,
    Function::Keys,
    Function::Length,
    Function::Map,
    Function::Max,
    Function::MaxBy,
    Function::Merge,
    Function::Min,
    Function::MinBy,
    Function::NotNull,
    Function::Reverse,
    Function::Sort,
    Function::SortBy,
    Function::StartsWith,
    Function::Sum,
    Function::ToArray,
    Function::ToNumber,
    Function::ToString,
    Function::Type,
    Function::Values,
];

impl Function {
    /// The function with this name.
    pub fn named(name: &Text) -> Option<Function>
        ensures { result ≡ function_named name.now }
    {
        for function in &FUNCTIONS {
            if name.is(function.name()) {
                return Some(*function);
            }
        }
        None
    }

    /// Its name in expressions.
    pub fn name(self) -> &'static str
        ensures value { result.now ≡ name_of self }
        ensures ascii { IsTrue (is_ascii_text result.now) }
    {
        match self {
            Function::Abs => "abs",
            Function::Ceil => "ceil",
            Function::Contains => "contains",
            Function::EndsWith => "ends_with",
            Function::Floor => "floor",
            Function::Join => "join",
            Function::Keys => "keys",
            Function::Length => "length",
            Function::Map => "map",
            Function::Max => "max",
            Function::MaxBy => "max_by",
            Function::Merge => "merge",
            Function::Min => "min",
            Function::MinBy => "min_by",
            Function::NotNull => "not_null",
            Function::Reverse => "reverse",
            Function::Sort => "sort",
            Function::SortBy => "sort_by",
            Function::StartsWith => "starts_with",
            Function::Sum => "sum",
            Function::ToArray => "to_array",
            Function::ToNumber => "to_number",
            Function::ToString => "to_string",
            Function::Type => "type",
            Function::Values => "values",
        }
    }

    pub fn arity(self) -> Arity
        ensures { result ≡ arity_of self }
    {
        match self {
            Function::Contains
            | Function::EndsWith
            | Function::Join
            | Function::Map
            | Function::MaxBy
            | Function::MinBy
            | Function::SortBy
            | Function::StartsWith => Arity::Exactly(2),
            Function::Merge | Function::NotNull => Arity::AtLeast(1),
            _ => Arity::Exactly(1),
        }
    }

    /// What the argument at this place is to be, counted from 0.
    pub fn parameter(self, at: u64) -> Parameter
        ensures { result ≡ parameter_of self at }
    {
        match self {
            Function::Map if at == 0 => Parameter::Expref,
            Function::MaxBy | Function::MinBy | Function::SortBy if at == 1 => Parameter::Expref,
            _ => Parameter::Value,
        }
    }
}
