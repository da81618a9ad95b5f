//! The functions of the rules' language, by the names of AWS's documentation.
ghost use Rattle.std.specs.Prelude.{◌≡◌, IsTrue};
ghost use Rattle.texts.specs.Ascii.{is_ascii_text};
ghost use Rattle.rule_terms.specs.Functions.{function_named, name_of, arity_of};

use texts::Text;

/// A function that conditions and arguments may call.
#[derive(Clone, Copy, Debug, PartialEq, Eq)]
pub enum Function {
    BooleanEquals,
    GetAttr,
    IsSet,
    IsValidHostLabel,
    Not,
    ParseArn,
    ParseUrl,
    Partition,
    StringEquals,
    Substring,
    UriEncode,
}

/// All functions.
pub const FUNCTIONS: [Function; 11] = [
    Function::BooleanEquals,
    Function::GetAttr,
    Function::IsSet,
    Function::IsValidHostLabel,
    Function::Not,
    Function::ParseArn,
    Function::ParseUrl,
    Function::Partition,
    Function::StringEquals,
    Function::Substring,
    Function::UriEncode,
];

impl Function {
    /// The function with this name.
    pub fn named(name: &Text) -> Option<Function>
        ensures { result ≡ function_named name.now }
    {
        for function in &FUNCTIONS {
            if name.is(function.name()) {
                return Some(*function);
            }
        }
        None
    }

    /// Its name in rules.
    pub fn name(self) -> &'static str
        ensures value { result.now ≡ name_of self }
        ensures ascii { IsTrue (is_ascii_text result.now) }
    {
        match self {
            Function::BooleanEquals => "booleanEquals",
            Function::GetAttr => "getAttr",
            Function::IsSet => "isSet",
            Function::IsValidHostLabel => "isValidHostLabel",
            Function::Not => "not",
            Function::ParseArn => "aws.parseArn",
            Function::ParseUrl => "parseURL",
            Function::Partition => "aws.partition",
            Function::StringEquals => "stringEquals",
            Function::Substring => "substring",
            Function::UriEncode => "uriEncode",
        }
    }

    /// How many arguments it takes.
    pub fn arity(self) -> usize
        ensures { result ≡ arity_of self }
    {
        match self {
            Function::BooleanEquals => 2,
            Function::GetAttr => 2,
            Function::IsSet => 1,
            Function::IsValidHostLabel => 2,
            Function::Not => 1,
            Function::ParseArn => 1,
            Function::ParseUrl => 1,
            Function::Partition => 1,
            Function::StringEquals => 2,
            Function::Substring => 4,
            Function::UriEncode => 1,
        }
    }
}
