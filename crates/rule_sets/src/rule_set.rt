use json_doc::Doc;
use rule_terms::Expression;
use texts::{List, Text};

/// The most leaves of a rule set.
pub const MOST_LEAVES: usize = 100_000;

/// The rules of a service: botocore's `endpoint-rule-set-1.json`, cut into its leaves.
#[derive(Debug, Drop)]
pub struct RuleSet {
    pub parameters: List<Parameter>,
    /// The conditions of each rule, in the order of the document.
    pub conditions: List<List<Condition>>,
    /// The rules that answer, in the order of the document.
    pub leaves: List<Leaf>,
}

/// What the rules are asked with.
#[derive(Debug, Drop)]
pub struct Parameter {
    pub name: Text,
    /// The name of the setting that it takes where nothing stands under its own.
    pub built_in: Option<Text>,
    pub required: bool,
    /// A list of texts, which is always unset.
    pub is_list: bool,
    pub default: Option<Doc>,
}

/// A condition: it holds where its value is neither null nor false.
#[derive(Debug, Drop)]
pub struct Condition {
    pub call: Expression,
    /// The name under which what follows on the path sees the value.
    pub assign: Option<Text>,
}

/// A rule that answers. It shares the conditions of its path with others.
#[derive(Debug, Drop)]
pub struct Leaf {
    /// Where the rule stands in the document.
    pub place: Text,
    /// The numbers of the rules on its path, from the outermost to itself.
    pub path: List<usize>,
    pub answer: Answer,
}

/// What a leaf answers.
#[derive(Debug, Drop)]
pub enum Answer {
    /// The endpoint at this URL, with the ways to sign, of which each text is a template.
    Endpoint(Expression, List<Doc>),
    /// A fault with this text.
    Error(Expression),
}
