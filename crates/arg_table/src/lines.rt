//! A command's line against the table of its operation.
ghost use Rattle.std.specs.Prelude.{◌≡◌, if◌then◌else◌, None, OnOk, IfOk, option_map};
ghost use Rattle.std.specs.List.{list_any};
ghost use Rattle.std.specs.Option.{option_copied};
ghost use Rattle.std.specs.Str.{chars};
ghost use Rattle.arg_table.specs.Lines.{line_of, line_from, with_given, put_arg, paging_name, first_paging, is_paged, missing_of, members_of, is_given, has_conflict, no_conflict, no_missing};
ghost use Rattle.arg_table.specs.Inside.{IsGathered};
ghost use Rattle.arg_table.specs.Faults.{is_memory};
ghost use Rattle.texts.specs.Calls.{Answers};

use crate::given::{Given, given_in};
use crate::{ArgTable, CommandHead, UsageFault};
use indexmap::IndexSet;
use std::alloc::Global;
use texts::{List, OutOfMemory, Text};

/// What an operation's line says.
#[derive(Debug, Drop)]
pub struct Line {
    /// The arguments, in the line's order; one that stands again replaces the earlier one in its place.
    pub args: List<Arg>,
    /// The text of `--cli-input-json`.
    pub input_json: Option<Text>,
    /// The text of `--starting-token`.
    pub start: Option<Text>,
    /// The count of `--max-items`.
    pub max: Option<u64>,
    /// The count of `--page-size`.
    pub page: Option<u64>,
}

/// An argument of a line.
#[derive(Debug, Drop)]
pub struct Arg {
    /// The member's place in the input.
    pub member: u32,
    pub words: List<Text>,
    /// Whether it is the `no-` form of a flag.
    pub no: bool,
}

impl ArgTable {
    /// Reads the options behind a command of this operation. The first fault from the left is answered,
    /// then options for pages that don't go with the others, then the arguments that are missing.
    #[tactic(auto, unfolding(crate::specs::Lines::line_of))]
    pub fn split(&self, alloc: Global, head: &CommandHead) -> Result<Line, UsageFault>
        ensures { Answers is_memory (λ line. line) result (line_of self.now head.now) }
    {
        let given = given_in(alloc, self, head.wait, head.tail.as_slice())?;
        let option = first_paging(given.as_slice());
        let gathered = gather(alloc, given)?;
        self.refuse_conflict(alloc, head.paginate, option, &gathered.line)?;
        self.refuse_missing(alloc, &gathered)?;
        Ok(gathered.line)
    }

    /// Refuses an option for pages that doesn't go with the others.
    fn refuse_conflict(
        &self,
        alloc: Global,
        paginate: bool,
        option: Option<&str>,
        line: &Line,
    ) -> Result<(), UsageFault>
        ensures { Answers is_memory (λ x. x) result (no_conflict (if has_conflict self.now paginate line.now then option_map chars (option_copied option.entry) else None)) }
    {
        let Some(option) = option else {
            return Ok(());
        };
        if self.has_conflict(paginate, line) {
            return Err(UsageFault::PaginateConflict(Text::from_str(alloc, option)?));
        }
        Ok(())
    }

    /// Whether options for pages don't go with the others.
    fn has_conflict(&self, paginate: bool, line: &Line) -> bool
        ensures { result ≡ has_conflict self.now paginate line.now }
    {
        !paginate || self.has_paged(line)
    }

    /// Whether an argument takes a token or the length of a page.
    fn has_paged(&self, line: &Line) -> bool
        ensures { result ≡ list_any (is_paged self.now) line.now.args }
    {
        let args = line.args.as_slice();
        for arg in args {
            if self.is_paged(arg) {
                return true;
            }
        }
        false
    }

    fn is_paged(&self, arg: &Arg) -> bool
        ensures { result ≡ is_paged self.now arg.now }
    {
        match self.arguments.get(arg.member as usize) {
            Some(argument) => argument.is_paged,
            None => false,
        }
    }

    /// Refuses a line without the arguments that are needed.
    fn refuse_missing(&self, alloc: Global, gathered: &Gathered) -> Result<(), UsageFault>
        requires { IsGathered gathered.now }
        ensures { Answers is_memory (λ x. x) result (no_missing (missing_of self.now gathered.now.line)) }
    {
        let missing = self.missing(alloc, gathered)?;
        if missing.is_empty() {
            return Ok(());
        }
        Err(UsageFault::MissingArguments(missing))
    }

    /// The names of the arguments that are needed and not given.
    fn missing(&self, alloc: Global, gathered: &Gathered) -> Result<List<Text>, OutOfMemory>
        requires { IsGathered gathered.now }
        ensures { IfOk result (λ missing. missing ≡ missing_of self.now gathered.now.line) }
    {
        let mut missing = List::new(alloc);
        if gathered.line.input_json.is_some() {
            return Ok(missing);
        }
        let arguments = self.arguments.as_slice();
        for argument in arguments {
            if argument.is_needed && !gathered.has(argument.member) {
                missing.push(argument.name.copy(alloc)?)?;
            }
        }
        Ok(missing)
    }
}

/// A line and the members of its arguments, in the same order.
#[derive(Drop)]
struct Gathered {
    line: Line,
    members: IndexSet<u32>,
}

/// The line of what its options give.
fn gather(alloc: Global, given: Vec<Given>) -> Result<Gathered, OutOfMemory>
    ensures line { IfOk result (λ made. made.line ≡ line_from given.items) }
    ensures members { IfOk result IsGathered }
{
    let mut made = Gathered {
        line: Line {
            args: List::new(alloc),
            input_json: None,
            start: None,
            max: None,
            page: None,
        },
        members: IndexSet::new(alloc),
    };
    for one in given {
        made.add(one)?;
    }
    Ok(made)
}

impl Gathered {
    /// One option more, which replaces an earlier one.
    fn add(&mut self, given: Given) -> Result<(), OutOfMemory>
        requires { IsGathered self.old }
        ensures line { OnOk result (self.new.line ≡ with_given self.old.line given) }
        ensures members { OnOk result (IsGathered self.new) }
    {
        match given {
            Given::Argument(arg) => put_arg(&mut self.members, &mut self.line.args, arg)?,
            Given::InputJson(text) => self.line.input_json = Some(text),
            Given::StartingToken(text) => self.line.start = Some(text),
            Given::MaxItems(count) => self.line.max = Some(count),
            Given::PageSize(count) => self.line.page = Some(count),
        }
        Ok(())
    }

    /// Whether an argument of this member was given.
    fn has(&self, member: u32) -> bool
        requires { IsGathered self.now }
        ensures { result ≡ is_given self.now.line.args member }
    {
        self.members.contains(&member)
    }
}

/// Puts an argument in the place of the earlier one of its member, or at the end.
fn put_arg(members: &mut IndexSet<u32>, args: &mut List<Arg>, arg: Arg) -> Result<(), OutOfMemory>
    requires { members.old.keys ≡ members_of args.old }
    ensures args { OnOk result (args.new ≡ put_arg args.old arg) }
    ensures members { OnOk result (members.new.keys ≡ members_of args.new) }
{
    let (place, is_new) = members.insert_full(arg.member)?;
    if is_new {
        args.push(arg)?;
        return Ok(());
    }
    args.set(place, arg);
    Ok(())
}

/// The name of the first option for pages.
fn first_paging(givens: &[Given]) -> Option<&'static str>
    ensures { option_copied result ≡ first_paging givens.now }
{
    for given in givens {
        if let Some(name) = paging_name(given) {
            return Some(name);
        }
    }
    None
}

fn paging_name(given: &Given) -> Option<&'static str>
    ensures { option_copied result ≡ paging_name given.now }
{
    match given {
        Given::StartingToken(_) => Some("starting-token"),
        Given::MaxItems(_) => Some("max-items"),
        Given::PageSize(_) => Some("page-size"),
        _ => None,
    }
}
