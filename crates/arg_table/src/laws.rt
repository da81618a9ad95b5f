//! Laws of lines, as functions that do nothing.
ghost use Rattle.std.specs.Prelude.{◌≡◌, ◌≢◌, ◌++◌, ◌∷◌, [], ℕ, List, Some, Ok, IsTrue};
ghost use Rattle.arg_table.specs.declared.given.Given.{Given as Gift};
ghost use Rattle.arg_table.specs.declared.given.Given.TheVariants as given;
ghost use Rattle.arg_table.specs.declared.command.CommandHead.{CommandHead};
ghost use Rattle.arg_table.specs.declared.lines.Arg.{Arg};
ghost use Rattle.arg_table.specs.declared.lines.Line.{Line};
ghost use Rattle.arg_table.specs.declared.table.ArgTable.{ArgTable};
ghost use Rattle.arg_table.specs.Heads.{head_of};
ghost use Rattle.arg_table.specs.Laws.{IsHeadFault, IsLineFault, IsValueOr, arg_at, AreDistinct};
ghost use Rattle.arg_table.specs.Lines.{line_of, line_from, put_arg, members_of, is_given};

/// A line has a head or one fault of its words, and a head has a line or one fault beside the table; want
/// of memory is none of them.
pub fn a_line_is_one()
    ensures head { (words : List (List ℕ)) → IsValueOr IsHeadFault (head_of words) }
    ensures line { (table : ArgTable) (head : CommandHead) → IsValueOr IsLineFault (line_of table head) }
{}

/// Each member has one argument at most in a line, whether it was named by its name or by its `no-` form.
pub fn a_member_stands_once()
    ensures { (table : ArgTable) (head : CommandHead) (line : Line) → line_of table head ≡ Ok line → AreDistinct (members_of line.args) }
{}

/// An argument that is given again replaces the earlier one of its member in that one's place, and no
/// other argument moves or changes.
pub fn the_last_counts()
    ensures again { (givens : List Gift) (arg : Arg) → (line_from (givens ++ given.Argument arg ∷ [])).args ≡ put_arg (line_from givens).args arg }
    ensures value { (args : List Arg) (arg : Arg) → arg_at (put_arg args arg) arg.member ≡ Some arg }
    ensures places { (args : List Arg) (arg : Arg) → IsTrue (is_given args arg.member) → members_of (put_arg args arg) ≡ members_of args }
    ensures others { (args : List Arg) (arg : Arg) (member : ℕ) → member ≢ arg.member → arg_at (put_arg args arg) member ≡ arg_at args member }
{}
