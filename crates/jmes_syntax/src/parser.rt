ghost use Rattle.std.specs.Prelude.{◌≡◌, ◌≤◌, ◌+◌, ◌⊎◌, length, MatchResult, IfOk, IfErr};
ghost use Rattle.jmes_syntax.specs.declared.expr.Expr.{Expr as Tree};
ghost use Rattle.jmes_syntax.specs.declared.parse_fault.ParseFault.{ParseFault as Fault};
ghost use Rattle.jmes_syntax.specs.declared.parse_fault.ParseFault.TheVariants.{OutOfMemory as NoMemory};
ghost use Rattle.jmes_syntax.specs.Reading.{left_of};
ghost use Rattle.jmes_syntax.specs.Grammar.{Expression};
ghost use Rattle.jmes_syntax.specs.Scans.{HasFault, IsPlaced, left_at};

use crate::lexer::{Lexed, lex};
use crate::reader::read_whole;
use crate::stop::Stop;
use crate::{Expr, ParseFault};
use json_doc::Text;
use std::alloc::Global;

/// Reads an expression (JMESPath specification, "Grammar").
pub fn parse(alloc: Global, text: &Text) -> Result<Expr, ParseFault>
    // What is read is the expression of the text; where it has one, that is read.
    ensures found { IfOk result (λ e. Expression text.now e) }
    ensures only { (e : Tree) → Expression text.now e → MatchResult result (λ d. d ≡ e) (λ f. f ≡ NoMemory) }

    // A fault is the first of the text; where it has one, that is answered.
    ensures fault { IfErr result (λ f. (f ≡ NoMemory) ⊎ HasFault text.now f) }
    ensures refused { (f : Fault) → HasFault text.now f → MatchResult result (λ _. ⊥) (λ g. (g ≡ f) ⊎ (g ≡ NoMemory)) }
{
    let bytes = text.as_str().as_bytes();
    let lexed = match lex(alloc, bytes) {
        Ok(lexed) => lexed,
        Err(_) => return Err(ParseFault::OutOfMemory),
    };
    match read_whole(alloc, lexed.tokens.as_slice(), lexed.left == 0) {
        Ok(expr) => Ok(expr),
        Err(stop) => Err(fault_of(bytes, &lexed, stop)),
    }
}

// The fault of a reason, at its place.
fn fault_of(bytes: &[u8], lexed: &Lexed, stop: Stop) -> ParseFault
    requires tokens { left_of stop ≤ length lexed.now.lefts }
    requires bytes { left_at lexed.now.lefts lexed.now.left (left_of stop) ≤ length bytes.now }
    ensures { IsPlaced lexed.now.lefts lexed.now.left (length bytes.now) stop result }
{
    match stop {
        Stop::Syntax(left) => ParseFault::Syntax(offset(bytes, lexed, left)),
        Stop::UnknownFunction(left) => ParseFault::UnknownFunction(offset(bytes, lexed, left)),
        Stop::Arity(left) => ParseFault::Arity(offset(bytes, lexed, left)),
        Stop::OutOfMemory => ParseFault::OutOfMemory,
    }
}

// How many bytes are left where so many tokens are.
fn bytes_left(lexed: &Lexed, tokens_left: usize) -> usize
    requires { tokens_left ≤ length lexed.now.lefts }
    ensures { result ≡ left_at lexed.now.lefts lexed.now.left tokens_left }
{
    if tokens_left == 0 {
        lexed.left
    } else {
        lexed.lefts.as_slice()[lexed.lefts.len() - tokens_left]
    }
}

fn offset(bytes: &[u8], lexed: &Lexed, tokens_left: usize) -> u64
    requires tokens { tokens_left ≤ length lexed.now.lefts }
    requires bytes { left_at lexed.now.lefts lexed.now.left tokens_left ≤ length bytes.now }
    ensures { result + left_at lexed.now.lefts lexed.now.left tokens_left ≡ length bytes.now }
{
    (bytes.len() - bytes_left(lexed, tokens_left)) as u64
}
