//! An operand: its head, what stands directly after it, its indexes and members, and how it ends.

ghost use Rattle.std.specs.Prelude.{◌≡◌, IfOk};
ghost use Rattle.php_building.specs.Operands.{begun_of};
ghost use Rattle.php_grammar.specs.Act as spec;
ghost use Rattle.php_building.specs.Parts.{tail_of, first_of, ending_of, const_tail_of};
ghost use Rattle.php_tree.specs.ExpressionOf.{expression_of, expressions_of, expression_or_none, accesses_of};

use crate::part::{ConstTail, Ending, First, Tail};
use backward_list::Backward;
use php_tree::expr::{Access, Expr};
use php_tree::name::{ClassName, ConstName, FunName};
use sqlite_items::{Boxed, Items};
use std::alloc::{AllocError, Global};

/// What an operand begins with. The last number is a line.
#[derive(Drop)]
pub enum Begun {
    Word(Items<u8>, u32),
    Variable(u32, u32),
    NewClass(ClassName, u32),
    NewVariable(u32, u32),
    Given(Expr),
}

/// It by itself.
#[tactic(auto, using(php_tree::proofs::Expressions::expressions))]
fn alone(alloc: Global, begun: Begun) -> Expr
    ensures { expression_of result ≡ spec.alone (begun_of begun) }
{
    match begun {
        Begun::Word(text, line) => Expr::Constant(ConstName { text }, line),
        Begun::Variable(number, line) => Expr::Var(number, line),
        Begun::NewClass(name, line) => Expr::New(name, Items::new(alloc), line),
        Begun::NewVariable(number, line) => Expr::NewVar(number, Items::new(alloc), line),
        Begun::Given(expr) => expr,
    }
}

/// It with arguments.
#[tactic(auto, using(php_tree::proofs::Expressions::expressions))]
fn called(begun: Begun, args: Items<Expr>) -> Expr
    ensures { expression_of result ≡ spec.called (begun_of begun) (expressions_of args) }
{
    match begun {
        Begun::Word(text, line) => Expr::Call(FunName { text, line }, args, line),
        Begun::Variable(number, line) => Expr::CallVar(number, args, line),
        Begun::NewClass(name, line) => Expr::New(name, args, line),
        Begun::NewVariable(number, line) => Expr::NewVar(number, args, line),
        Begun::Given(expr) => expr,
    }
}

/// An `exit` with what is given to it.
#[tactic(auto, using(php_tree::proofs::Expressions::expressions))]
fn exited(head: Expr, given: Option<Boxed<Expr>>) -> Expr
    ensures { expression_of result ≡ spec.exited (expression_of head) (expression_or_none given) }
{
    match given {
        Some(expr) => {
            let line = head.line();
            Expr::ExitWith(expr, line)
        }
        None => head,
    }
}

/// A head with indexes and members.
#[tactic(auto, using(crate::proofs::Operands::operands))]
pub fn posted(
    alloc: Global,
    head: Expr,
    accesses: Backward<Access<Expr>>,
) -> Result<Expr, AllocError>
    ensures { IfOk result (λ made. expression_of made ≡ spec.posted (expression_of head) (accesses_of accesses)) }
{
    let mut accesses = accesses;
    match accesses.pop() {
        None => Ok(head),
        Some(first) => {
            accesses.push(first)?;
            let line = head.line();
            let head = Boxed::new(alloc, head)?;
            Ok(Expr::Post(head, accesses.into_items(), line))
        }
    }
}

/// The number of a variable.
#[tactic(auto, using(php_tree::proofs::Expressions::expressions))]
fn number_of(expr: &Expr) -> u32
    ensures { result ≡ spec.number_of (expression_of expr.now) }
{
    match expr {
        Expr::Var(number, _) => *number,
        _ => 0,
    }
}

/// A place with how the operand ends.
#[tactic(auto, using(php_tree::proofs::Expressions::expressions))]
fn ended(alloc: Global, head: Expr, ending: Ending) -> Result<Expr, AllocError>
    ensures { IfOk result (λ made. expression_of made ≡ spec.ended (expression_of head) (ending_of ending)) }
{
    let line = head.line();
    match ending {
        Ending::Nowhere => Ok(head),
        Ending::Sets(op, value) => {
            let head = Boxed::new(alloc, head)?;
            Ok(Expr::Assign(head, op, value, line))
        }
        Ending::Refers(other) => Ok(Expr::AssignReference(number_of(&head), other, line)),
        Ending::StepsBy(op) => {
            let head = Boxed::new(alloc, head)?;
            Ok(Expr::Step(op, head, line))
        }
    }
}

/// A head with its indexes and members and how it ends.
fn after(
    alloc: Global,
    head: Expr,
    accesses: Backward<Access<Expr>>,
    ending: Ending,
) -> Result<Expr, AllocError>
    ensures { IfOk result (λ made. expression_of made
        ≡ spec.ended (spec.posted (expression_of head) (accesses_of accesses)) (ending_of ending)) }
{
    let head = posted(alloc, head, accesses)?;
    let made = ended(alloc, head, ending)?;
    Ok(made)
}

/// A class and what stands after its `::`.
#[tactic(auto, using(php_tree::proofs::Expressions::expressions))]
fn member_of(text: Items<u8>, line: u32, first: First) -> Expr
    ensures { expression_of result ≡ spec.member_of text line (first_of first) }
{
    match first {
        First::AtProperty(member) => Expr::StaticProperty(ClassName { text, line }, member, line),
        First::AtClass => Expr::ClassText(ClassName { text, line }, line),
        First::AtMember(member) => Expr::ClassConstant(ClassName { text, line }, member, line),
        First::AtCall(member, args) => {
            Expr::StaticCall(ClassName { text, line }, member, args.into_items(), line)
        }
        _ => Expr::Constant(ConstName { text }, line),
    }
}

/// A class with what follows it.
pub fn named(alloc: Global, text: Items<u8>, line: u32, tail: Tail) -> Result<Expr, AllocError>
    ensures { IfOk result (λ made. expression_of made ≡ spec.named text line (tail_of tail)) }
{
    let Tail {
        first,
        accesses,
        ending,
    } = tail;
    let head = member_of(text, line, first);
    let made = after(alloc, head, accesses, ending)?;
    Ok(made)
}

/// A head with what stands directly after it.
fn headed(alloc: Global, begun: Begun, first: First) -> Expr
    ensures { expression_of result ≡ spec.headed (begun_of begun) (first_of first) }
{
    match first {
        First::Arguments(args) => called(begun, args.into_items()),
        First::GivenTo(given) => exited(alone(alloc, begun), given),
        First::Nothing => alone(alloc, begun),
        first => match begun {
            Begun::Word(text, line) => member_of(text, line, first),
            begun => alone(alloc, begun),
        },
    }
}

/// An operand.
pub fn finished(alloc: Global, begun: Begun, tail: Tail) -> Result<Expr, AllocError>
    ensures { IfOk result (λ made. expression_of made ≡ spec.finished (begun_of begun) (tail_of tail)) }
{
    let Tail {
        first,
        accesses,
        ending,
    } = tail;
    let head = headed(alloc, begun, first);
    let made = after(alloc, head, accesses, ending)?;
    Ok(made)
}

/// A word of a constant expression with what stands after it.
#[tactic(auto, using(php_tree::proofs::Expressions::expressions))]
pub fn const_named(text: Items<u8>, line: u32, tail: ConstTail) -> Expr
    ensures { expression_of result ≡ spec.const_named text line (const_tail_of tail) }
{
    match tail {
        ConstTail::OnlyWord => Expr::Constant(ConstName { text }, line),
        ConstTail::ClassForm => Expr::ClassText(ClassName { text, line }, line),
        ConstTail::ClassMember(member) => Expr::ClassConstant(
            ClassName { text, line },
            member,
            line,
        ),
        ConstTail::ArrayOfItems(items) => Expr::Array(items.into_items(), line),
    }
}
