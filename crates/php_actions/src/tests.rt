// Rules and operators, through a stack. Each token is of line 7, and stands for the variable 3.

use crate::{join, leaf, reduce};
use backward_list::Backward;
use php_grammar::lexeme::{Bytes, Lexeme};
use php_grammar::part::{Context, Level, Part, Rule, Seen};
use php_grammar::token::{Detail, Kind};
use php_pieces::piece::Piece;
use php_pieces::stack::{Stack, pop};
use php_tree::decl::{ClassKind, Member, Visibility};
use php_tree::expr::{Access, ChainOp, Expr};
use php_tree::stmt::{IfArm, Stmt};
use sqlite_items::Items;
use std::alloc::{AllocError, Global};
use std::test::Fail;

fn token(alloc: Global, kind: Kind, detail: Detail, text: &'static [u8]) -> Lexeme<'static> {
    Lexeme {
        kind,
        detail,
        at: 0,
        line: 7,
        number: 3,
        int: 2,
        text: Bytes::new(text),
        parts: Items::new(alloc),
    }
}

/// Several rules, one after the other.
fn reduce_all(alloc: Global, rules: &[Rule], stack: &mut Stack<'_>) -> Result<(), AllocError> {
    for rule in rules {
        reduce(alloc, *rule, stack)?;
    }
    Ok(())
}

/// A whole number as an operand.
fn int<'t>(alloc: Global, token: &'t Lexeme<'t>, stack: &mut Stack<'t>) -> Result<(), AllocError> {
    leaf(stack, token)?;
    reduce_all(
        alloc,
        &[
            Rule::NoneOf(Part::Tail(Seen::OtherSeen, true)),
            Rule::IntPrim(true),
        ],
        stack,
    )
}

/// `2 - 2;`
#[test]
fn a_difference_is_a_chain(rt: HostRuntime) -> Result<(), Fail> {
    let alloc = rt.alloc();
    let two = token(alloc, Kind::Int, Detail::Only, b"2");
    let minus = token(alloc, Kind::Sign, Detail::Minus, b"-");
    let mut stack = Backward::new(alloc);
    read_difference(alloc, &two, &minus, &mut stack)?;
    let piece = pop(&mut stack);
    let right = is_difference(&piece);
    drop(piece);
    assert!(rt; right);
    Ok(())
}

fn read_difference<'t>(
    alloc: Global,
    two: &'t Lexeme<'t>,
    minus: &'t Lexeme<'t>,
    stack: &mut Stack<'t>,
) -> Result<(), AllocError> {
    int(alloc, two, stack)?;
    leaf(stack, minus)?;
    int(alloc, two, stack)?;
    let sum = Part::Operators(Context::InFull, Level::Sum);
    reduce_all(alloc, &[Rule::NoneOf(sum), Rule::SignStep], stack)?;
    join(alloc, stack)?;
    leaf(stack, minus)?;
    reduce(alloc, Rule::ExprStmt, stack)?;
    Ok(())
}

fn is_difference(piece: &Piece<'_>) -> bool {
    match piece {
        Piece::Stmt(Stmt::Expr(expr, 7)) => match expr.get() {
            Expr::Chain(first, links, 7) => match links.as_slice() {
                [(ChainOp::Sub, Expr::Int(2, 7))] => matches!(first.get(), Expr::Int(2, 7)),
                _ => false,
            },
            _ => false,
        },
        _ => false,
    }
}

/// `$v[2]` and then `f(2)`
#[test]
fn operands_have_indexes_and_arguments(rt: HostRuntime) -> Result<(), Fail> {
    let alloc = rt.alloc();
    let two = token(alloc, Kind::Int, Detail::Only, b"2");
    let word = token(alloc, Kind::Word, Detail::Only, b"f");
    let mut stack = Backward::new(alloc);
    leaf(&mut stack, &word)?;
    leaf(&mut stack, &word)?;
    int(alloc, &two, &mut stack)?;
    leaf(&mut stack, &word)?;
    let none = Rule::NoneOf(Part::Tail(Seen::OtherSeen, true));
    reduce_all(
        alloc,
        &[
            none,
            Rule::AtIndexPlace(true),
            Rule::OpenIndex(true, true),
            Rule::VarPrim(true),
        ],
        &mut stack,
    )?;
    let piece = pop(&mut stack);
    let right = is_indexed(&piece);
    drop(piece);
    assert!(rt; right);
    leaf(&mut stack, &word)?;
    leaf(&mut stack, &word)?;
    int(alloc, &two, &mut stack)?;
    reduce_all(
        alloc,
        &[Rule::NoneOf(Part::MoreArgs), Rule::SomeArgs],
        &mut stack,
    )?;
    leaf(&mut stack, &word)?;
    reduce_all(
        alloc,
        &[none, Rule::CallArgs(true), Rule::WordPrim(true)],
        &mut stack,
    )?;
    let piece = pop(&mut stack);
    let right = is_call(&piece);
    drop(piece);
    assert!(rt; right);
    Ok(())
}

fn is_indexed(piece: &Piece<'_>) -> bool {
    match piece {
        Piece::Expr(Expr::Post(head, accesses, 7)) => match accesses.as_slice() {
            [Access::Index(Expr::Int(2, 7))] => matches!(head.get(), Expr::Var(3, 7)),
            _ => false,
        },
        _ => false,
    }
}

fn is_call(piece: &Piece<'_>) -> bool {
    match piece {
        Piece::Expr(Expr::Call(name, args, 7)) => {
            let named = name.text.as_slice() == b"f".as_slice();
            named && matches!(args.as_slice(), [Expr::Int(2, 7)])
        }
        _ => false,
    }
}

/// `if (2) ; else ;`
#[test]
fn an_if_has_its_arm_and_its_else(rt: HostRuntime) -> Result<(), Fail> {
    let alloc = rt.alloc();
    let two = token(alloc, Kind::Int, Detail::Only, b"2");
    let sign = token(alloc, Kind::Semi, Detail::Only, b";");
    let mut stack = Backward::new(alloc);
    read_if(alloc, &two, &sign, &mut stack)?;
    let piece = pop(&mut stack);
    let right = is_if(&piece);
    drop(piece);
    assert!(rt; right);
    Ok(())
}

fn read_if<'t>(
    alloc: Global,
    two: &'t Lexeme<'t>,
    sign: &'t Lexeme<'t>,
    stack: &mut Stack<'t>,
) -> Result<(), AllocError> {
    leaf(stack, sign)?;
    leaf(stack, sign)?;
    int(alloc, two, stack)?;
    leaf(stack, sign)?;
    leaf(stack, sign)?;
    reduce(alloc, Rule::EmptyStmt, stack)?;
    leaf(stack, sign)?;
    leaf(stack, sign)?;
    let rules = [
        Rule::EmptyStmt,
        Rule::ElseSingle,
        Rule::IfSingle,
        Rule::IfStmt,
    ];
    reduce_all(alloc, &rules, stack)?;
    Ok(())
}

fn is_if(piece: &Piece<'_>) -> bool {
    match piece {
        Piece::Stmt(Stmt::If(arms, last, 7)) => match arms.as_slice() {
            [IfArm::Arm(test, guarded)] => {
                let one = matches!(guarded.as_slice(), [Stmt::Empty(7)]);
                let other = matches!(last.as_slice(), [Stmt::Empty(7)]);
                one && other && matches!(test.get(), Expr::Int(2, 7))
            }
            _ => false,
        },
        _ => false,
    }
}

/// `class c { private function c() {} }`
#[test]
fn a_class_has_its_method(rt: HostRuntime) -> Result<(), Fail> {
    let alloc = rt.alloc();
    let word = token(alloc, Kind::Word, Detail::Only, b"c");
    let hidden = token(
        alloc,
        Kind::Visibility,
        Detail::Visible(Visibility::Private),
        b"private",
    );
    let mut stack = Backward::new(alloc);
    read_class(alloc, &word, &hidden, &mut stack)?;
    let piece = pop(&mut stack);
    let right = is_class(&piece);
    drop(piece);
    assert!(rt; right);
    Ok(())
}

fn read_class<'t>(
    alloc: Global,
    word: &'t Lexeme<'t>,
    hidden: &'t Lexeme<'t>,
    stack: &mut Stack<'t>,
) -> Result<(), AllocError> {
    leaf(stack, word)?;
    leaf(stack, word)?;
    reduce_all(
        alloc,
        &[
            Rule::APlainWord,
            Rule::NoneOf(Part::MaybeParent),
            Rule::NoneOf(Part::MaybeInterfaces),
        ],
        stack,
    )?;
    leaf(stack, word)?;
    leaf(stack, hidden)?;
    leaf(stack, word)?;
    leaf(stack, word)?;
    leaf(stack, word)?;
    reduce(alloc, Rule::NoneOf(Part::Params), stack)?;
    leaf(stack, word)?;
    reduce(alloc, Rule::NoneOf(Part::MaybeResult), stack)?;
    leaf(stack, word)?;
    reduce(alloc, Rule::NoneOf(Part::Stmts), stack)?;
    leaf(stack, word)?;
    reduce_all(
        alloc,
        &[
            Rule::WithBody,
            Rule::FunctionMember(false),
            Rule::VisibleMod(false, false, false, false, false),
            Rule::NoneOf(Part::Members(false)),
            Rule::SomeMembers(false),
        ],
        stack,
    )?;
    leaf(stack, word)?;
    reduce(alloc, Rule::PlainClass, stack)?;
    Ok(())
}

fn is_class(piece: &Piece<'_>) -> bool {
    match piece {
        Piece::Stmt(Stmt::Class(class, 7)) => {
            let class = class.get();
            let plain = matches!(class.kind, ClassKind::Plain);
            match class.members.as_slice() {
                [Member::Method(words, method, 7)] => {
                    let hidden = matches!(words.visibility, Some(Visibility::Private));
                    plain && hidden && method.get().body.is_empty()
                }
                _ => false,
            }
        }
        _ => false,
    }
}
