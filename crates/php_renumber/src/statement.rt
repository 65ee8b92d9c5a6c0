// Copies of statements.
#![tactic(auto, using(php_tree::proofs::Statements::statements))]

ghost use Rattle.std.specs.Prelude.{◌≡◌, ℕ, IfOk};
ghost use Rattle.php_tree.specs.StatementOf.{head_of, function_of, class_of, member_of, members_of, arm_of, arms_of, case_of, cases_of, catch_of, clauses_of, statement_of, statements_of};
ghost use Rattle.php_tree.specs.Statements as tree;
ghost use Rattle.php_tree.specs.Statements.{Arms, Cases, Clauses, Members};
ghost use Rattle.php_tree.specs.Renamed.{renamed_function, renamed_class, renamed_members, renamed_arms, renamed_cases, renamed_clauses, renamed_statement, renamed_statements};
ghost use Rattle.php_tree.specs.declared.stmt.IfArm.{out-IfArm};
ghost use Rattle.php_tree.specs.declared.stmt.Catch.{out-Catch};
ghost use Rattle.php_renumber.specs.Numbers.{number_in};
ghost use Rattle.php_renumber.specs.Arms as spec;

use crate::expression::{boxed, exprs};
use crate::names::{class_name, text};
use crate::numbers::{Numbers, number};
use crate::part::{
    class_consts, class_name_or_none, class_names, const_decls, default, head, properties,
    signature, static_vars, text_or_none, variable_or_none, variables,
};
use php_tree::decl::{ClassDecl, FunDecl, Member, Signature};
use php_tree::expr::Expr;
use php_tree::file::Span;
use php_tree::name::ClassName;
use php_tree::stmt::{Catch, IfArm, Stmt, SwitchArm};
use sqlite_items::{Boxed, Items};
use std::alloc::{AllocError, Global};

fn with_body(head: Signature, body: Items<Stmt>, span: Span) -> FunDecl
    ensures { function_of result ≡ tree.with_body (head_of head) (statements_of body) span }
{
    let Signature {
        name,
        params,
        result: gives,
        line,
    } = head;
    FunDecl {
        name,
        params,
        result: gives,
        body,
        body_span: span,
        line,
    }
}

#[cycle(statements)]
fn function(alloc: Global, numbers: &Numbers, function: &FunDecl) -> Result<FunDecl, AllocError>
    ensures { IfOk result (λ copy. function_of copy ≡ renamed_function (number_in numbers.now) (function_of function.now)) }
{
    let params = function.params.as_slice();
    let head = head(
        alloc,
        numbers,
        &function.name,
        params,
        &function.result,
        function.line,
    )?;
    let body = stmts(alloc, numbers, function.body.as_slice())?;
    Ok(with_body(head, body, function.body_span))
}

#[cycle(statements)]
fn member(alloc: Global, numbers: &Numbers, member: &Member) -> Result<Member, AllocError>
    ensures { IfOk result (λ copy. (rest : Members ℕ) → member_of copy (renamed_members (number_in numbers.now) rest) ≡ renamed_members (number_in numbers.now) (member_of member.now rest)) }
{
    match member {
        Member::Constants(all, line) => {
            let all = class_consts(alloc, numbers, all.as_slice())?;
            Ok(Member::Constants(all, *line))
        }
        Member::Properties(modifiers, all, line) => {
            let all = properties(alloc, numbers, all.as_slice())?;
            Ok(Member::Properties(*modifiers, all, *line))
        }
        Member::Method(modifiers, method, line) => {
            let method = function(alloc, numbers, method.get())?;
            let method = Boxed::new(alloc, method)?;
            Ok(Member::Method(*modifiers, method, *line))
        }
        Member::Bodiless(modifiers, head, line) => {
            let head = signature(alloc, numbers, head.get())?;
            let head = Boxed::new(alloc, head)?;
            Ok(Member::Bodiless(*modifiers, head, *line))
        }
    }
}

#[cycle(statements)]
fn members(alloc: Global, numbers: &Numbers, all: &[Member]) -> Result<Items<Member>, AllocError>
    ensures { IfOk result (λ copies. members_of copies ≡ renamed_members (number_in numbers.now) (members_of all.now)) }
{
    let mut copies = Items::new(alloc);
    for one in all {
        let copy = member(alloc, numbers, one)?;
        copies.push(copy)?;
    }
    Ok(copies)
}

#[cycle(statements)]
fn class(alloc: Global, numbers: &Numbers, class: &ClassDecl) -> Result<ClassDecl, AllocError>
    ensures { IfOk result (λ copy. class_of copy ≡ renamed_class (number_in numbers.now) (class_of class.now)) }
{
    let name = class_name(alloc, &class.name)?;
    let parent = class_name_or_none(alloc, &class.parent)?;
    let interfaces = class_names(alloc, class.interfaces.as_slice())?;
    let members = members(alloc, numbers, class.members.as_slice())?;
    Ok(ClassDecl {
        kind: class.kind,
        name,
        parent,
        interfaces,
        members,
        line: class.line,
    })
}

// What an arm asks.
fn arm_test(arm: &IfArm) -> &Boxed<Expr>
    ensures { result.now ≡ spec.arm_test (out-IfArm arm.now) }
{
    match arm {
        IfArm::Arm(test, _) => test,
    }
}

// What an arm guards.
fn arm_body(arm: &IfArm) -> &[Stmt]
    ensures { result.now ≡ spec.arm_body (out-IfArm arm.now) }
{
    match arm {
        IfArm::Arm(_, body) => body.as_slice(),
    }
}

#[cycle(statements)]
fn arm(alloc: Global, numbers: &Numbers, arm: &IfArm) -> Result<IfArm, AllocError>
    ensures { IfOk result (λ copy. (rest : Arms ℕ) → arm_of copy (renamed_arms (number_in numbers.now) rest) ≡ renamed_arms (number_in numbers.now) (arm_of arm.now rest)) }
{
    let test = boxed(alloc, numbers, arm_test(arm))?;
    let body = stmts(alloc, numbers, arm_body(arm))?;
    Ok(IfArm::Arm(test, body))
}

#[cycle(statements)]
fn arms(alloc: Global, numbers: &Numbers, all: &[IfArm]) -> Result<Items<IfArm>, AllocError>
    ensures { IfOk result (λ copies. arms_of copies ≡ renamed_arms (number_in numbers.now) (arms_of all.now)) }
{
    let mut copies = Items::new(alloc);
    for one in all {
        let copy = arm(alloc, numbers, one)?;
        copies.push(copy)?;
    }
    Ok(copies)
}

#[cycle(statements)]
fn case(alloc: Global, numbers: &Numbers, case: &SwitchArm) -> Result<SwitchArm, AllocError>
    ensures { IfOk result (λ copy. (rest : Cases ℕ) → case_of copy (renamed_cases (number_in numbers.now) rest) ≡ renamed_cases (number_in numbers.now) (case_of case.now rest)) }
{
    match case {
        SwitchArm::Case(test, body) => {
            let test = boxed(alloc, numbers, test)?;
            let body = stmts(alloc, numbers, body.as_slice())?;
            Ok(SwitchArm::Case(test, body))
        }
        SwitchArm::Default(body) => {
            let body = stmts(alloc, numbers, body.as_slice())?;
            Ok(SwitchArm::Default(body))
        }
    }
}

#[cycle(statements)]
fn cases(
    alloc: Global,
    numbers: &Numbers,
    all: &[SwitchArm],
) -> Result<Items<SwitchArm>, AllocError>
    ensures { IfOk result (λ copies. cases_of copies ≡ renamed_cases (number_in numbers.now) (cases_of all.now)) }
{
    let mut copies = Items::new(alloc);
    for one in all {
        let copy = case(alloc, numbers, one)?;
        copies.push(copy)?;
    }
    Ok(copies)
}

// The classes that a clause catches.
fn clause_names(clause: &Catch) -> &[ClassName]
    ensures { result.now ≡ spec.clause_names (out-Catch clause.now) }
{
    match clause {
        Catch::Clause(names, _, _) => names.as_slice(),
    }
}

// The variable of what a clause caught.
fn clause_variable(clause: &Catch) -> u32
    ensures { result ≡ spec.clause_var (out-Catch clause.now) }
{
    match clause {
        Catch::Clause(_, variable, _) => *variable,
    }
}

// What is done where a clause catches.
fn clause_body(clause: &Catch) -> &[Stmt]
    ensures { result.now ≡ spec.clause_body (out-Catch clause.now) }
{
    match clause {
        Catch::Clause(_, _, body) => body.as_slice(),
    }
}

#[cycle(statements)]
fn clause(alloc: Global, numbers: &Numbers, clause: &Catch) -> Result<Catch, AllocError>
    ensures { IfOk result (λ copy. (rest : Clauses ℕ) → catch_of copy (renamed_clauses (number_in numbers.now) rest) ≡ renamed_clauses (number_in numbers.now) (catch_of clause.now rest)) }
{
    let names = class_names(alloc, clause_names(clause))?;
    let body = stmts(alloc, numbers, clause_body(clause))?;
    let variable = number(numbers, clause_variable(clause));
    Ok(Catch::Clause(names, variable, body))
}

#[cycle(statements)]
fn clauses(alloc: Global, numbers: &Numbers, all: &[Catch]) -> Result<Items<Catch>, AllocError>
    ensures { IfOk result (λ copies. clauses_of copies ≡ renamed_clauses (number_in numbers.now) (clauses_of all.now)) }
{
    let mut copies = Items::new(alloc);
    for one in all {
        let copy = clause(alloc, numbers, one)?;
        copies.push(copy)?;
    }
    Ok(copies)
}

/// A statement with other numbers for its variables. It calls itself as deep as the statement is.
#[cycle(statements)]
pub fn stmt(alloc: Global, numbers: &Numbers, stmt: &Stmt) -> Result<Stmt, AllocError>
    ensures { IfOk result (λ copy. statement_of copy ≡ renamed_statement (number_in numbers.now) (statement_of stmt.now)) }
{
    match stmt {
        Stmt::Inline(bytes, line) => {
            let bytes = text(alloc, bytes)?;
            Ok(Stmt::Inline(bytes, *line))
        }
        Stmt::Echo(all, line) => {
            let all = exprs(alloc, numbers, all.as_slice())?;
            Ok(Stmt::Echo(all, *line))
        }
        Stmt::Expr(e, line) => {
            let e = boxed(alloc, numbers, e)?;
            Ok(Stmt::Expr(e, *line))
        }
        Stmt::Empty(line) => Ok(Stmt::Empty(*line)),
        Stmt::Block(body, line) => {
            let body = stmts(alloc, numbers, body.as_slice())?;
            Ok(Stmt::Block(body, *line))
        }
        Stmt::If(all, last, line) => {
            let all = arms(alloc, numbers, all.as_slice())?;
            let last = stmts(alloc, numbers, last.as_slice())?;
            Ok(Stmt::If(all, last, *line))
        }
        Stmt::While(test, body, line) => {
            let test = boxed(alloc, numbers, test)?;
            let body = stmts(alloc, numbers, body.as_slice())?;
            Ok(Stmt::While(test, body, *line))
        }
        Stmt::Do(body, test, line) => {
            let body = stmts(alloc, numbers, body.as_slice())?;
            let test = boxed(alloc, numbers, test)?;
            Ok(Stmt::Do(body, test, *line))
        }
        Stmt::For(first, tests, steps, body, line) => {
            let first = exprs(alloc, numbers, first.as_slice())?;
            let tests = exprs(alloc, numbers, tests.as_slice())?;
            let steps = exprs(alloc, numbers, steps.as_slice())?;
            let body = stmts(alloc, numbers, body.as_slice())?;
            Ok(Stmt::For(first, tests, steps, body, *line))
        }
        Stmt::Foreach(value, key, element, body, line) => {
            let value = boxed(alloc, numbers, value)?;
            let key = variable_or_none(numbers, *key);
            let element = number(numbers, *element);
            let body = stmts(alloc, numbers, body.as_slice())?;
            Ok(Stmt::Foreach(value, key, element, body, *line))
        }
        Stmt::Switch(value, all, line) => {
            let value = boxed(alloc, numbers, value)?;
            let all = cases(alloc, numbers, all.as_slice())?;
            Ok(Stmt::Switch(value, all, *line))
        }
        Stmt::Break(levels, line) => Ok(Stmt::Break(*levels, *line)),
        Stmt::Continue(levels, line) => Ok(Stmt::Continue(*levels, *line)),
        Stmt::Return(value, line) => {
            let value = default(alloc, numbers, value)?;
            Ok(Stmt::Return(value, *line))
        }
        Stmt::Global(all, line) => {
            let all = variables(alloc, numbers, all.as_slice())?;
            Ok(Stmt::Global(all, *line))
        }
        Stmt::Static(all, line) => {
            let all = static_vars(alloc, numbers, all.as_slice())?;
            Ok(Stmt::Static(all, *line))
        }
        Stmt::Unset(places, line) => {
            let places = exprs(alloc, numbers, places.as_slice())?;
            Ok(Stmt::Unset(places, *line))
        }
        Stmt::Throw(value, line) => {
            let value = boxed(alloc, numbers, value)?;
            Ok(Stmt::Throw(value, *line))
        }
        Stmt::Try(body, all, line) => {
            let body = stmts(alloc, numbers, body.as_slice())?;
            let all = clauses(alloc, numbers, all.as_slice())?;
            Ok(Stmt::Try(body, all, *line))
        }
        Stmt::Function(declared, line) => {
            let declared = function(alloc, numbers, declared.get())?;
            let declared = Boxed::new(alloc, declared)?;
            Ok(Stmt::Function(declared, *line))
        }
        Stmt::Class(declared, line) => {
            let declared = class(alloc, numbers, declared.get())?;
            let declared = Boxed::new(alloc, declared)?;
            Ok(Stmt::Class(declared, *line))
        }
        Stmt::Const(all, line) => {
            let all = const_decls(alloc, numbers, all.as_slice())?;
            Ok(Stmt::Const(all, *line))
        }
        Stmt::Removed(kind, path, name, line) => {
            let kind = text(alloc, kind)?;
            let path = text(alloc, path)?;
            let name = text_or_none(alloc, name)?;
            Ok(Stmt::Removed(kind, path, name, *line))
        }
    }
}

/// Statements with other numbers for their variables.
#[cycle(statements)]
pub fn stmts(alloc: Global, numbers: &Numbers, all: &[Stmt]) -> Result<Items<Stmt>, AllocError>
    ensures { IfOk result (λ copies. statements_of copies ≡ renamed_statements (number_in numbers.now) (statements_of all.now)) }
{
    let mut copies = Items::new(alloc);
    for one in all {
        let copy = stmt(alloc, numbers, one)?;
        copies.push(copy)?;
    }
    Ok(copies)
}
