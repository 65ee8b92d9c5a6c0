//! Lists that are popped. Where something else stands there, the list is empty.

ghost use Rattle.std.specs.Prelude.{◌≡◌, map};
ghost use Rattle.php_grammar.specs.Values.{as_stmts, as_exprs, as_links, as_branches, as_accesses, as_items, as_vars, as_statics, as_constants, as_class_constants, as_properties, as_names, as_params, as_cases, as_clauses, as_members};
ghost use Rattle.php_pieces.specs.Pieces.{values_of};
ghost use Rattle.php_pieces.specs.Stacks.{top, under};
ghost use Rattle.php_tree.specs.ExpressionOf.{expressions_of, items_of, accesses_of, links_of, branches_of};
ghost use Rattle.php_tree.specs.StatementOf.{statements_of, cases_of, clauses_of, members_of, parameter_of, static_of, constant_of, class_constant_of, property_of};

use backward_list::Backward;
use php_pieces::piece::Piece;
use php_pieces::stack::{Stack, pop};
use php_tree::decl::{ClassConst, Member, Param, PropertyDecl};
use php_tree::expr::{Access, Branch, ChainOp, Expr, Item};
use php_tree::name::ClassName;
use php_tree::stmt::{Catch, ConstDecl, StaticVar, Stmt, SwitchArm};
use std::alloc::Global;

/// Statements.
pub fn pop_stmts(alloc: Global, stack: &mut Stack<'_>) -> Backward<Stmt>
    ensures value { statements_of result ≡ as_stmts (top (values_of stack.old)) }
    ensures rest { values_of stack.new ≡ under (values_of stack.old) }
{
    match pop(stack) {
        Piece::Stmts(stmts) => stmts,
        other => {
            drop(other);
            Backward::new(alloc)
        }
    }
}

/// Expressions.
pub fn pop_exprs(alloc: Global, stack: &mut Stack<'_>) -> Backward<Expr>
    ensures value { expressions_of result ≡ as_exprs (top (values_of stack.old)) }
    ensures rest { values_of stack.new ≡ under (values_of stack.old) }
{
    match pop(stack) {
        Piece::Exprs(exprs) => exprs,
        other => {
            drop(other);
            Backward::new(alloc)
        }
    }
}

/// What a chain goes on with.
pub fn pop_links(alloc: Global, stack: &mut Stack<'_>) -> Backward<(ChainOp, Expr)>
    ensures value { links_of result ≡ as_links (top (values_of stack.old)) }
    ensures rest { values_of stack.new ≡ under (values_of stack.old) }
{
    match pop(stack) {
        Piece::Links(links) => links,
        other => {
            drop(other);
            Backward::new(alloc)
        }
    }
}

/// What stands after each `?`.
pub fn pop_branches(alloc: Global, stack: &mut Stack<'_>) -> Backward<Branch<Expr>>
    ensures value { branches_of result ≡ as_branches (top (values_of stack.old)) }
    ensures rest { values_of stack.new ≡ under (values_of stack.old) }
{
    match pop(stack) {
        Piece::Branches(branches) => branches,
        other => {
            drop(other);
            Backward::new(alloc)
        }
    }
}

/// Indexes and members.
pub fn pop_accesses(alloc: Global, stack: &mut Stack<'_>) -> Backward<Access<Expr>>
    ensures value { accesses_of result ≡ as_accesses (top (values_of stack.old)) }
    ensures rest { values_of stack.new ≡ under (values_of stack.old) }
{
    match pop(stack) {
        Piece::Accesses(accesses) => accesses,
        other => {
            drop(other);
            Backward::new(alloc)
        }
    }
}

/// Items of an array.
pub fn pop_items(alloc: Global, stack: &mut Stack<'_>) -> Backward<Item<Expr>>
    ensures value { items_of result ≡ as_items (top (values_of stack.old)) }
    ensures rest { values_of stack.new ≡ under (values_of stack.old) }
{
    match pop(stack) {
        Piece::Items(items) => items,
        other => {
            drop(other);
            Backward::new(alloc)
        }
    }
}

/// Variables, by their numbers.
pub fn pop_vars(alloc: Global, stack: &mut Stack<'_>) -> Backward<u32>
    ensures value { result ≡ as_vars (top (values_of stack.old)) }
    ensures rest { values_of stack.new ≡ under (values_of stack.old) }
{
    match pop(stack) {
        Piece::Vars(vars) => vars,
        other => {
            drop(other);
            Backward::new(alloc)
        }
    }
}

/// Variables of a `static` statement.
pub fn pop_statics(alloc: Global, stack: &mut Stack<'_>) -> Backward<StaticVar>
    ensures value { map static_of result ≡ as_statics (top (values_of stack.old)) }
    ensures rest { values_of stack.new ≡ under (values_of stack.old) }
{
    match pop(stack) {
        Piece::Statics(statics) => statics,
        other => {
            drop(other);
            Backward::new(alloc)
        }
    }
}

/// Constants.
pub fn pop_constants(alloc: Global, stack: &mut Stack<'_>) -> Backward<ConstDecl>
    ensures value { map constant_of result ≡ as_constants (top (values_of stack.old)) }
    ensures rest { values_of stack.new ≡ under (values_of stack.old) }
{
    match pop(stack) {
        Piece::Constants(constants) => constants,
        other => {
            drop(other);
            Backward::new(alloc)
        }
    }
}

/// Constants of a class.
pub fn pop_class_constants(alloc: Global, stack: &mut Stack<'_>) -> Backward<ClassConst>
    ensures value { map class_constant_of result ≡ as_class_constants (top (values_of stack.old)) }
    ensures rest { values_of stack.new ≡ under (values_of stack.old) }
{
    match pop(stack) {
        Piece::ClassConstants(class_constants) => class_constants,
        other => {
            drop(other);
            Backward::new(alloc)
        }
    }
}

/// Properties.
pub fn pop_properties(alloc: Global, stack: &mut Stack<'_>) -> Backward<PropertyDecl>
    ensures value { map property_of result ≡ as_properties (top (values_of stack.old)) }
    ensures rest { values_of stack.new ≡ under (values_of stack.old) }
{
    match pop(stack) {
        Piece::Properties(properties) => properties,
        other => {
            drop(other);
            Backward::new(alloc)
        }
    }
}

/// Names of classes.
pub fn pop_names(alloc: Global, stack: &mut Stack<'_>) -> Backward<ClassName>
    ensures value { result ≡ as_names (top (values_of stack.old)) }
    ensures rest { values_of stack.new ≡ under (values_of stack.old) }
{
    match pop(stack) {
        Piece::Names(names) => names,
        other => {
            drop(other);
            Backward::new(alloc)
        }
    }
}

/// Parameters.
pub fn pop_params(alloc: Global, stack: &mut Stack<'_>) -> Backward<Param>
    ensures value { map parameter_of result ≡ as_params (top (values_of stack.old)) }
    ensures rest { values_of stack.new ≡ under (values_of stack.old) }
{
    match pop(stack) {
        Piece::Params(params) => params,
        other => {
            drop(other);
            Backward::new(alloc)
        }
    }
}

/// Arms of a `switch`.
pub fn pop_cases(alloc: Global, stack: &mut Stack<'_>) -> Backward<SwitchArm>
    ensures value { cases_of result ≡ as_cases (top (values_of stack.old)) }
    ensures rest { values_of stack.new ≡ under (values_of stack.old) }
{
    match pop(stack) {
        Piece::Cases(cases) => cases,
        other => {
            drop(other);
            Backward::new(alloc)
        }
    }
}

/// What a `try` catches.
pub fn pop_clauses(alloc: Global, stack: &mut Stack<'_>) -> Backward<Catch>
    ensures value { clauses_of result ≡ as_clauses (top (values_of stack.old)) }
    ensures rest { values_of stack.new ≡ under (values_of stack.old) }
{
    match pop(stack) {
        Piece::Clauses(clauses) => clauses,
        other => {
            drop(other);
            Backward::new(alloc)
        }
    }
}

/// Members of a class.
pub fn pop_members(alloc: Global, stack: &mut Stack<'_>) -> Backward<Member>
    ensures value { members_of result ≡ as_members (top (values_of stack.old)) }
    ensures rest { values_of stack.new ≡ under (values_of stack.old) }
{
    match pop(stack) {
        Piece::Members(members) => members,
        other => {
            drop(other);
            Backward::new(alloc)
        }
    }
}
