//! What was read of a text: a token, or what was made of a part of the grammar.

use backward_list::Backward;
use php_building::part::{Body, ConstTail, Ending, IfParts, Join, Modded, Step, Tail};
use php_grammar::lexeme::Lexeme;
use php_tree::decl::{ClassConst, Hint, Member, Param, PropertyDecl};
use php_tree::expr::{Access, Branch, ChainOp, Expr, Item};
use php_tree::name::{ClassName, MemberName};
use php_tree::stmt::{Catch, ConstDecl, StaticVar, Stmt, SwitchArm};
use sqlite_items::{Boxed, Items};

/// What was read. Lists are held so that they grow at their front.
#[derive(Drop)]
pub enum Piece<'t> {
    Leaf(&'t Lexeme<'t>),
    Stmt(Stmt),
    Stmts(Backward<Stmt>),
    Expr(Expr),
    Exprs(Backward<Expr>),
    /// A class and what goes on with it, whose first token is not known yet.
    Begun(Tail, Items<Join>),
    Maybe(Option<Boxed<Expr>>),
    Links(Backward<(ChainOp, Expr)>),
    Branches(Backward<Branch<Expr>>),
    Branch(Branch<Expr>),
    Step(Step),
    Tail(Tail),
    Ending(Ending),
    Accesses(Backward<Access<Expr>>),
    Items(Backward<Item<Expr>>),
    /// What stands after the word `array`: items, or `::`; and what goes on with it.
    Array(Option<Backward<Item<Expr>>>, Tail),
    /// What stands after a class and `::` in a place.
    Static(MemberName, Backward<Access<Expr>>),
    Named(ConstTail),
    Class(ClassName),
    /// The number of a variable.
    Var(u32),
    Vars(Backward<u32>),
    /// The variable after `=>`, where there is one.
    Second(Option<u32>),
    Statics(Backward<StaticVar>),
    Constants(Backward<ConstDecl>),
    ClassConstants(Backward<ClassConst>),
    Properties(Backward<PropertyDecl>),
    Text(Option<Items<u8>>),
    Int(i64),
    Names(Backward<ClassName>),
    Parent(Option<ClassName>),
    Hint(Option<Hint>),
    Params(Backward<Param>),
    Param(Param),
    /// Whether a `&` stands there.
    Amp(bool),
    Cases(Backward<SwitchArm>),
    Clauses(Backward<Catch>),
    Members(Backward<Member>),
    Body(Option<Body>),
    IfParts(IfParts),
    Modded(Modded),
    Unit,
}
