//! Each rule, with what it makes of what was read.

ghost use Rattle.std.specs.Prelude.{◌≡◌, ◌∷◌, OnOk};
ghost use Rattle.php_grammar.specs.Values as v;
ghost use Rattle.php_pieces.specs.Pieces.{values_of};
ghost use Rattle.php_pieces.specs.Stacks.{reduced};

use crate::absent::nothing;
use php_expression_actions::{
    arrays, constants, endings, heads, kept, lists, operators, places, tails, unary,
};
use php_grammar::lexeme::Lexeme;
use php_grammar::part::Rule;
use php_pieces::stack::{Stack, push_leaf};
use php_statement_actions::{branches, classes, control, decls, members, params, simple};
use std::alloc::{AllocError, Global};

/// A token is read.
pub fn leaf<'t>(stack: &mut Stack<'t>, token: &'t Lexeme<'t>) -> Result<(), AllocError>
    ensures { OnOk result (values_of stack.new ≡ v.leaf token.now ∷ values_of stack.old) }
{
    push_leaf(stack, token)?;
    Ok(())
}

/// What was read by a rule's symbols becomes one.
#[tactic(auto, unfolding(php_grammar::specs::Act::act, php_grammar::specs::Grammar::production))]
pub fn reduce(alloc: Global, rule: Rule, stack: &mut Stack<'_>) -> Result<(), AllocError>
    ensures { OnOk result (values_of stack.new ≡ reduced rule (values_of stack.old)) }
{
    match rule {
        Rule::NoneOf(part) => nothing(alloc, part, stack),
        // what goes on as it was read
        Rule::NoPrint
        | Rule::NoNot
        | Rule::NoUnary
        | Rule::ItemFull
        | Rule::ItemConst
        | Rule::CNoNot
        | Rule::CNoSign
        | Rule::PlainVar
        | Rule::ThisVar
        | Rule::APlainWord
        | Rule::AHintWord
        | Rule::NamedWord(_) => kept::kept(stack),
        Rule::OpenIndex(_, _)
        | Rule::Arrow(_, _)
        | Rule::Colons(_)
        | Rule::NextItem(_)
        | Rule::PlaceArrow
        | Rule::CColons
        | Rule::CArrayName
        | Rule::AResult => kept::after_token(stack),
        Rule::StaticExpr => kept::before_token(stack),
        Rule::ASemi | Rule::ArmColon | Rule::ArmSemi => kept::ignored(stack),
        // statements
        Rule::Whole => simple::whole(alloc, stack),
        Rule::SomeStmts => simple::some_stmts(alloc, stack),
        Rule::InlineText => simple::inline(alloc, stack),
        Rule::EchoTag | Rule::EchoWord => simple::echo(alloc, stack),
        Rule::EmptyStmt => simple::empty(stack),
        Rule::Block => simple::block(alloc, stack),
        Rule::JumpStmt => simple::jump(stack),
        Rule::ReturnStmt => simple::return_of(stack),
        Rule::GlobalStmt => simple::global(alloc, stack),
        Rule::UnsetStmt => simple::unset(alloc, stack),
        Rule::ThrowStmt => simple::throw(alloc, stack),
        Rule::ExprStmt => simple::expression(alloc, stack),
        Rule::RemovedStmt => simple::removed(alloc, stack),
        Rule::NextText => simple::next_text(alloc, stack),
        Rule::AnInt => simple::an_int(stack),
        Rule::NextVar => simple::next_var(alloc, stack),
        Rule::KeyThenValue => simple::key_then_value(stack),
        Rule::WhileStmt => control::while_loop(alloc, stack),
        Rule::DoStmt => control::do_loop(alloc, stack),
        Rule::ForStmt => control::for_loop(alloc, stack),
        Rule::ForeachStmt => control::foreach(alloc, stack),
        Rule::SwitchStmt => control::switch(alloc, stack),
        Rule::TryStmt => control::try_catch(alloc, stack),
        Rule::WhileListed | Rule::ForListed | Rule::ForeachListed => control::listed(stack),
        Rule::BodySingle => control::single(alloc, stack),
        Rule::SwitchBraced => control::braced(stack),
        Rule::SwitchListed => control::listed_arms(stack),
        Rule::CaseArm => control::case(alloc, stack),
        Rule::DefaultArm => control::default_case(alloc, stack),
        Rule::ACatch => control::catch(alloc, stack),
        Rule::IfStmt => branches::if_of(alloc, stack),
        Rule::IfListed => branches::listed(alloc, stack),
        Rule::IfSingle => branches::single(alloc, stack),
        Rule::ElseIf => branches::else_if(alloc, stack),
        Rule::ElseIfListed => branches::else_if_listed(alloc, stack),
        Rule::ElseSingle => branches::else_single(alloc, stack),
        Rule::ElseListed => branches::else_listed(alloc, stack),
        Rule::EndIf => branches::end_if(alloc, stack),
        // declarations
        Rule::NextCaught | Rule::TheInterfaces | Rule::TheParents | Rule::NextName =>
            params::next_name(alloc, stack),
        Rule::AParent => params::parent(alloc, stack),
        Rule::SomeParams => params::some_params(alloc, stack),
        Rule::NextParam => params::next_param(alloc, stack),
        Rule::AParam => params::param(stack),
        Rule::AnAmp => params::amp(stack),
        Rule::OpenHint => params::open_hint(alloc, stack),
        Rule::PlainHintWord | Rule::PlainHintStatic | Rule::PlainHintArray => params::plain_hint(
            alloc, stack,
        ),
        Rule::WithBody => params::with_body(alloc, stack),
        Rule::WithoutBody => params::without_body(stack),
        Rule::FunctionStmt => decls::function(alloc, stack),
        Rule::ConstStmt => decls::const_of(alloc, stack),
        Rule::NextConst => decls::next_const(alloc, stack),
        Rule::StaticVars => decls::static_vars(alloc, stack),
        Rule::NextStatic => decls::next_static(alloc, stack),
        Rule::StaticStmt => decls::static_of(alloc, stack),
        Rule::AbstractClass => classes::abstract_class(alloc, stack),
        Rule::FinalClass => classes::final_class(alloc, stack),
        Rule::PlainClass => classes::plain_class(alloc, stack),
        Rule::InterfaceStmt => classes::interface(alloc, stack),
        Rule::SomeMembers(_) => members::some_members(alloc, stack),
        Rule::ConstMember => members::constants(alloc, stack),
        Rule::NextClassConst => members::next_class_const(alloc, stack),
        Rule::FunctionMember(_) => members::function(alloc, stack),
        Rule::PropertyMember | Rule::ThisMember => members::properties(alloc, stack),
        Rule::NextProperty => members::next_property(alloc, stack),
        Rule::VisibleMod(_, _, _, _, _) => members::visible(alloc, stack),
        Rule::StaticMod(_, _, _, _, _) => members::of_class(alloc, stack),
        Rule::AbstractMod(_, _, _, _, _) => members::is_abstract(alloc, stack),
        Rule::FinalMod(_, _, _, _, _) => members::is_final(alloc, stack),
        Rule::VarMod(_, _, _, _, _) => members::var(alloc, stack),
        // classes and operators
        Rule::HintWord
        | Rule::HintStatic
        | Rule::HintArray
        | Rule::ClassWord
        | Rule::ClassHintWord
        | Rule::ClassStatic
        | Rule::ClassArray => operators::class_word(alloc, stack),
        Rule::ClassVar | Rule::ClassThis => operators::class_var(stack),
        Rule::BegunStatic => operators::begun_static(alloc, stack),
        Rule::Ternary | Rule::CTernary => operators::ternary(alloc, stack),
        Rule::ShortChoice | Rule::CShortChoice => operators::short_choice(stack),
        Rule::FullChoice | Rule::CFullChoice => operators::full_choice(stack),
        Rule::Coalesced => operators::coalesced(alloc, stack),
        Rule::EqualityStep | Rule::OrderStep => operators::compared(alloc, stack),
        Rule::InstanceStep => operators::instance(alloc, stack),
        Rule::OrStep
        | Rule::XorStep
        | Rule::AndStep
        | Rule::EitherStep
        | Rule::BothStep
        | Rule::SignStep
        | Rule::DotStep
        | Rule::ProductStep
        | Rule::CSignStep
        | Rule::CDotStep
        | Rule::CProductStep => operators::chained(alloc, stack),
        // what stands before an operand
        Rule::PrintExpr => unary::print(alloc, stack),
        Rule::NotExpr | Rule::SignExpr | Rule::PrefixExpr | Rule::CNotExpr | Rule::CSignExpr =>
            unary::unary(alloc, stack),
        Rule::StepBefore => unary::step_before(alloc, stack),
        Rule::ClonePrim => unary::clone_of(alloc, stack),
        Rule::IncludePrim => unary::include_of(alloc, stack),
        // operands
        Rule::IntPrim(_) => heads::int(alloc, stack),
        Rule::TextPrim(_) => heads::text(alloc, stack),
        Rule::QuotePrim(_) => heads::quote(alloc, stack),
        Rule::EmbeddingPrim(_) => heads::embedding(alloc, stack),
        Rule::VarPrim(_) | Rule::ThisPrim(_) => heads::variable(alloc, stack),
        Rule::WordPrim(_) | Rule::HintWordPrim(_) => heads::word(alloc, stack),
        Rule::StaticPrim(_) => heads::class(alloc, stack),
        Rule::BracketPrim(_) => heads::bracket(alloc, stack),
        Rule::ParenPrim(_) => heads::paren(alloc, stack),
        Rule::IssetPrim(_) => heads::isset(alloc, stack),
        Rule::EmptyPrim(_) => heads::empty(alloc, stack),
        Rule::ExitPrim(_) => heads::exit(alloc, stack),
        Rule::NewPrim(_) => heads::new(alloc, stack),
        Rule::ArrayPrim(_) => arrays::array(alloc, stack),
        Rule::ArrayItems(_) => arrays::array_items(alloc, stack),
        Rule::ArrayName(_) => arrays::array_name(alloc, stack),
        // what stands after the head of an operand
        Rule::StaticProperty(_) | Rule::StaticPropertyThis(_) => tails::static_property(
            alloc, stack,
        ),
        Rule::ClassForm(_) => tails::class_form(alloc, stack),
        Rule::StaticMember(_, _) => tails::static_member(alloc, stack),
        Rule::CallArgs(_) => tails::call_args(alloc, stack),
        Rule::ExitArgs(_) => tails::exit_args(alloc, stack),
        Rule::AtIndexPlace(_) | Rule::AtIndexOther(_) => tails::at_index(alloc, stack),
        Rule::PlaceMember(_, _) | Rule::OtherMember(_, _) => tails::member(alloc, stack),
        Rule::AssignVar => endings::assign_var(alloc, stack),
        Rule::AssignPlace | Rule::AssignOp => endings::assign(alloc, stack),
        Rule::StepAfter => endings::step_after(alloc, stack),
        Rule::Appended => endings::appended(alloc, stack),
        Rule::OnlyAssign | Rule::OnlyAssignOp => endings::only_assign(alloc, stack),
        Rule::Reference => endings::reference(stack),
        Rule::AValue => endings::a_value(alloc, stack),
        // lists of expressions and items
        Rule::SomeArgs => lists::some_args(alloc, stack),
        Rule::NextArg | Rule::NextPlace | Rule::QuoteNext => lists::next_arg(alloc, stack),
        Rule::QuoteEnd => lists::no_more_args(alloc, stack),
        Rule::SomeItems(_) => lists::some_items(alloc, stack),
        Rule::AnExpr => lists::an_expr(alloc, stack),
        Rule::ADefault | Rule::Paired(_) => lists::a_default(alloc, stack),
        // places
        Rule::VarPlace | Rule::ThisPlace | Rule::ThisStepPlace => places::var_place(alloc, stack),
        Rule::WordPlace | Rule::HintWordPlace | Rule::StaticNamedPlace | Rule::ArrayNamedPlace =>
            places::class_place(alloc, stack),
        Rule::VarStaticPlace | Rule::ThisStaticPlace => places::static_place(alloc, stack),
        Rule::PlaceIndex => places::place_index(alloc, stack),
        Rule::PlaceNamed(_) => places::place_named(alloc, stack),
        // operands of constant expressions
        Rule::CInt => constants::int(stack),
        Rule::CText => constants::text(alloc, stack),
        Rule::CWord | Rule::CHintWord | Rule::CArray => constants::word(alloc, stack),
        Rule::CStatic => constants::class(alloc, stack),
        Rule::CBracket => constants::bracket(alloc, stack),
        Rule::CClassForm => constants::class_form(stack),
        Rule::CNamed(_) => constants::member(alloc, stack),
        Rule::CArrayItems => constants::array_items(alloc, stack),
    }
}
