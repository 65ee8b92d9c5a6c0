//! The rule that a token decides, of each part of statements and declarations.

ghost use Rattle.std.specs.Prelude.{◌≡◌};
ghost use Rattle.php_grammar.specs.Grammar as spec;
ghost use Rattle.php_grammar.specs.Parts as p;

use crate::part::{Loop, Part, Rule};
use crate::token::Kind;
use crate::words::named;

#[tactic(auto, unfolding(crate::specs::Grammar::choose))]
pub(crate) fn stmts_rule(kind: Kind) -> Option<Rule>
    ensures { result ≡ spec.choose p.stmts kind }
{
    match kind {
        Kind::BraceClose
        | Kind::End
        | Kind::EndIf
        | Kind::EndWhile
        | Kind::EndFor
        | Kind::EndForeach
        | Kind::EndSwitch
        | Kind::ElseIf
        | Kind::Else
        | Kind::Case
        | Kind::Default => Some(Rule::NoneOf(Part::Stmts)),
        _ => Some(Rule::SomeStmts),
    }
}

#[tactic(auto, unfolding(crate::specs::Grammar::choose))]
pub(crate) fn stmt_rule(kind: Kind) -> Option<Rule>
    ensures { result ≡ spec.choose p.stmt kind }
{
    match kind {
        Kind::Semi => Some(Rule::EmptyStmt),
        Kind::Inline => Some(Rule::InlineText),
        Kind::EchoTag => Some(Rule::EchoTag),
        Kind::Echo => Some(Rule::EchoWord),
        Kind::BraceOpen => Some(Rule::Block),
        Kind::If => Some(Rule::IfStmt),
        Kind::While => Some(Rule::WhileStmt),
        Kind::Do => Some(Rule::DoStmt),
        Kind::For => Some(Rule::ForStmt),
        Kind::Foreach => Some(Rule::ForeachStmt),
        Kind::Switch => Some(Rule::SwitchStmt),
        Kind::Jump => Some(Rule::JumpStmt),
        Kind::Return => Some(Rule::ReturnStmt),
        Kind::Global => Some(Rule::GlobalStmt),
        Kind::Static => Some(Rule::StaticStmt),
        Kind::Unset => Some(Rule::UnsetStmt),
        Kind::Throw => Some(Rule::ThrowStmt),
        Kind::Try => Some(Rule::TryStmt),
        Kind::Function => Some(Rule::FunctionStmt),
        Kind::Abstract => Some(Rule::AbstractClass),
        Kind::Final => Some(Rule::FinalClass),
        Kind::Class => Some(Rule::PlainClass),
        Kind::Interface => Some(Rule::InterfaceStmt),
        Kind::Const => Some(Rule::ConstStmt),
        Kind::Removed => Some(Rule::RemovedStmt),
        _ => Some(Rule::ExprStmt),
    }
}

#[tactic(auto, unfolding(crate::specs::Grammar::choose))]
pub(crate) fn if_body_rule(kind: Kind) -> Option<Rule>
    ensures { result ≡ spec.choose p.if_body kind }
{
    match kind {
        Kind::Colon => Some(Rule::IfListed),
        _ => Some(Rule::IfSingle),
    }
}

#[tactic(auto, unfolding(crate::specs::Grammar::choose))]
pub(crate) fn if_rest_rule(kind: Kind) -> Option<Rule>
    ensures { result ≡ spec.choose p.if_rest kind }
{
    match kind {
        Kind::ElseIf => Some(Rule::ElseIf),
        Kind::Else => Some(Rule::ElseSingle),
        _ => Some(Rule::NoneOf(Part::IfRest)),
    }
}

#[tactic(auto, unfolding(crate::specs::Grammar::choose))]
pub(crate) fn if_listed_rest_rule(kind: Kind) -> Option<Rule>
    ensures { result ≡ spec.choose p.if_listed_rest kind }
{
    match kind {
        Kind::EndIf => Some(Rule::EndIf),
        Kind::ElseIf => Some(Rule::ElseIfListed),
        Kind::Else => Some(Rule::ElseListed),
        _ => None,
    }
}

#[tactic(auto, unfolding(crate::specs::Grammar::choose))]
pub(crate) fn switch_body_rule(kind: Kind) -> Option<Rule>
    ensures { result ≡ spec.choose p.switch_body kind }
{
    match kind {
        Kind::BraceOpen => Some(Rule::SwitchBraced),
        Kind::Colon => Some(Rule::SwitchListed),
        _ => None,
    }
}

#[tactic(auto, unfolding(crate::specs::Grammar::choose))]
pub(crate) fn maybe_semi_rule(kind: Kind) -> Option<Rule>
    ensures { result ≡ spec.choose p.maybe_semi kind }
{
    match kind {
        Kind::Semi => Some(Rule::ASemi),
        _ => Some(Rule::NoneOf(Part::MaybeSemi)),
    }
}

#[tactic(auto, unfolding(crate::specs::Grammar::choose))]
pub(crate) fn arms_rule(kind: Kind) -> Option<Rule>
    ensures { result ≡ spec.choose p.arms kind }
{
    match kind {
        Kind::Case => Some(Rule::CaseArm),
        Kind::Default => Some(Rule::DefaultArm),
        _ => Some(Rule::NoneOf(Part::Arms)),
    }
}

#[tactic(auto, unfolding(crate::specs::Grammar::choose))]
pub(crate) fn arm_sign_rule(kind: Kind) -> Option<Rule>
    ensures { result ≡ spec.choose p.arm_sign kind }
{
    match kind {
        Kind::Colon => Some(Rule::ArmColon),
        Kind::Semi => Some(Rule::ArmSemi),
        _ => None,
    }
}

#[tactic(auto, unfolding(crate::specs::Grammar::choose))]
pub(crate) fn maybe_int_rule(kind: Kind) -> Option<Rule>
    ensures { result ≡ spec.choose p.maybe_int kind }
{
    match kind {
        Kind::Int => Some(Rule::AnInt),
        _ => Some(Rule::NoneOf(Part::MaybeInt)),
    }
}

#[tactic(auto, unfolding(crate::specs::Grammar::choose))]
pub(crate) fn maybe_expr_rule(kind: Kind) -> Option<Rule>
    ensures { result ≡ spec.choose p.maybe_expr kind }
{
    match kind {
        Kind::Semi | Kind::ParenClose => Some(Rule::NoneOf(Part::MaybeExpr)),
        _ => Some(Rule::AnExpr),
    }
}

#[tactic(auto, unfolding(crate::specs::Grammar::choose))]
pub(crate) fn second_var_rule(kind: Kind) -> Option<Rule>
    ensures { result ≡ spec.choose p.second_var kind }
{
    match kind {
        Kind::DoubleArrow => Some(Rule::KeyThenValue),
        _ => Some(Rule::NoneOf(Part::SecondVar)),
    }
}

#[tactic(auto, unfolding(crate::specs::Grammar::choose))]
pub(crate) fn more_vars_rule(kind: Kind) -> Option<Rule>
    ensures { result ≡ spec.choose p.more_vars kind }
{
    match kind {
        Kind::Comma => Some(Rule::NextVar),
        _ => Some(Rule::NoneOf(Part::MoreVars)),
    }
}

#[tactic(auto, unfolding(crate::specs::Grammar::choose))]
pub(crate) fn after_static_rule(kind: Kind) -> Option<Rule>
    ensures { result ≡ spec.choose p.after_static kind }
{
    match kind {
        Kind::Var => Some(Rule::StaticVars),
        _ => Some(Rule::StaticExpr),
    }
}

#[tactic(auto, unfolding(crate::specs::Grammar::choose))]
pub(crate) fn more_static_rule(kind: Kind) -> Option<Rule>
    ensures { result ≡ spec.choose p.more_static kind }
{
    match kind {
        Kind::Comma => Some(Rule::NextStatic),
        _ => Some(Rule::NoneOf(Part::MoreStatic)),
    }
}

#[tactic(auto, unfolding(crate::specs::Grammar::choose))]
pub(crate) fn maybe_default_rule(kind: Kind) -> Option<Rule>
    ensures { result ≡ spec.choose p.maybe_default kind }
{
    match kind {
        Kind::Assign => Some(Rule::ADefault),
        _ => Some(Rule::NoneOf(Part::MaybeDefault)),
    }
}

#[tactic(auto, unfolding(crate::specs::Grammar::choose))]
pub(crate) fn more_consts_rule(kind: Kind) -> Option<Rule>
    ensures { result ≡ spec.choose p.more_consts kind }
{
    match kind {
        Kind::Comma => Some(Rule::NextConst),
        _ => Some(Rule::NoneOf(Part::MoreConsts)),
    }
}

#[tactic(auto, unfolding(crate::specs::Grammar::choose))]
pub(crate) fn maybe_text_rule(kind: Kind) -> Option<Rule>
    ensures { result ≡ spec.choose p.maybe_text kind }
{
    match kind {
        Kind::Comma => Some(Rule::NextText),
        _ => Some(Rule::NoneOf(Part::MaybeText)),
    }
}

#[tactic(auto, unfolding(crate::specs::Grammar::choose))]
pub(crate) fn first_catch_rule(kind: Kind) -> Option<Rule>
    ensures { result ≡ spec.choose p.first_catch kind }
{
    match kind {
        Kind::Catch => Some(Rule::ACatch),
        _ => None,
    }
}

#[tactic(auto, unfolding(crate::specs::Grammar::choose))]
pub(crate) fn more_catches_rule(kind: Kind) -> Option<Rule>
    ensures { result ≡ spec.choose p.more_catches kind }
{
    match kind {
        Kind::Catch => Some(Rule::ACatch),
        _ => Some(Rule::NoneOf(Part::MoreCatches)),
    }
}

#[tactic(auto, unfolding(crate::specs::Grammar::choose))]
pub(crate) fn more_caught_rule(kind: Kind) -> Option<Rule>
    ensures { result ≡ spec.choose p.more_caught kind }
{
    match kind {
        Kind::Pipe => Some(Rule::NextCaught),
        _ => Some(Rule::NoneOf(Part::MoreCaught)),
    }
}

#[tactic(auto, unfolding(crate::specs::Grammar::choose))]
pub(crate) fn params_rule(kind: Kind) -> Option<Rule>
    ensures { result ≡ spec.choose p.params kind }
{
    match kind {
        Kind::ParenClose => Some(Rule::NoneOf(Part::Params)),
        _ => Some(Rule::SomeParams),
    }
}

#[tactic(auto, unfolding(crate::specs::Grammar::choose))]
pub(crate) fn more_params_rule(kind: Kind) -> Option<Rule>
    ensures { result ≡ spec.choose p.more_params kind }
{
    match kind {
        Kind::Comma => Some(Rule::NextParam),
        _ => Some(Rule::NoneOf(Part::MoreParams)),
    }
}

#[tactic(auto, unfolding(crate::specs::Grammar::choose))]
pub(crate) fn maybe_amp_rule(kind: Kind) -> Option<Rule>
    ensures { result ≡ spec.choose p.maybe_amp kind }
{
    match kind {
        Kind::Amp => Some(Rule::AnAmp),
        _ => Some(Rule::NoneOf(Part::MaybeAmp)),
    }
}

#[tactic(auto, unfolding(crate::specs::Grammar::choose))]
pub(crate) fn hint_name_rule(kind: Kind) -> Option<Rule>
    ensures { result ≡ spec.choose p.hint_name kind }
{
    match kind {
        Kind::Word => Some(Rule::HintWord),
        Kind::Static => Some(Rule::HintStatic),
        Kind::Array => Some(Rule::HintArray),
        _ => None,
    }
}

#[tactic(auto, unfolding(crate::specs::Grammar::choose))]
pub(crate) fn maybe_hint_rule(kind: Kind) -> Option<Rule>
    ensures { result ≡ spec.choose p.maybe_hint kind }
{
    match kind {
        Kind::Word => Some(Rule::PlainHintWord),
        Kind::Static => Some(Rule::PlainHintStatic),
        Kind::Array => Some(Rule::PlainHintArray),
        Kind::Question => Some(Rule::OpenHint),
        _ => Some(Rule::NoneOf(Part::MaybeHint)),
    }
}

#[tactic(auto, unfolding(crate::specs::Grammar::choose))]
pub(crate) fn hint_rule(kind: Kind) -> Option<Rule>
    ensures { result ≡ spec.choose p.hint kind }
{
    match kind {
        Kind::Word => Some(Rule::PlainHintWord),
        Kind::Static => Some(Rule::PlainHintStatic),
        Kind::Array => Some(Rule::PlainHintArray),
        Kind::Question => Some(Rule::OpenHint),
        _ => None,
    }
}

#[tactic(auto, unfolding(crate::specs::Grammar::choose))]
pub(crate) fn maybe_result_rule(kind: Kind) -> Option<Rule>
    ensures { result ≡ spec.choose p.maybe_result kind }
{
    match kind {
        Kind::Colon => Some(Rule::AResult),
        _ => Some(Rule::NoneOf(Part::MaybeResult)),
    }
}

#[tactic(auto, unfolding(crate::specs::Grammar::choose))]
pub(crate) fn plain_word_rule(kind: Kind) -> Option<Rule>
    ensures { result ≡ spec.choose p.plain_word kind }
{
    match kind {
        Kind::Word => Some(Rule::APlainWord),
        Kind::HintWord => Some(Rule::AHintWord),
        _ => None,
    }
}

#[tactic(auto, unfolding(crate::specs::Grammar::choose))]
pub(crate) fn class_name_rule(kind: Kind) -> Option<Rule>
    ensures { result ≡ spec.choose p.class_name kind }
{
    match kind {
        Kind::Word => Some(Rule::ClassWord),
        Kind::HintWord => Some(Rule::ClassHintWord),
        Kind::Static => Some(Rule::ClassStatic),
        Kind::Array => Some(Rule::ClassArray),
        _ => None,
    }
}

#[tactic(auto, unfolding(crate::specs::Grammar::choose))]
pub(crate) fn class_or_var_rule(kind: Kind) -> Option<Rule>
    ensures { result ≡ spec.choose p.class_or_var kind }
{
    match kind {
        Kind::Word => Some(Rule::ClassWord),
        Kind::HintWord => Some(Rule::ClassHintWord),
        Kind::Static => Some(Rule::ClassStatic),
        Kind::Array => Some(Rule::ClassArray),
        Kind::Var => Some(Rule::ClassVar),
        Kind::This => Some(Rule::ClassThis),
        _ => None,
    }
}

#[tactic(auto, unfolding(crate::specs::Grammar::choose))]
pub(crate) fn maybe_parent_rule(kind: Kind) -> Option<Rule>
    ensures { result ≡ spec.choose p.maybe_parent kind }
{
    match kind {
        Kind::Extends => Some(Rule::AParent),
        _ => Some(Rule::NoneOf(Part::MaybeParent)),
    }
}

#[tactic(auto, unfolding(crate::specs::Grammar::choose))]
pub(crate) fn maybe_interfaces_rule(kind: Kind) -> Option<Rule>
    ensures { result ≡ spec.choose p.maybe_interfaces kind }
{
    match kind {
        Kind::Implements => Some(Rule::TheInterfaces),
        _ => Some(Rule::NoneOf(Part::MaybeInterfaces)),
    }
}

#[tactic(auto, unfolding(crate::specs::Grammar::choose))]
pub(crate) fn maybe_parents_rule(kind: Kind) -> Option<Rule>
    ensures { result ≡ spec.choose p.maybe_parents kind }
{
    match kind {
        Kind::Extends => Some(Rule::TheParents),
        _ => Some(Rule::NoneOf(Part::MaybeParents)),
    }
}

#[tactic(auto, unfolding(crate::specs::Grammar::choose))]
pub(crate) fn more_names_rule(kind: Kind) -> Option<Rule>
    ensures { result ≡ spec.choose p.more_names kind }
{
    match kind {
        Kind::Comma => Some(Rule::NextName),
        _ => Some(Rule::NoneOf(Part::MoreNames)),
    }
}

#[tactic(auto, unfolding(crate::specs::Grammar::choose))]
pub(crate) fn more_class_consts_rule(kind: Kind) -> Option<Rule>
    ensures { result ≡ spec.choose p.more_class_consts kind }
{
    match kind {
        Kind::Comma => Some(Rule::NextClassConst),
        _ => Some(Rule::NoneOf(Part::MoreClassConsts)),
    }
}

#[tactic(auto, unfolding(crate::specs::Grammar::choose))]
pub(crate) fn more_properties_rule(kind: Kind) -> Option<Rule>
    ensures { result ≡ spec.choose p.more_properties kind }
{
    match kind {
        Kind::Comma => Some(Rule::NextProperty),
        _ => Some(Rule::NoneOf(Part::MoreProperties)),
    }
}

#[tactic(auto, unfolding(crate::specs::Grammar::choose))]
pub(crate) fn any_var_rule(kind: Kind) -> Option<Rule>
    ensures { result ≡ spec.choose p.any_var kind }
{
    match kind {
        Kind::Var => Some(Rule::PlainVar),
        Kind::This => Some(Rule::ThisVar),
        _ => None,
    }
}

#[tactic(auto, using(crate::proofs::Choices::any_word_rows))]
pub(crate) fn any_word_rule(kind: Kind) -> Option<Rule>
    ensures { result ≡ spec.choose p.any_word kind }
{
    named(kind, Rule::NamedWord(kind))
}

#[tactic(auto, unfolding(crate::specs::Grammar::choose))]
pub(crate) fn loop_body_rule(of: Loop, kind: Kind) -> Option<Rule>
    ensures { result ≡ spec.choose (p.loop_body of) kind }
{
    match (of, kind) {
        (Loop::OfWhile, Kind::Colon) => Some(Rule::WhileListed),
        (Loop::OfFor, Kind::Colon) => Some(Rule::ForListed),
        (Loop::OfForeach, Kind::Colon) => Some(Rule::ForeachListed),
        _ => Some(Rule::BodySingle),
    }
}

#[tactic(auto, unfolding(crate::specs::Grammar::choose))]
pub(crate) fn members_rule(inner: bool, kind: Kind) -> Option<Rule>
    ensures { result ≡ spec.choose (p.members inner) kind }
{
    match kind {
        Kind::BraceClose => Some(Rule::NoneOf(Part::Members(inner))),
        _ => Some(Rule::SomeMembers(inner)),
    }
}

#[tactic(auto, using(crate::proofs::Choices::mods_none), unfolding(crate::specs::Grammar::choose))]
pub(crate) fn mods_rule(
    v: bool,
    st: bool,
    ab: bool,
    fi: bool,
    va: bool,
    inner: bool,
    kind: Kind,
) -> Option<Rule>
    ensures { result ≡ spec.choose (p.mods v st ab fi va inner) kind }
{
    match kind {
        Kind::Function => Some(Rule::FunctionMember(inner)),
        Kind::Visibility => {
            if v {
                None
            } else {
                Some(Rule::VisibleMod(st, ab, fi, va, inner))
            }
        }
        Kind::Static => {
            if st {
                None
            } else {
                Some(Rule::StaticMod(v, ab, fi, va, inner))
            }
        }
        Kind::Abstract => {
            if ab {
                None
            } else {
                Some(Rule::AbstractMod(v, st, fi, va, inner))
            }
        }
        Kind::Final => {
            if fi {
                None
            } else {
                Some(Rule::FinalMod(v, st, ab, va, inner))
            }
        }
        Kind::VarWord => {
            if va {
                None
            } else {
                Some(Rule::VarMod(v, st, ab, fi, inner))
            }
        }
        Kind::Var => {
            if inner {
                None
            } else {
                Some(Rule::PropertyMember)
            }
        }
        Kind::This => { if inner { None } else { Some(Rule::ThisMember) } }
        _ => None,
    }
}

#[tactic(auto, unfolding(crate::specs::Grammar::choose))]
pub(crate) fn member_rule(inner: bool, kind: Kind) -> Option<Rule>
    ensures { result ≡ spec.choose (p.member inner) kind }
{
    match kind {
        Kind::Function => Some(Rule::FunctionMember(inner)),
        Kind::Visibility => Some(Rule::VisibleMod(false, false, false, false, inner)),
        Kind::Static => Some(Rule::StaticMod(false, false, false, false, inner)),
        Kind::Abstract => Some(Rule::AbstractMod(false, false, false, false, inner)),
        Kind::Final => Some(Rule::FinalMod(false, false, false, false, inner)),
        Kind::VarWord => Some(Rule::VarMod(false, false, false, false, inner)),
        Kind::Var if !inner => Some(Rule::PropertyMember),
        Kind::This if !inner => Some(Rule::ThisMember),
        Kind::Const => Some(Rule::ConstMember),
        _ => None,
    }
}

#[tactic(auto, unfolding(crate::specs::Grammar::choose))]
pub(crate) fn method_body_rule(inner: bool, kind: Kind) -> Option<Rule>
    ensures { result ≡ spec.choose (p.method_body inner) kind }
{
    match kind {
        Kind::Semi => Some(Rule::WithoutBody),
        Kind::BraceOpen if !inner => Some(Rule::WithBody),
        _ => None,
    }
}
