//! The rule of a part that a token decides.

ghost use Rattle.std.specs.Prelude.{◌≡◌};
ghost use Rattle.php_grammar.specs.Grammar as spec;
ghost use Rattle.php_grammar.specs.Kinds.{code};
ghost use Rattle.php_grammar.specs.Parts as p;

use crate::expr_choice::{
    after_colons_rule, args_rule, array_part_rule, arrow_value_rule, assign_only_rule,
    begun_prim_rule, c_array_part_rule, c_member_rule, c_not_part_rule, c_prim_rule,
    c_question_part_rule, c_unary_part_rule, c_word_tail_rule, index_part_rule, items_rule,
    member_part_rule, more_args_rule, more_items_rule, more_places_rule, not_part_rule,
    operators_rule, place_member_part_rule, place_rule, place_tail_rule, prim_rule,
    print_part_rule, question_part_rule, quote_rest_rule, static_place_rule, step_place_rule,
    tail_rule, this_place_tail_rule, unary_part_rule, value_or_reference_rule,
};
use crate::part::{Context, Level, Part, Rule};
use crate::stmt_choice::{
    after_static_rule, any_var_rule, any_word_rule, arm_sign_rule, arms_rule, class_name_rule,
    class_or_var_rule, first_catch_rule, hint_name_rule, hint_rule, if_body_rule,
    if_listed_rest_rule, if_rest_rule, loop_body_rule, maybe_amp_rule, maybe_default_rule,
    maybe_expr_rule, maybe_hint_rule, maybe_int_rule, maybe_interfaces_rule, maybe_parent_rule,
    maybe_parents_rule, maybe_result_rule, maybe_semi_rule, maybe_text_rule, member_rule,
    members_rule, method_body_rule, mods_rule, more_catches_rule, more_caught_rule,
    more_class_consts_rule, more_consts_rule, more_names_rule, more_params_rule,
    more_properties_rule, more_static_rule, more_vars_rule, params_rule, plain_word_rule,
    second_var_rule, stmt_rule, stmts_rule, switch_body_rule,
};
use crate::token::Kind;

/// The rule by which a part is read where the next token is of a kind, or none where such a token is a fault.
#[tactic(auto, unfolding(crate::specs::Grammar::choose))]
pub fn choose(part: Part, kind: Kind) -> Option<Rule>
    ensures { result ≡ spec.choose part kind }
{
    match part {
        Part::File => Some(Rule::Whole),
        Part::Stmts => stmts_rule(kind),
        Part::Stmt => stmt_rule(kind),
        Part::IfBody => if_body_rule(kind),
        Part::IfRest => if_rest_rule(kind),
        Part::IfListedRest => if_listed_rest_rule(kind),
        Part::SwitchBody => switch_body_rule(kind),
        Part::MaybeSemi => maybe_semi_rule(kind),
        Part::Arms => arms_rule(kind),
        Part::ArmSign => arm_sign_rule(kind),
        Part::MaybeInt => maybe_int_rule(kind),
        Part::MaybeExpr => maybe_expr_rule(kind),
        Part::SecondVar => second_var_rule(kind),
        Part::MoreVars => more_vars_rule(kind),
        Part::AfterStatic => after_static_rule(kind),
        Part::MoreStatic => more_static_rule(kind),
        Part::MaybeDefault => maybe_default_rule(kind),
        Part::MoreConsts => more_consts_rule(kind),
        Part::MaybeText => maybe_text_rule(kind),
        Part::FirstCatch => first_catch_rule(kind),
        Part::MoreCatches => more_catches_rule(kind),
        Part::MoreCaught => more_caught_rule(kind),
        Part::Params => params_rule(kind),
        Part::MoreParams => more_params_rule(kind),
        Part::Param => Some(Rule::AParam),
        Part::MaybeAmp => maybe_amp_rule(kind),
        Part::HintName => hint_name_rule(kind),
        Part::MaybeHint => maybe_hint_rule(kind),
        Part::Hint => hint_rule(kind),
        Part::MaybeResult => maybe_result_rule(kind),
        Part::PlainWord => plain_word_rule(kind),
        Part::ClassName => class_name_rule(kind),
        Part::ClassOrVar => class_or_var_rule(kind),
        Part::MaybeParent => maybe_parent_rule(kind),
        Part::MaybeInterfaces => maybe_interfaces_rule(kind),
        Part::MaybeParents => maybe_parents_rule(kind),
        Part::MoreNames => more_names_rule(kind),
        Part::MoreClassConsts => more_class_consts_rule(kind),
        Part::MoreProperties => more_properties_rule(kind),
        Part::AnyVar => any_var_rule(kind),
        Part::AnyWord => any_word_rule(kind),
        Part::PrintPart => print_part_rule(kind),
        Part::NotPart => not_part_rule(kind),
        Part::UnaryPart => unary_part_rule(kind),
        Part::QuoteRest => quote_rest_rule(kind),
        Part::AssignOnly => assign_only_rule(kind),
        Part::ValueOrReference => value_or_reference_rule(kind),
        Part::Args => args_rule(kind),
        Part::MoreArgs => more_args_rule(kind),
        Part::MorePlaces => more_places_rule(kind),
        Part::Place => place_rule(kind),
        Part::StepPlace => step_place_rule(kind),
        Part::StaticPlace => static_place_rule(kind),
        Part::PlaceTail => place_tail_rule(kind),
        Part::ThisPlaceTail => this_place_tail_rule(kind),
        Part::PlaceMemberPart => place_member_part_rule(kind),
        Part::CNotPart => c_not_part_rule(kind),
        Part::CUnaryPart => c_unary_part_rule(kind),
        Part::CPrim => c_prim_rule(kind),
        Part::CWordTail => c_word_tail_rule(kind),
        Part::CMember => c_member_rule(kind),
        Part::CArrayPart => c_array_part_rule(kind),
        Part::BegunPrim => begun_prim_rule(kind),
        Part::QuestionPart => question_part_rule(kind),
        Part::CQuestionPart => c_question_part_rule(kind),
        Part::LoopBody(of) => loop_body_rule(of, kind),
        Part::Members(inner) => members_rule(inner, kind),
        Part::Mods(v, st, ab, fi, va, inner) => mods_rule(v, st, ab, fi, va, inner, kind),
        Part::Member(inner) => member_rule(inner, kind),
        Part::MethodBody(inner) => method_body_rule(inner, kind),
        Part::ArrayPart(c) => array_part_rule(c, kind),
        Part::Prim(c) => prim_rule(c, kind),
        Part::AfterColons(c) => after_colons_rule(c, kind),
        Part::Tail(seen, c) => tail_rule(seen, c, kind),
        Part::IndexPart(place, c) => index_part_rule(place, c, kind),
        Part::MemberPart(place, c) => member_part_rule(place, c, kind),
        Part::Items(x) => items_rule(x, kind),
        Part::ItemExpr(Context::InFull) => Some(Rule::ItemFull),
        Part::ItemExpr(Context::InConst) => Some(Rule::ItemConst),
        Part::ArrowValue(x) => arrow_value_rule(x, kind),
        Part::MoreItems(x) => more_items_rule(x, kind),
        Part::Operators(x, level) => operators_rule(x, level, kind),
        Part::Level(_, _) | Part::Begun(_) => None,
    }
}

/// Whether a level goes on before a token of a kind.
#[tactic(auto, unfolding(crate::specs::Grammar::goes_on, crate::specs::Grammar::steps))]
pub fn goes_on(part: Part, kind: Kind) -> bool
    ensures { result ≡ spec.goes_on part kind }
{
    match part {
        Part::Level(context, level) => is_operator(context, level, kind),
        Part::Begun(level) => is_operator(Context::InFull, level, kind),
        _ => false,
    }
}

fn is_operator(context: Context, level: Level, kind: Kind) -> bool
    ensures { result ≡ spec.has_row (code kind) (spec.rows (p.operators context level)) }
{
    match context {
        Context::InFull => match level {
            Level::LowOr => matches!(kind, Kind::Or),
            Level::LowXor => matches!(kind, Kind::Xor),
            Level::LowAnd => matches!(kind, Kind::And),
            Level::Choice => matches!(kind, Kind::Question),
            Level::Coalescing => matches!(kind, Kind::Coalesce),
            Level::Either => matches!(kind, Kind::OrOr),
            Level::Both => matches!(kind, Kind::AndAnd),
            Level::Equality => matches!(kind, Kind::Equality),
            Level::Order => matches!(kind, Kind::Order),
            Level::Sum => matches!(kind, Kind::Sign | Kind::Dot),
            Level::Product => matches!(kind, Kind::Product),
            Level::Instance => matches!(kind, Kind::InstanceOf),
        },
        Context::InConst => match level {
            Level::Choice => matches!(kind, Kind::Question),
            Level::Sum => matches!(kind, Kind::Sign | Kind::Dot),
            Level::Product => matches!(kind, Kind::Product),
            _ => false,
        },
    }
}
