//! The rule that a token decides, of each part of expressions.

ghost use Rattle.std.specs.Prelude.{◌≡◌};
ghost use Rattle.php_grammar.specs.Grammar as spec;
ghost use Rattle.php_grammar.specs.Parts as p;
ghost use Rattle.php_grammar.specs.Split.{place_is_seen};

use crate::part::{Context, Level, Part, Rule, Seen};
use crate::token::Kind;
use crate::words::named;

/// Whether a place stands before the rest of an operand.
fn is_place(seen: Seen) -> bool
    ensures { result ≡ place_is_seen seen }
{
    matches!(
        seen,
        Seen::VarSeen | Seen::ThisSeen | Seen::PlaceSeen | Seen::PlaceMemberSeen
    )
}

#[tactic(auto, unfolding(crate::specs::Grammar::choose))]
pub(crate) fn print_part_rule(kind: Kind) -> Option<Rule>
    ensures { result ≡ spec.choose p.print_part kind }
{
    match kind {
        Kind::Print => Some(Rule::PrintExpr),
        _ => Some(Rule::NoPrint),
    }
}

#[tactic(auto, unfolding(crate::specs::Grammar::choose))]
pub(crate) fn not_part_rule(kind: Kind) -> Option<Rule>
    ensures { result ≡ spec.choose p.not_part kind }
{
    match kind {
        Kind::Not => Some(Rule::NotExpr),
        _ => Some(Rule::NoNot),
    }
}

#[tactic(auto, unfolding(crate::specs::Grammar::choose))]
pub(crate) fn unary_part_rule(kind: Kind) -> Option<Rule>
    ensures { result ≡ spec.choose p.unary_part kind }
{
    match kind {
        Kind::Sign => Some(Rule::SignExpr),
        Kind::Prefix => Some(Rule::PrefixExpr),
        Kind::Step => Some(Rule::StepBefore),
        _ => Some(Rule::NoUnary),
    }
}

#[tactic(auto, unfolding(crate::specs::Grammar::choose))]
pub(crate) fn quote_rest_rule(kind: Kind) -> Option<Rule>
    ensures { result ≡ spec.choose p.quote_rest kind }
{
    match kind {
        Kind::QuoteClose => Some(Rule::QuoteEnd),
        Kind::QuoteNext => Some(Rule::QuoteNext),
        _ => None,
    }
}

#[tactic(auto, unfolding(crate::specs::Grammar::choose))]
pub(crate) fn assign_only_rule(kind: Kind) -> Option<Rule>
    ensures { result ≡ spec.choose p.assign_only kind }
{
    match kind {
        Kind::Assign => Some(Rule::OnlyAssign),
        Kind::AssignOp => Some(Rule::OnlyAssignOp),
        _ => None,
    }
}

#[tactic(auto, unfolding(crate::specs::Grammar::choose))]
pub(crate) fn value_or_reference_rule(kind: Kind) -> Option<Rule>
    ensures { result ≡ spec.choose p.value_or_reference kind }
{
    match kind {
        Kind::Amp => Some(Rule::Reference),
        _ => Some(Rule::AValue),
    }
}

#[tactic(auto, unfolding(crate::specs::Grammar::choose))]
pub(crate) fn args_rule(kind: Kind) -> Option<Rule>
    ensures { result ≡ spec.choose p.args kind }
{
    match kind {
        Kind::ParenClose | Kind::Semi => Some(Rule::NoneOf(Part::Args)),
        _ => Some(Rule::SomeArgs),
    }
}

#[tactic(auto, unfolding(crate::specs::Grammar::choose))]
pub(crate) fn more_args_rule(kind: Kind) -> Option<Rule>
    ensures { result ≡ spec.choose p.more_args kind }
{
    match kind {
        Kind::Comma => Some(Rule::NextArg),
        _ => Some(Rule::NoneOf(Part::MoreArgs)),
    }
}

#[tactic(auto, unfolding(crate::specs::Grammar::choose))]
pub(crate) fn more_places_rule(kind: Kind) -> Option<Rule>
    ensures { result ≡ spec.choose p.more_places kind }
{
    match kind {
        Kind::Comma => Some(Rule::NextPlace),
        _ => Some(Rule::NoneOf(Part::MorePlaces)),
    }
}

#[tactic(auto, unfolding(crate::specs::Grammar::choose))]
pub(crate) fn place_rule(kind: Kind) -> Option<Rule>
    ensures { result ≡ spec.choose p.place kind }
{
    match kind {
        Kind::Var => Some(Rule::VarPlace),
        Kind::Word => Some(Rule::WordPlace),
        Kind::HintWord => Some(Rule::HintWordPlace),
        Kind::Static => Some(Rule::StaticNamedPlace),
        Kind::Array => Some(Rule::ArrayNamedPlace),
        Kind::This => Some(Rule::ThisPlace),
        _ => None,
    }
}

#[tactic(auto, unfolding(crate::specs::Grammar::choose))]
pub(crate) fn step_place_rule(kind: Kind) -> Option<Rule>
    ensures { result ≡ spec.choose p.step_place kind }
{
    match kind {
        Kind::Var => Some(Rule::VarPlace),
        Kind::Word => Some(Rule::WordPlace),
        Kind::HintWord => Some(Rule::HintWordPlace),
        Kind::Static => Some(Rule::StaticNamedPlace),
        Kind::Array => Some(Rule::ArrayNamedPlace),
        Kind::This => Some(Rule::ThisStepPlace),
        _ => None,
    }
}

#[tactic(auto, unfolding(crate::specs::Grammar::choose))]
pub(crate) fn static_place_rule(kind: Kind) -> Option<Rule>
    ensures { result ≡ spec.choose p.static_place kind }
{
    match kind {
        Kind::Var => Some(Rule::VarStaticPlace),
        Kind::This => Some(Rule::ThisStaticPlace),
        _ => None,
    }
}

#[tactic(auto, unfolding(crate::specs::Grammar::choose))]
pub(crate) fn place_tail_rule(kind: Kind) -> Option<Rule>
    ensures { result ≡ spec.choose p.place_tail kind }
{
    match kind {
        Kind::BracketOpen => Some(Rule::PlaceIndex),
        Kind::Arrow => Some(Rule::PlaceArrow),
        _ => Some(Rule::NoneOf(Part::PlaceTail)),
    }
}

#[tactic(auto, unfolding(crate::specs::Grammar::choose))]
pub(crate) fn this_place_tail_rule(kind: Kind) -> Option<Rule>
    ensures { result ≡ spec.choose p.this_place_tail kind }
{
    match kind {
        Kind::BracketOpen => Some(Rule::PlaceIndex),
        Kind::Arrow => Some(Rule::PlaceArrow),
        _ => None,
    }
}

#[tactic(auto, using(crate::proofs::Choices::place_member_rows))]
pub(crate) fn place_member_part_rule(kind: Kind) -> Option<Rule>
    ensures { result ≡ spec.choose p.place_member_part kind }
{
    named(kind, Rule::PlaceNamed(kind))
}

#[tactic(auto, unfolding(crate::specs::Grammar::choose))]
pub(crate) fn c_not_part_rule(kind: Kind) -> Option<Rule>
    ensures { result ≡ spec.choose p.c_not_part kind }
{
    match kind {
        Kind::Not => Some(Rule::CNotExpr),
        _ => Some(Rule::CNoNot),
    }
}

#[tactic(auto, unfolding(crate::specs::Grammar::choose))]
pub(crate) fn c_unary_part_rule(kind: Kind) -> Option<Rule>
    ensures { result ≡ spec.choose p.c_unary_part kind }
{
    match kind {
        Kind::Sign => Some(Rule::CSignExpr),
        _ => Some(Rule::CNoSign),
    }
}

#[tactic(auto, unfolding(crate::specs::Grammar::choose))]
pub(crate) fn c_prim_rule(kind: Kind) -> Option<Rule>
    ensures { result ≡ spec.choose p.c_prim kind }
{
    match kind {
        Kind::Int => Some(Rule::CInt),
        Kind::Text => Some(Rule::CText),
        Kind::Word => Some(Rule::CWord),
        Kind::HintWord => Some(Rule::CHintWord),
        Kind::Static => Some(Rule::CStatic),
        Kind::Array => Some(Rule::CArray),
        Kind::BracketOpen => Some(Rule::CBracket),
        _ => None,
    }
}

#[tactic(auto, unfolding(crate::specs::Grammar::choose))]
pub(crate) fn c_word_tail_rule(kind: Kind) -> Option<Rule>
    ensures { result ≡ spec.choose p.c_word_tail kind }
{
    match kind {
        Kind::DoubleColon => Some(Rule::CColons),
        _ => Some(Rule::NoneOf(Part::CWordTail)),
    }
}

#[tactic(auto, using(crate::proofs::Choices::c_member_rows, crate::proofs::Choices::c_member_class))]
pub(crate) fn c_member_rule(kind: Kind) -> Option<Rule>
    ensures { result ≡ spec.choose p.c_member kind }
{
    match kind {
        Kind::Class => Some(Rule::CClassForm),
        _ => named(kind, Rule::CNamed(kind)),
    }
}

#[tactic(auto, unfolding(crate::specs::Grammar::choose))]
pub(crate) fn c_array_part_rule(kind: Kind) -> Option<Rule>
    ensures { result ≡ spec.choose p.c_array_part kind }
{
    match kind {
        Kind::ParenOpen => Some(Rule::CArrayItems),
        Kind::DoubleColon => Some(Rule::CArrayName),
        _ => None,
    }
}

#[tactic(auto, unfolding(crate::specs::Grammar::choose))]
pub(crate) fn begun_prim_rule(kind: Kind) -> Option<Rule>
    ensures { result ≡ spec.choose p.begun_prim kind }
{
    match kind {
        Kind::DoubleColon => Some(Rule::BegunStatic),
        _ => None,
    }
}

#[tactic(auto, unfolding(crate::specs::Grammar::choose))]
pub(crate) fn question_part_rule(kind: Kind) -> Option<Rule>
    ensures { result ≡ spec.choose p.question_part kind }
{
    match kind {
        Kind::Colon => Some(Rule::ShortChoice),
        _ => Some(Rule::FullChoice),
    }
}

#[tactic(auto, unfolding(crate::specs::Grammar::choose))]
pub(crate) fn c_question_part_rule(kind: Kind) -> Option<Rule>
    ensures { result ≡ spec.choose p.c_question_part kind }
{
    match kind {
        Kind::Colon => Some(Rule::CShortChoice),
        _ => Some(Rule::CFullChoice),
    }
}

#[tactic(auto, unfolding(crate::specs::Grammar::choose))]
pub(crate) fn array_part_rule(c: bool, kind: Kind) -> Option<Rule>
    ensures { result ≡ spec.choose (p.array_part c) kind }
{
    match kind {
        Kind::ParenOpen => Some(Rule::ArrayItems(c)),
        Kind::DoubleColon => Some(Rule::ArrayName(c)),
        _ => None,
    }
}

#[tactic(auto, unfolding(crate::specs::Grammar::choose))]
pub(crate) fn prim_rule(c: bool, kind: Kind) -> Option<Rule>
    ensures { result ≡ spec.choose (p.prim c) kind }
{
    match kind {
        Kind::Int => Some(Rule::IntPrim(c)),
        Kind::Text => Some(Rule::TextPrim(c)),
        Kind::Quote => Some(Rule::QuotePrim(c)),
        Kind::QuoteOpen => Some(Rule::EmbeddingPrim(c)),
        Kind::Var => Some(Rule::VarPrim(c)),
        Kind::This => Some(Rule::ThisPrim(c)),
        Kind::Word => Some(Rule::WordPrim(c)),
        Kind::HintWord => Some(Rule::HintWordPrim(c)),
        Kind::Static => Some(Rule::StaticPrim(c)),
        Kind::Array => Some(Rule::ArrayPrim(c)),
        Kind::BracketOpen => Some(Rule::BracketPrim(c)),
        Kind::ParenOpen => Some(Rule::ParenPrim(c)),
        Kind::Isset => Some(Rule::IssetPrim(c)),
        Kind::Empty => Some(Rule::EmptyPrim(c)),
        Kind::Exit => Some(Rule::ExitPrim(c)),
        Kind::New => Some(Rule::NewPrim(c)),
        Kind::Clone => Some(Rule::ClonePrim),
        Kind::Include => Some(Rule::IncludePrim),
        _ => None,
    }
}

#[tactic(auto, using(crate::proofs::Choices::after_colons_rows, crate::proofs::Choices::after_colons_class, crate::proofs::Choices::after_colons_var, crate::proofs::Choices::after_colons_this), unfolding(crate::specs::Grammar::choose))]
pub(crate) fn after_colons_rule(c: bool, kind: Kind) -> Option<Rule>
    ensures { result ≡ spec.choose (p.after_colons c) kind }
{
    match kind {
        Kind::Class => Some(Rule::ClassForm(c)),
        Kind::Var => Some(Rule::StaticProperty(c)),
        Kind::This => Some(Rule::StaticPropertyThis(c)),
        _ => named(kind, Rule::StaticMember(kind, c)),
    }
}

#[tactic(auto, using(crate::proofs::Choices::tail_none), unfolding(crate::specs::Grammar::choose))]
pub(crate) fn tail_rule(seen: Seen, c: bool, kind: Kind) -> Option<Rule>
    ensures { result ≡ spec.choose (p.tail seen c) kind }
{
    match kind {
        Kind::BracketOpen => Some(Rule::OpenIndex(is_place(seen), c)),
        Kind::Arrow => Some(Rule::Arrow(is_place(seen), c)),
        Kind::ParenOpen => match seen {
            Seen::PlaceSeen | Seen::OtherSeen => Some(Rule::NoneOf(Part::Tail(seen, c))),
            Seen::ExitSeen => Some(Rule::ExitArgs(c)),
            _ => Some(Rule::CallArgs(c)),
        },
        Kind::DoubleColon => match seen {
            Seen::WordSeen => Some(Rule::Colons(c)),
            _ => Some(Rule::NoneOf(Part::Tail(seen, c))),
        },
        Kind::Assign => match seen {
            Seen::VarSeen => Some(Rule::AssignVar),
            Seen::PlaceSeen | Seen::PlaceMemberSeen => Some(Rule::AssignPlace),
            _ => Some(Rule::NoneOf(Part::Tail(seen, c))),
        },
        Kind::AssignOp => match seen {
            Seen::VarSeen | Seen::PlaceSeen | Seen::PlaceMemberSeen => Some(Rule::AssignOp),
            _ => Some(Rule::NoneOf(Part::Tail(seen, c))),
        },
        Kind::Step => match (seen, c) {
            (Seen::VarSeen | Seen::PlaceSeen | Seen::PlaceMemberSeen, true) => Some(
                Rule::StepAfter,
            ),
            _ => Some(Rule::NoneOf(Part::Tail(seen, c))),
        },
        _ => Some(Rule::NoneOf(Part::Tail(seen, c))),
    }
}

#[tactic(auto, unfolding(crate::specs::Grammar::choose))]
pub(crate) fn index_part_rule(place: bool, c: bool, kind: Kind) -> Option<Rule>
    ensures { result ≡ spec.choose (p.index_part place c) kind }
{
    match (place, kind) {
        (true, Kind::BracketClose) => Some(Rule::Appended),
        (true, _) => Some(Rule::AtIndexPlace(c)),
        (false, _) => Some(Rule::AtIndexOther(c)),
    }
}

#[tactic(auto, using(crate::proofs::Choices::member_of_place, crate::proofs::Choices::member_of_other))]
pub(crate) fn member_part_rule(place: bool, c: bool, kind: Kind) -> Option<Rule>
    ensures { result ≡ spec.choose (p.member_part place c) kind }
{
    if place {
        named(kind, Rule::PlaceMember(kind, c))
    } else {
        named(kind, Rule::OtherMember(kind, c))
    }
}

#[tactic(auto, unfolding(crate::specs::Grammar::choose))]
pub(crate) fn items_rule(x: Context, kind: Kind) -> Option<Rule>
    ensures { result ≡ spec.choose (p.items x) kind }
{
    match kind {
        Kind::ParenClose | Kind::BracketClose => Some(Rule::NoneOf(Part::Items(x))),
        _ => Some(Rule::SomeItems(x)),
    }
}

#[tactic(auto, unfolding(crate::specs::Grammar::choose))]
pub(crate) fn arrow_value_rule(x: Context, kind: Kind) -> Option<Rule>
    ensures { result ≡ spec.choose (p.arrow_value x) kind }
{
    match kind {
        Kind::DoubleArrow => Some(Rule::Paired(x)),
        _ => Some(Rule::NoneOf(Part::ArrowValue(x))),
    }
}

#[tactic(auto, unfolding(crate::specs::Grammar::choose))]
pub(crate) fn more_items_rule(x: Context, kind: Kind) -> Option<Rule>
    ensures { result ≡ spec.choose (p.more_items x) kind }
{
    match kind {
        Kind::Comma => Some(Rule::NextItem(x)),
        _ => Some(Rule::NoneOf(Part::MoreItems(x))),
    }
}

#[tactic(auto, unfolding(crate::specs::Grammar::choose))]
pub(crate) fn operators_rule(x: Context, level: Level, kind: Kind) -> Option<Rule>
    ensures { result ≡ spec.choose (p.operators x level) kind }
{
    match (x, level, kind) {
        (Context::InFull, Level::LowOr, Kind::Or) => Some(Rule::OrStep),
        (Context::InFull, Level::LowXor, Kind::Xor) => Some(Rule::XorStep),
        (Context::InFull, Level::LowAnd, Kind::And) => Some(Rule::AndStep),
        (Context::InFull, Level::Choice, Kind::Question) => Some(Rule::Ternary),
        (Context::InFull, Level::Coalescing, Kind::Coalesce) => Some(Rule::Coalesced),
        (Context::InFull, Level::Either, Kind::OrOr) => Some(Rule::EitherStep),
        (Context::InFull, Level::Both, Kind::AndAnd) => Some(Rule::BothStep),
        (Context::InFull, Level::Equality, Kind::Equality) => Some(Rule::EqualityStep),
        (Context::InFull, Level::Order, Kind::Order) => Some(Rule::OrderStep),
        (Context::InFull, Level::Sum, Kind::Sign) => Some(Rule::SignStep),
        (Context::InFull, Level::Sum, Kind::Dot) => Some(Rule::DotStep),
        (Context::InFull, Level::Product, Kind::Product) => Some(Rule::ProductStep),
        (Context::InFull, Level::Instance, Kind::InstanceOf) => Some(Rule::InstanceStep),
        (Context::InConst, Level::Choice, Kind::Question) => Some(Rule::CTernary),
        (Context::InConst, Level::Sum, Kind::Sign) => Some(Rule::CSignStep),
        (Context::InConst, Level::Sum, Kind::Dot) => Some(Rule::CDotStep),
        (Context::InConst, Level::Product, Kind::Product) => Some(Rule::CProductStep),
        _ => Some(Rule::NoneOf(Part::Operators(x, level))),
    }
}
