//! The levels of operators that stand between operands, from the tightest outwards.

ghost use Rattle.std.specs.Prelude.{◌≡◌, true, false, IfSome, IsNone, Some};
ghost use Rattle.php_grammar.specs.Grammar as grammar;
ghost use Rattle.php_grammar.specs.declared.part.Part.TheVariants as p;
ghost use Rattle.php_grammar.specs.declared.part.Rule.TheVariants as r;
ghost use Rattle.php_reader.specs.Levels as spec;
ghost use Rattle.php_reader.specs.Levels.{Quiet, GoesOnAt, IsInmost};

use php_grammar::part::{Level, Part};
use php_grammar::token::Kind;

/// How many levels are tighter.
pub fn rank(level: Level) -> usize
    ensures { result ≡ spec.rank level }
{
    match level {
        Level::Instance => 0,
        Level::Product => 1,
        Level::Sum => 2,
        Level::Order => 3,
        Level::Equality => 4,
        Level::Both => 5,
        Level::Either => 6,
        Level::Coalescing => 7,
        Level::Choice => 8,
        Level::LowAnd => 9,
        Level::LowXor => 10,
        Level::LowOr => 11,
    }
}

/// The next weaker level.
pub fn outer(level: Level) -> Level
    ensures { result ≡ spec.outer level }
{
    match level {
        Level::Instance => Level::Product,
        Level::Product => Level::Sum,
        Level::Sum => Level::Order,
        Level::Order => Level::Equality,
        Level::Equality => Level::Both,
        Level::Both => Level::Either,
        Level::Either => Level::Coalescing,
        Level::Coalescing => Level::Choice,
        Level::Choice => Level::LowAnd,
        Level::LowAnd => Level::LowXor,
        Level::LowXor => Level::LowOr,
        Level::LowOr => Level::LowOr,
    }
}

/// The level that goes on before a token of a kind, where one does.
#[tactic(auto, unfolding(crate::specs::Levels::level_at, php_grammar::specs::Grammar::goes_on, php_grammar::specs::Grammar::steps))]
fn level_at(kind: Kind) -> Option<Level>
    ensures { result ≡ spec.level_at kind }
{
    match kind {
        Kind::InstanceOf => Some(Level::Instance),
        Kind::Product => Some(Level::Product),
        Kind::Sign | Kind::Dot => Some(Level::Sum),
        Kind::Order => Some(Level::Order),
        Kind::Equality => Some(Level::Equality),
        Kind::AndAnd => Some(Level::Both),
        Kind::OrOr => Some(Level::Either),
        Kind::Coalesce => Some(Level::Coalescing),
        Kind::Question => Some(Level::Choice),
        Kind::And => Some(Level::LowAnd),
        Kind::Xor => Some(Level::LowXor),
        Kind::Or => Some(Level::LowOr),
        _ => None,
    }
}

/// The tightest of the levels between two that goes on before a token of a kind, where one does.
pub fn going_on(from: Level, top: Level, kind: Kind) -> Option<Level>
    ensures none { IsNone result → Quiet from top kind }
    ensures some { IfSome result (λ at. GoesOnAt from top kind at) }
{
    let Some(at) = level_at(kind) else {
        return None;
    };
    if rank(at) < rank(from) {
        return None;
    }
    if rank(top) < rank(at) {
        return None;
    }
    Some(at)
}

#[tactic(auto, unfolding(php_grammar::specs::Grammar::choose))]
fn is_not(kind: Kind) -> bool
    ensures holds { result ≡ true → grammar.choose p.PrintPart kind ≡ Some r.NoPrint }
    ensures fails { result ≡ false → grammar.choose p.NotPart kind ≡ Some r.NoNot }
{
    match kind {
        Kind::Not => true,
        _ => false,
    }
}

#[tactic(auto, unfolding(php_grammar::specs::Grammar::choose))]
fn is_print(kind: Kind) -> bool
    ensures { result ≡ false → grammar.choose p.PrintPart kind ≡ Some r.NoPrint }
{
    match kind {
        Kind::Print => true,
        _ => false,
    }
}

/// Whether a token of a kind is a sign, a cast or the like before an operand.
#[tactic(auto, unfolding(php_grammar::specs::Grammar::choose))]
pub fn is_prefix(kind: Kind) -> bool
    ensures { result ≡ false → grammar.choose p.UnaryPart kind ≡ Some r.NoUnary }
{
    match kind {
        Kind::Sign | Kind::Prefix | Kind::Step => true,
        _ => false,
    }
}

/// The level as an operand of which an operand of a level begins with a token of a kind.
pub fn inmost(top: Level, kind: Kind) -> Level
    ensures { IsInmost top kind result }
{
    if is_not(kind) {
        if rank(top) == 0 {
            return Level::Instance;
        }
        return Level::Product;
    }
    if rank(top) < 9 {
        return Level::Instance;
    }
    if is_print(kind) {
        return Level::LowAnd;
    }
    Level::Instance
}

/// What an operand of a level is, where it begins so.
pub fn beginning(level: Level) -> Part
    ensures { result ≡ spec.beginning level }
{
    match level {
        Level::LowAnd => Part::PrintPart,
        Level::Product => Part::NotPart,
        _ => Part::UnaryPart,
    }
}
