//! What a part gives of which nothing is read.

ghost use Rattle.std.specs.Prelude.{◌≡◌, OnOk};
ghost use Rattle.php_grammar.specs.Act.{nothing_of};
ghost use Rattle.php_grammar.specs.declared.part.Rule.TheVariants as g;
ghost use Rattle.php_pieces.specs.Pieces.{value_of, values_of};
ghost use Rattle.php_pieces.specs.Stacks.{reduced};

use backward_list::Backward;
use php_building::part::{ConstTail, IfParts};
use php_grammar::part::{Level, Part};
use php_pieces::piece::Piece;
use php_pieces::stack::{Stack, push};
use php_popped::parts::empty_tail;
use sqlite_items::Items;
use std::alloc::{AllocError, Global};

/// Nothing, as the part has it.
#[tactic(auto, unfolding(php_grammar::specs::Act::act, php_grammar::specs::Grammar::production))]
pub fn nothing(alloc: Global, part: Part, stack: &mut Stack<'_>) -> Result<(), AllocError>
    ensures { OnOk result (values_of stack.new ≡ reduced (g.NoneOf part) (values_of stack.old)) }
{
    push(stack, nothing_of(alloc, part))?;
    Ok(())
}

fn nothing_of(alloc: Global, part: Part) -> Piece<'static>
    ensures { value_of result ≡ nothing_of part }
{
    match part {
        Part::Stmts => Piece::Stmts(Backward::new(alloc)),
        Part::IfRest => Piece::IfParts(IfParts {
            guarded: Items::new(alloc),
            arms: Backward::new(alloc),
            last: Items::new(alloc),
        }),
        Part::Arms => Piece::Cases(Backward::new(alloc)),
        Part::MaybeInt => Piece::Int(1),
        Part::MaybeExpr | Part::MaybeDefault | Part::ArrowValue(_) => Piece::Maybe(None),
        Part::SecondVar => Piece::Second(None),
        Part::MoreVars => Piece::Vars(Backward::new(alloc)),
        Part::MoreStatic => Piece::Statics(Backward::new(alloc)),
        Part::MoreConsts => Piece::Constants(Backward::new(alloc)),
        Part::MaybeText => Piece::Text(None),
        Part::MoreCatches => Piece::Clauses(Backward::new(alloc)),
        Part::MoreCaught | Part::MaybeInterfaces | Part::MaybeParents | Part::MoreNames =>
            Piece::Names(Backward::new(alloc)),
        Part::Params | Part::MoreParams => Piece::Params(Backward::new(alloc)),
        Part::MaybeAmp => Piece::Amp(false),
        Part::MaybeHint | Part::MaybeResult => Piece::Hint(None),
        Part::MaybeParent => Piece::Parent(None),
        Part::Members(_) => Piece::Members(Backward::new(alloc)),
        Part::MoreClassConsts => Piece::ClassConstants(Backward::new(alloc)),
        Part::MoreProperties => Piece::Properties(Backward::new(alloc)),
        Part::Tail(_, _) => Piece::Tail(empty_tail(alloc)),
        Part::Args | Part::MoreArgs | Part::MorePlaces => Piece::Exprs(Backward::new(alloc)),
        Part::Items(_) | Part::MoreItems(_) => Piece::Items(Backward::new(alloc)),
        Part::PlaceTail => Piece::Accesses(Backward::new(alloc)),
        Part::CWordTail => Piece::Named(ConstTail::OnlyWord),
        Part::Operators(_, Level::Choice) => Piece::Branches(Backward::new(alloc)),
        Part::Operators(_, _) => Piece::Links(Backward::new(alloc)),
        _ => Piece::Unit,
    }
}
