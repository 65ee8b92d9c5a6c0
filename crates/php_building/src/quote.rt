//! The parts of a text with interpolation.

ghost use Rattle.std.specs.Prelude.{◌≡◌, List, ◌∷◌, IfOk};
ghost use Rattle.php_building.specs.Quotes.{part_before};
ghost use Rattle.php_grammar.specs.Act as spec;
ghost use Rattle.php_tree.specs.ExpressionOf.{expressions_of, parts_of};
ghost use Rattle.php_tree.specs.declared.expr.QuotePart.{QuotePart};

use backward_list::Backward;
use php_tree::expr::{Expr, QuotePart};
use sqlite_items::Items;
use std::alloc::{AllocError, Global};

/// The parts of a text, with its embedded expressions in their order.
#[tactic(auto, using(crate::proofs::Quotes::quotes))]
pub fn filled(
    alloc: Global,
    parts: Items<QuotePart<()>>,
    exprs: Backward<Expr>,
) -> Result<Items<QuotePart<Expr>>, AllocError>
    ensures { IfOk result (λ made. parts_of made ≡ spec.filled parts (expressions_of exprs)) }
{
    let mut left = turned(alloc, parts)?;
    let mut embedded = exprs;
    let mut done = Items::new(alloc);
    'turn: while let Some(part) = left.pop() {
        if let Some(part) = filled_part(part, &mut embedded) {
            done.push(part)?;
        }
    }
    Ok(done)
}

/// The parts, to be taken from the first on.
fn turned(alloc: Global, parts: Items<QuotePart<()>>) -> Result<Backward<QuotePart<()>>, AllocError>
    ensures { IfOk result (λ turned. turned ≡ parts) }
{
    let mut parts = parts;
    let mut turned = Backward::new(alloc);
    'turn: while let Some(part) = parts.pop() {
        turned.push(part)?;
    }
    Ok(turned)
}

/// One part, with the next expression where it embeds one.
fn filled_part(part: QuotePart<()>, exprs: &mut Backward<Expr>) -> Option<QuotePart<Expr>>
    ensures { (more : List (QuotePart (Unit {0}))) → spec.filled (part ∷ more) (expressions_of exprs.old)
        ≡ part_before result (spec.filled more (expressions_of exprs.new)) }
{
    match part {
        QuotePart::Bytes(bytes) => Some(QuotePart::Bytes(bytes)),
        QuotePart::Var(number) => Some(QuotePart::Var(number)),
        QuotePart::Index(number, key) => Some(QuotePart::Index(number, key)),
        QuotePart::Property(number, name) => Some(QuotePart::Property(number, name)),
        QuotePart::Embedded(_) => match exprs.pop() {
            Some(expr) => Some(QuotePart::Embedded(expr)),
            None => None,
        },
    }
}
