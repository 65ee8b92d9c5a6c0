// Tokens that are one kind to the grammar, told apart.

use crate::token::Detail;
use php_tree::decl::Visibility;
use php_tree::expr::{AssignOp, ChainOp, CompareOp, IncludeKind, StepOp, UnaryOp};
use std::test::Fail;

#[test]
fn plus_and_minus_stand_between_and_before_operands(rt: HostRuntime) -> Result<(), Fail> {
    assert_eq!(rt; Detail::Plus.chain_op(), ChainOp::Add);
    assert_eq!(rt; Detail::Minus.chain_op(), ChainOp::Sub);
    assert_eq!(rt; Detail::Plus.unary_op(), UnaryOp::Plus);
    assert_eq!(rt; Detail::Minus.unary_op(), UnaryOp::Minus);
    Ok(())
}

#[test]
fn a_step_stands_before_or_after_its_place(rt: HostRuntime) -> Result<(), Fail> {
    assert_eq!(rt; Detail::Increment.step_before(), StepOp::IncrementBefore);
    assert_eq!(rt; Detail::Decrement.step_before(), StepOp::DecrementBefore);
    assert_eq!(rt; Detail::Increment.step_after(), StepOp::IncrementAfter);
    assert_eq!(rt; Detail::Decrement.step_after(), StepOp::DecrementAfter);
    Ok(())
}

#[test]
fn other_operators_are_what_their_token_says(rt: HostRuntime) -> Result<(), Fail> {
    assert_eq!(rt; Detail::Chain(ChainOp::Rem).chain_op(), ChainOp::Rem);
    assert_eq!(rt;
        Detail::Compare(CompareOp::Order).compare_op(),
        CompareOp::Order
    );
    assert_eq!(rt; Detail::Assign(AssignOp::Join).assign_op(), AssignOp::Join);
    assert_eq!(rt; Detail::Unary(UnaryOp::ToInt).unary_op(), UnaryOp::ToInt);
    let once = Detail::Include(IncludeKind::RequireOnce);
    assert_eq!(rt; once.include_kind(), IncludeKind::RequireOnce);
    assert_eq!(rt;
        Detail::Visible(Visibility::Private).visibility(),
        Some(Visibility::Private)
    );
    assert_eq!(rt; Detail::Only.visibility(), None);
    Ok(())
}
