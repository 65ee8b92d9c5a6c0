// How an include begins, with ample memory.
use crate::begin_include;
use backward_list::Backward;
use php_rest::{Frame, Now};
use php_tree::expr::{Expr, IncludeKind};
use std::alloc::{AllocError, Global};

// Whether an include evaluates its path first.
fn evaluates(alloc: Global, path: &Expr) -> Result<bool, AllocError> {
    let mut stack: Backward<Frame<'_>> = Backward::new(alloc);
    match begin_include(IncludeKind::Include, path, &mut stack)? {
        Now::Evaluate(_) => Ok(true),
        _ => Ok(false),
    }
}

#[test]
fn an_include_evaluates_its_path(rt: HostRuntime) -> Result<(), AllocError> {
    let path = Expr::Int(1, 4);
    assert!(rt; evaluates(rt.alloc(), &path)?);
    Ok(())
}
