use super::*;
use std::test::Fail;

#[test]
fn bytes_are_put_out_until_the_budget_is_spent(rt: HostRuntime) -> Result<(), Fail> {
    let mut run = PageRun::new(rt.alloc(), 2);
    run.tick();
    run.print(b"a")?;
    run.print(b"b")?;
    run.tick();
    run.print(b"c")?;
    assert_eq!(rt; run.is_spent(), false);
    run.tick();
    run.print(b"d")?;
    let run = run.finish();
    assert_eq!(rt; run.output(), b"abc".as_slice());
    assert_eq!(rt; run.is_spent(), true);
    Ok(())
}
