// Each call once, with ample memory.
use crate::{End, Tally};
use php_rest::Owner;
use sqlite_items::Items;
use std::alloc::AllocError;

#[test]
fn ticks_end_and_output_and_entries_stay(rt: HostRuntime) -> Result<(), AllocError> {
    let alloc = rt.alloc();
    let path = Items::from_slice(alloc, b"index.php")?;
    let mut tally = Tally::new(alloc, 1);
    tally.enter(Owner::File(&path))?;
    assert!(rt; tally.tick());
    tally.print(b"a")?;
    tally.print(b"b")?;
    assert!(rt; !tally.tick());
    let run = tally.finish(End::Budget);
    assert!(rt; run.output.as_slice() == b"ab".as_slice());
    assert!(rt; run.entries.len() == 1);
    assert!(rt; matches!(run.end, End::Budget));
    Ok(())
}
