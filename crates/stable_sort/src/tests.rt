use crate::{Ranked, sort_down, sort_up};
use std::alloc::{AllocError, Global};

fn ranked(alloc: Global, pairs: &[(i64, u8)]) -> Result<Vec<Ranked<i64, u8>>, AllocError> {
    let mut all = Vec::new(alloc);
    for (rank, thing) in pairs {
        all.push(Ranked {
            rank: *rank,
            thing: *thing,
        })?;
    }
    Ok(all)
}

fn has_things(all: &[Ranked<i64, u8>], things: &[u8]) -> bool {
    if all.len() != things.len() {
        return false;
    }
    for (one, thing) in all.iter().zip(things) {
        if one.thing != *thing {
            return false;
        }
    }
    true
}

fn rises(alloc: Global, pairs: &[(i64, u8)], things: &[u8]) -> Result<bool, AllocError> {
    let mut all = ranked(alloc, pairs)?;
    sort_up(&mut all)?;
    Ok(has_things(all.as_slice(), things))
}

fn falls(alloc: Global, pairs: &[(i64, u8)], things: &[u8]) -> Result<bool, AllocError> {
    let mut all = ranked(alloc, pairs)?;
    sort_down(&mut all)?;
    Ok(has_things(all.as_slice(), things))
}

#[test]
fn ties_keep_their_order(rt: HostRuntime) {
    let alloc = rt.alloc();
    let pairs = [(2, b'a'), (-1, b'b'), (2, b'c'), (-1, b'd'), (5, b'e')];
    assert!(rt; rises(alloc, &pairs, b"bdace") == Ok(true));
    assert!(rt; falls(alloc, &pairs, b"eacbd") == Ok(true));
    assert!(rt; rises(alloc, &[], b"") == Ok(true) && falls(alloc, &[(1, b'a')], b"a") == Ok(true));
}
