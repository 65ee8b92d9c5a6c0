use super::*;
use std::alloc::{AllocError, Global};
use std::test::Fail;
use std::{fs, process};

fn text(alloc: Global, text: &str) -> Result<String, AllocError> {
    String::from_str(alloc, text)
}

fn three_files(alloc: Global, failing: Vec<u64>) -> Result<FolderMem, AllocError> {
    let mut files = Vec::new(alloc);
    for (path, bytes) in [
        ("copies/guest/b.php", "old"),
        ("copies/guest/a.php", "one"),
        ("copies/guest.txt", "two"),
        ("copies/guest/b.php", "new"),
    ] {
        files.push((
            text(alloc, path)?,
            Vec::from_slice(alloc, text(alloc, bytes)?.as_bytes())?,
        ))?;
    }
    FolderMem::new(alloc, files, failing)
}

#[test]
fn a_sink_in_memory_takes_up_to_its_room_and_fails_where_it_is_told(
    rt: HostRuntime,
) -> Result<(), Fail> {
    let alloc = rt.alloc();
    let mut sink = SinkMem::new(alloc, 5, vec![in alloc; 1]?)?;
    assert_eq!(rt; sink.write(b"one"), Ok(()));
    assert_eq!(rt; sink.write(b"x"), Err(OutsideFault::Failed));
    assert_eq!(rt; sink.write(b"two"), Err(OutsideFault::Failed));
    assert_eq!(rt; sink.write(b"2"), Ok(()));
    assert_eq!(rt; sink.written(), b"one2".as_slice());
    assert_eq!(rt; sink.faults(), 2);
    Ok(())
}

#[test]
fn a_sink_over_a_writer_hands_on_all_bytes(rt: HostRuntime) -> Result<(), Fail> {
    let mut sink = SinkReal::new(Vec::new(rt.alloc()));
    assert_eq!(rt; sink.write(b"one "), Ok(()));
    assert_eq!(rt; sink.write(b"two"), Ok(()));
    assert_eq!(rt; sink.writer.as_slice(), b"one two".as_slice());
    assert_eq!(rt; sink.faults(), 0);
    Ok(())
}

#[test]
fn a_folder_in_memory_lists_reads_writes_and_removes(rt: HostRuntime) -> Result<(), Fail> {
    let alloc = rt.alloc();
    let mut folder = three_files(alloc, Vec::new(alloc))?;
    assert_eq!(rt; folder.len(), 3);
    let Ok(paths) = folder.list(alloc, "copies/guest") else {
        panic!(rt; "the list failed")
    };
    assert_eq!(rt; paths.len(), 2);
    assert_eq!(rt; paths[0].as_str(), "copies/guest/a.php");
    assert_eq!(rt; paths[1].as_str(), "copies/guest/b.php");
    let Ok(Found::Bytes(bytes)) = folder.read(alloc, "copies/guest/b.php", 3) else {
        panic!(rt; "the read failed")
    };
    assert_eq!(rt; bytes.as_slice(), b"new".as_slice());
    let short = folder.read(alloc, "copies/guest/b.php", 2);
    assert!(rt; matches!(&short, Ok(Found::TooLong)));
    let none = folder.read(alloc, "copies/guest", 9);
    assert!(rt; matches!(&none, Ok(Found::Absent)));
    assert_eq!(rt; folder.write(alloc, "c", b"3"), Ok(()));
    assert_eq!(rt; folder.remove(alloc, "copies/guest.txt"), Ok(()));
    assert_eq!(rt; folder.remove(alloc, "copies/guest.txt"), Ok(()));
    assert_eq!(rt; folder.file("c"), Some(b"3".as_slice()));
    assert_eq!(rt; folder.file("copies/guest.txt"), None);
    assert_eq!(rt; folder.len(), 3);
    Ok(())
}

#[test]
fn a_call_that_fails_changes_no_file_and_raises_its_own_count(rt: HostRuntime) -> Result<(), Fail> {
    let alloc = rt.alloc();
    let mut failing = Vec::new(alloc);
    for call in [0u64, 1, 2, 3] {
        failing.push(call)?;
    }
    let mut folder = three_files(alloc, failing)?;
    let listed = folder.list(alloc, "copies");
    assert!(rt; matches!(&listed, Err(FolderFault::Failed)));
    let read = folder.read(alloc, "copies/guest.txt", 9);
    assert!(rt; matches!(&read, Err(FolderFault::Failed)));
    assert_eq!(rt;
        folder.write(alloc, "copies/guest.txt", b"x"),
        Err(FolderFault::Failed)
    );
    assert_eq!(rt;
        folder.remove(alloc, "copies/guest.txt"),
        Err(FolderFault::Failed)
    );
    assert_eq!(rt; folder.file("copies/guest.txt"), Some(b"two".as_slice()));
    assert_eq!(rt; folder.read_faults(), 2);
    assert_eq!(rt; folder.write_faults(), 2);
    assert_eq!(rt; folder.remove(alloc, "copies/guest.txt"), Ok(()));
    Ok(())
}

#[test]
fn a_folder_of_the_system_lists_reads_writes_and_removes(rt: HostRuntime) -> Result<(), Fail> {
    let alloc = rt.alloc();
    let root = format!(in alloc; "/tmp/less_outside_{}", process::id(rt.process()))?;
    let _ = fs::remove_dir_all(&rt, root.as_str());
    let mut folder = FolderReal::new(rt.clone()?, root.clone()?);
    let empty = folder.list(alloc, "app");
    assert!(rt; matches!(&empty, Ok(paths) if paths.is_empty()));
    assert_eq!(rt; folder.write(alloc, "app/sub/b.php", b"two"), Ok(()));
    assert_eq!(rt; folder.write(alloc, "app/a.php", b"one"), Ok(()));
    assert_eq!(rt; folder.write(alloc, "app.txt", b"x"), Ok(()));
    let Ok(paths) = folder.list(alloc, "app") else {
        panic!(rt; "the list failed")
    };
    assert_eq!(rt; paths.len(), 2);
    assert_eq!(rt; paths[0].as_str(), "app/a.php");
    assert_eq!(rt; paths[1].as_str(), "app/sub/b.php");
    let Ok(Found::Bytes(bytes)) = folder.read(alloc, "app/sub/b.php", 3) else {
        panic!(rt; "the read failed")
    };
    assert_eq!(rt; bytes.as_slice(), b"two".as_slice());
    let short = folder.read(alloc, "app/a.php", 2);
    assert!(rt; matches!(&short, Ok(Found::TooLong)));
    let place = folder.read(alloc, "app", 9);
    assert!(rt; matches!(&place, Ok(Found::Absent)));
    let inside = folder.read(alloc, "app.txt/c", 9);
    assert!(rt; matches!(&inside, Ok(Found::Absent)));
    assert_eq!(rt; folder.remove(alloc, "app/a.php"), Ok(()));
    assert_eq!(rt; folder.remove(alloc, "app/a.php"), Ok(()));
    let gone = folder.read(alloc, "app/a.php", 9);
    assert!(rt; matches!(&gone, Ok(Found::Absent)));
    assert_eq!(rt;
        folder.write(alloc, "app.txt/c", b"x"),
        Err(FolderFault::Failed)
    );
    assert_eq!(rt; folder.read_faults(), 0);
    assert_eq!(rt; folder.write_faults(), 1);
    fs::remove_dir_all(&rt, root.as_str())?;
    Ok(())
}

#[test]
fn a_link_in_memory_gives_pieces_and_takes_up_to_its_room(rt: HostRuntime) -> Result<(), Fail> {
    let alloc = rt.alloc();
    let input = Vec::from_slice(alloc, b"abcde")?;
    let mut link = LinkMem::new(alloc, input, 3, 4, vec![in alloc; 1]?)?;
    let mut room = *b"....";
    assert_eq!(rt; link.read(&mut room), Ok(3));
    assert_eq!(rt; room, *b"abc.");
    assert_eq!(rt; link.read(&mut room), Err(OutsideFault::Failed));
    assert_eq!(rt; link.rest(), b"de".as_slice());
    assert_eq!(rt; link.read(&mut room[..1]), Ok(1));
    assert_eq!(rt; link.read(&mut room), Ok(1));
    assert_eq!(rt; room, *b"ebc.");
    assert_eq!(rt; link.read(&mut room), Ok(0));
    assert_eq!(rt; link.write(b"xyz"), Ok(()));
    assert_eq!(rt; link.write(b"12"), Err(OutsideFault::Failed));
    assert_eq!(rt; link.write(b"1"), Ok(()));
    assert_eq!(rt; link.written(), b"xyz1".as_slice());
    assert_eq!(rt; link.read_faults(), 1);
    assert_eq!(rt; link.write_faults(), 1);
    Ok(())
}

#[test]
fn a_link_over_a_reader_and_a_writer_hands_on_all_bytes(rt: HostRuntime) -> Result<(), Fail> {
    let mut link = LinkReal::new(b"abc".as_slice(), Vec::new(rt.alloc()));
    let mut room = *b"..";
    assert_eq!(rt; link.read(&mut room), Ok(2));
    assert_eq!(rt; room, *b"ab");
    assert_eq!(rt; link.write(b"one "), Ok(()));
    assert_eq!(rt; link.write(b"two"), Ok(()));
    assert_eq!(rt; link.writer.as_slice(), b"one two".as_slice());
    assert_eq!(rt; link.read(&mut room), Ok(1));
    assert_eq!(rt; link.read(&mut room), Ok(0));
    assert_eq!(rt; link.read_faults(), 0);
    assert_eq!(rt; link.write_faults(), 0);
    Ok(())
}

#[test]
fn clocks_and_ids_in_memory_fail_where_they_are_told(rt: HostRuntime) -> Result<(), Fail> {
    let alloc = rt.alloc();
    let mut clock = ClockMem::new(MAX_MOMENT, vec![in alloc; 1]?);
    assert_eq!(rt; clock.now(), Ok(9_999_999_999));
    assert_eq!(rt; clock.now(), Err(OutsideFault::Failed));
    assert_eq!(rt; clock.now(), Ok(9_999_999_999));
    assert_eq!(rt; clock.faults(), 1);
    let mut ids = IdsMem::new(vec![in alloc; 1]?);
    assert_eq!(rt; ids.draw(), Ok(1));
    assert_eq!(rt; ids.draw(), Err(OutsideFault::Failed));
    assert_eq!(rt; ids.draw(), Ok(2));
    assert_eq!(rt; ids.faults(), 1);
    Ok(())
}

#[test]
fn the_system_has_a_clock_and_random_bytes(rt: HostRuntime) -> Result<(), Fail> {
    let mut clock = ClockReal::new(rt.clone()?);
    let moment = clock.now();
    assert!(rt; matches!(moment, Ok(seconds) if seconds > 1_700_000_000));
    assert_eq!(rt; clock.faults(), 0);
    let mut ids = IdsReal::new(rt.clone()?);
    let first = ids.draw();
    let second = ids.draw();
    assert!(rt; first.is_ok() && second.is_ok());
    assert_ne!(rt; first, second);
    assert_eq!(rt; ids.faults(), 0);
    Ok(())
}
