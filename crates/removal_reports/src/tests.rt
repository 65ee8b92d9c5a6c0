use crate::{LogFault, log_line, read_log_line};
use app_load::Entry;
use std::alloc::{AllocError, Global};
use std::test::Fail;

fn file(alloc: Global, path: &str) -> Result<Entry, AllocError> {
    Ok(Entry::File {
        path: String::from_str(alloc, path)?,
    })
}

fn function(alloc: Global, path: &str, name: &str) -> Result<Entry, AllocError> {
    Ok(Entry::Function {
        path: String::from_str(alloc, path)?,
        name: String::from_str(alloc, name)?,
    })
}

#[test]
fn a_line_has_seven_fields(rt: HostRuntime) -> Result<(), Fail> {
    let alloc = rt.alloc();
    let entry = file(alloc, "admin/panel.php")?;
    let line = log_line(alloc, 0, "guest", 0, &entry)?;
    assert_eq!(rt;
        line.as_slice(),
        b"removed\t0\tguest\t0\tfile\tadmin/panel.php\t-\n".as_slice()
    );
    let entry = function(alloc, "lib.php", "page::show")?;
    let line = log_line(alloc, u64::MAX, "clerk_2", 255, &entry)?;
    let wanted = b"removed\t18446744073709551615\tclerk_2\t255\tfunction\tlib.php\tpage::show\n";
    assert_eq!(rt; line.as_slice(), wanted.as_slice());
    Ok(())
}

#[test]
fn a_line_is_read_back(rt: HostRuntime) -> Result<(), Fail> {
    let alloc = rt.alloc();
    let entries = [
        file(alloc, "a b.php")?,
        function(alloc, "lib.php", "page::show")?,
        function(alloc, "lib.php", "_f0")?,
    ];
    for entry in &entries {
        let line = log_line(alloc, 1700000000, "clerk", 17, entry)?;
        match read_log_line(alloc, line.as_slice()) {
            Ok(told) => {
                assert_eq!(rt; told.moment, 1700000000);
                assert_eq!(rt; told.role.as_str(), "clerk");
                assert_eq!(rt; told.slot, 17);
                assert!(rt; told.entry == *entry);
            }
            Err(_) => assert!(rt; false),
        }
    }
    Ok(())
}

#[test]
fn other_lines_are_bad(rt: HostRuntime) -> Result<(), Fail> {
    let alloc = rt.alloc();
    let lines: [&[u8]; 18] = [
        b"",
        b"\n",
        b"removed\t0\tguest\t0\tfile\ta.php\t-",
        b"removed\t0\tguest\t0\tfile\ta.php\t-\n\n",
        b"removed\t0\tguest\t0\tfile\ta.php\t-\r\n",
        b"Removed\t0\tguest\t0\tfile\ta.php\t-\n",
        b"removed\t00\tguest\t0\tfile\ta.php\t-\n",
        b"removed\t+1\tguest\t0\tfile\ta.php\t-\n",
        b"removed\t18446744073709551616\tguest\t0\tfile\ta.php\t-\n",
        b"removed\t0\tGuest\t0\tfile\ta.php\t-\n",
        b"removed\t0\tguest\t256\tfile\ta.php\t-\n",
        b"removed\t0\tguest\t0\tclass\ta.php\t-\n",
        b"removed\t0\tguest\t0\tfile\t../a.php\t-\n",
        b"removed\t0\tguest\t0\tfile\ta.php\tf\n",
        b"removed\t0\tguest\t0\tfunction\ta.php\t-\n",
        b"removed\t0\tguest\t0\tfunction\ta.php\tF\n",
        b"removed\t0\tguest\t0\tfile\ta.php\n",
        b"removed\t0\tguest\t0\tfile\ta.php\t-\t\n",
    ];
    for line in &lines {
        assert!(rt; matches!(read_log_line(alloc, line), Err(LogFault::BadLine)));
    }
    Ok(())
}
