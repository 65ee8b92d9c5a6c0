use crate::{Roles, RolesFault, read_roles, role_held};
use order_map::{ByteText, Key, OrderMap};
use php_values::{ArrayValue, Value};
use session_book::{Session, SessionValue, from_array};
use std::alloc::Global;
use std::test::Fail;

const SAMPLE: &str = r#"
guest = "visitor"
roles = ["admin", "clerk", "visitor"]

[users]
"zoe" = "admin"
anna = "clerk"
"" = "visitor"

[keep]
clerk = ["index.php", "lib/a.php#f", "lib/a.php#c::go", "b.php#*"]
admin = []
"#;

fn session(alloc: Global, user: &[u8], born: u32) -> Result<Session, Fail> {
    let mut map = OrderMap::new(alloc);
    let key = Key::Text(ByteText::from_slice(alloc, b"user")?);
    let _ = map.set(key, Value::Bytes(ByteText::from_slice(alloc, user)?))?;
    let value = from_array(alloc, &ArrayValue::new(alloc, map)?)?;
    Ok(Session {
        draw: 1,
        last: 0,
        born,
        value,
    })
}

/// The name of a fault, and what it carries.
fn told(alloc: Global, text: &str) -> Result<String, Fail> {
    let fault = match read_roles(alloc, text.as_bytes()) {
        Ok(_) => return Ok(String::from_str(alloc, "ok")?),
        Err(fault) => fault,
    };
    let text = match &fault {
        RolesFault::BadToml => format!(in alloc; "badtoml")?,
        RolesFault::NoGuest => format!(in alloc; "noguest")?,
        RolesFault::UnknownRole(name) => format!(in alloc; "unknownrole {name}")?,
        RolesFault::Twice(name) => format!(in alloc; "twice {name}")?,
        RolesFault::BadForm(key) => format!(in alloc; "badform {key}")?,
        RolesFault::UnknownEntry(text) => format!(in alloc; "unknownentry {text}")?,
        RolesFault::Memory => format!(in alloc; "memory")?,
    };
    Ok(text)
}

#[test]
fn a_file_of_roles_is_read(rt: HostRuntime) -> Result<(), Fail> {
    let alloc = rt.alloc();
    let Ok(roles) = read_roles(alloc, SAMPLE.as_bytes()) else {
        assert!(rt; false);
        return Ok(());
    };
    assert!(rt; roles.names.len() == 3 && roles.guest == 3);
    assert!(rt; roles.names[0].as_str() == "admin" && roles.names[2].as_str() == "visitor");
    assert!(rt; roles.users.len() == 3);
    assert!(rt; roles.users[0].0.as_str() == "" && roles.users[0].1 == 3);
    assert!(rt; roles.users[1].0.as_str() == "anna" && roles.users[1].1 == 2);
    assert!(rt; roles.users[2].0.as_str() == "zoe" && roles.users[2].1 == 1);
    assert!(rt; roles.keep.len() == 2 && roles.keep[0].0 == 1 && roles.keep[0].1.is_empty());
    assert!(rt; roles.keep[1].0 == 2 && roles.keep[1].1.len() == 4);
    assert!(rt; roles.keep[1].1[1].as_str() == "lib/a.php#f");
    Ok(())
}

#[test]
fn refusals_in_their_order(rt: HostRuntime) -> Result<(), Fail> {
    let alloc = rt.alloc();
    let cases = [
        ("", "badform roles"),
        ("roles = [", "badtoml"),
        ("guest = \"a\"\nguest = \"a\"\nroles = [\"a\"]", "badtoml"),
        ("guest = \"a\"\nroles = [\"a\"]\nextra = 1", "badform extra"),
        ("extra = 1\nroles = 2", "badform extra"),
        ("zeta = 1", "badform roles"),
        ("guest = 1\nroles = [\"a\"]", "badform guest"),
        ("guest = \"A\"\nroles = [\"a\"]", "badform guest"),
        ("guest = \"a\"\nroles = []", "badform roles"),
        ("guest = \"a\"\nroles = [\"a\", 1]", "badform roles"),
        ("guest = \"a\"\nroles = [\"a\"]\nusers = 1", "badform users"),
        ("roles = [\"a\", \"a\"]\n[users]\nu = 1", "badform users"),
        (
            "guest = \"a\"\nroles = [\"a\"]\n[keep]\na = \"x\"",
            "badform keep",
        ),
        (
            "guest = \"a\"\nroles = [\"a\"]\n[keep]\na = [\"/x\"]",
            "badform keep",
        ),
        (
            "guest = \"a\"\nroles = [\"a\"]\n[keep]\na = [\"x#F\"]",
            "badform keep",
        ),
        (
            "guest = \"a\"\nroles = [\"a\"]\n[keep]\nA = []",
            "badform keep",
        ),
        ("roles = [\"a\", \"a\"]", "noguest"),
        (
            "guest = \"b\"\nroles = [\"a\", \"c\", \"c\", \"a\"]",
            "twice c",
        ),
        (
            "roles = [\"guest\", \"guest\"]\nguest = \"guest\"",
            "twice guest",
        ),
        (
            "guest = \"b\"\nroles = [\"a\"]\nusers = { u = \"c\" }",
            "unknownrole b",
        ),
        (
            "guest = \"a\"\nroles = [\"a\"]\n[users]\nz = \"c\"\nb = \"d\"\n[keep]\ne = []",
            "unknownrole d",
        ),
        (
            "guest = \"a\"\nroles = [\"a\"]\n[keep]\nf = []\ne = []",
            "unknownrole e",
        ),
        ("guest = \"a\"\nroles = [\"a\"]", "ok"),
    ];
    for (text, expected) in cases {
        assert!(rt; told(alloc, text)?.as_str() == expected);
    }
    Ok(())
}

#[test]
fn counts_lengths_and_bytes(rt: HostRuntime) -> Result<(), Fail> {
    let alloc = rt.alloc();
    let mut names = String::from_str(alloc, "\"guest\"")?;
    for letter in "abcdefghijklmno".chars() {
        names = format!(in alloc; "{names}, \"{letter}\"")?;
    }
    let text = format!(in alloc; "guest = \"guest\"\nroles = [{names}]")?;
    assert!(rt; told(alloc, text.as_str())?.as_str() == "ok");
    let text = format!(in alloc; "guest = \"guest\"\nroles = [{names}, \"p\"]")?;
    assert!(rt; told(alloc, text.as_str())?.as_str() == "badform roles");
    let long = "abcdefghijklmnopqrstuvwxyz012345";
    let text = format!(in alloc; "guest = \"{long}\"\nroles = [\"{long}\"]")?;
    assert!(rt; told(alloc, text.as_str())?.as_str() == "ok");
    let text = format!(in alloc; "guest = \"{long}6\"\nroles = [\"{long}\"]")?;
    assert!(rt; told(alloc, text.as_str())?.as_str() == "badform guest");
    assert!(rt;
        matches!(
            read_roles(alloc, b"roles = [\"\xff\"]"),
            Err(RolesFault::BadToml)
        )
    );
    Ok(())
}

#[test]
fn a_long_file_is_not_read(rt: HostRuntime) -> Result<(), Fail> {
    let alloc = rt.alloc();
    let bytes = vec![in alloc; b'['; (1 << 20) + 1]?;
    let Err(RolesFault::BadForm(key)) = read_roles(alloc, bytes.as_slice()) else {
        assert!(rt; false);
        return Ok(());
    };
    assert!(rt; key.as_str() == "length");
    Ok(())
}

#[test]
fn the_role_held(rt: HostRuntime) -> Result<(), Fail> {
    let alloc = rt.alloc();
    let Ok(roles) = read_roles(alloc, SAMPLE.as_bytes()) else {
        assert!(rt; false);
        return Ok(());
    };
    assert!(rt; role_held(&roles, 1, 9, None) == 3);
    let anna = session(alloc, b"anna", 4)?;
    let cases = [
        (0, 9, 2),
        (1, 5, 1),
        (1, 4, 2),
        (1, 3, 2),
        (3, 5, 3),
        (4, 5, 2),
        (127, 5, 2),
    ];
    for (pin, change, expected) in cases {
        assert!(rt; role_held(&roles, pin, change, Some(&anna)) == expected);
    }
    assert!(rt; role_held(&roles, 0, 0, Some(&session(alloc, b"ann", 0)?)) == 3);
    let nobody = Session {
        draw: 1,
        last: 0,
        born: 0,
        value: SessionValue::new(alloc),
    };
    assert!(rt; role_held(&roles, 0, 0, Some(&nobody)) == 3);
    let guest = Roles::guest_only(alloc)?;
    assert!(rt; guest.names.len() == 1 && role_held(&guest, 0, 0, Some(&anna)) == 1);
    Ok(())
}
