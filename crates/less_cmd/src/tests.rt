use super::*;
use less_outside::{FolderMem, SinkMem};
use std::alloc::Global;
use std::test::Fail;

const REQUEST: &[u8] = b"request 18\nGET / HTTP/1.0\r\n\r\n\n";

fn words(alloc: Global, texts: &[&str]) -> Result<Vec<String>, Fail> {
    let mut all = Vec::new(alloc);
    for text in texts {
        all.push(String::from_str(alloc, text)?)?;
    }
    Ok(all)
}

// A folder of one file, and the script `s` of one request.
fn folder(alloc: Global, path: &str, text: &[u8], failing: &[u64]) -> Result<FolderMem, Fail> {
    let mut all = Vec::new(alloc);
    all.push((
        String::from_str(alloc, path)?,
        Vec::from_slice(alloc, text)?,
    ))?;
    all.push((
        String::from_str(alloc, "s")?,
        Vec::from_slice(alloc, REQUEST)?,
    ))?;
    let failing = Vec::from_slice(alloc, failing)?;
    Ok(FolderMem::new(alloc, all, failing)?)
}

// Whether words over a folder of one file end with this status, answer and note.
fn ends(
    alloc: Global,
    texts: &[&str],
    path: &str,
    text: &[u8],
    told: (u8, &[u8], &[u8]),
) -> Result<bool, Fail> {
    let words = words(alloc, texts)?;
    let mut folder = folder(alloc, path, text, &[])?;
    let mut out = SinkMem::new(alloc, 4096, Vec::new(alloc))?;
    let mut notes = SinkMem::new(alloc, 4096, Vec::new(alloc))?;
    let status = less_run(alloc, &words, &mut folder, &mut out, &mut notes);
    Ok(status == told.0 && out.written() == told.1 && notes.written() == told.2)
}

#[test]
fn check_tells_the_size_or_the_first_fault(rt: HostRuntime) -> Result<(), Fail> {
    let alloc = rt.alloc();
    let rows: [(&[u8], (u8, &[u8], &[u8])); 5] = [
        (
            b"<?php\nfunction gone() {\n  echo 1;\n  echo 2;\n}\ntry { throw new Exception('e'); } catch (Exception $e) { echo $e->getLine(); }\n",
            (0, b"ok 1 files 1 functions 6 lines\n", b""),
        ),
        (
            b"<?php\nfunction a() {}\nfunction A() {}\n",
            (3, b"", b"less: app index.php:3: twice a\n"),
        ),
        (
            b"<?php\nfunction Less_Removed() {}\n",
            (
                3,
                b"",
                b"less: app index.php:2: reservedword Less_Removed\n",
            ),
        ),
        (
            b"<?php goto a;",
            (3, b"", b"less: app index.php:1: parse leftout goto\n"),
        ),
        (
            b"<?php\n\necho 1.5;",
            (3, b"", b"less: app index.php:3: lex form float\n"),
        ),
    ];
    for (text, told) in &rows {
        assert!(rt; ends(alloc, &["check"], "app/index.php", text, *told)?);
    }
    Ok(())
}

#[test]
fn play_answers_from_a_plain_page_or_refuses_the_copy(rt: HostRuntime) -> Result<(), Fail> {
    let alloc = rt.alloc();
    let rows: [(&[u8], (u8, &[u8], &[u8])); 5] = [
        (
            b"Hi <?php echo 'x'; // y ?>\n!",
            (
                0,
                b"HTTP/1.1 200 OK\r\nContent-Type: text/html; charset=UTF-8\r\nContent-Length: 5\r\nConnection: close\r\n\r\nHi x!",
                b"",
            ),
        ),
        (b"<?php echo 1;", (1, b"", b"less: not built\n")),
        (
            b"<?php\n1.5;",
            (10, b"", b"less: copy guest index.php:2: badfile\n"),
        ),
        (
            b"<?php\nfunction f() {less_removed('function','index.php','g');}",
            (10, b"", b"less: copy guest index.php:2: placeholder\n"),
        ),
        (
            b"<?php\nfunction f() {less_removed('function','index.php','f');}",
            (1, b"", b"less: not built\n"),
        ),
    ];
    for (text, told) in &rows {
        assert!(rt; ends(alloc, &["play", "s"], "copies/guest/index.php", text, *told)?);
    }
    Ok(())
}

#[test]
fn other_words_and_paths_are_told_apart(rt: HostRuntime) -> Result<(), Fail> {
    let alloc = rt.alloc();
    let not_built: (u8, &[u8], &[u8]) = (1, b"", b"less: not built\n");
    let path = "copies/guest/index.php";
    assert!(rt; ends(alloc, &[], path, b"x", not_built)?);
    assert!(rt; ends(alloc, &["Check"], path, b"x", not_built)?);
    assert!(rt; ends(alloc, &["play", "t"], path, b"x", not_built)?);
    assert!(rt; ends(alloc, &["play", path], path, b"x", not_built)?);
    assert!(rt; ends(alloc, &["play", "s"], "copies/guest/b.php", b"x", not_built)?);
    assert!(rt;
        ends(
            alloc,
            &["check"],
            "app/.a/b.php",
            b"<?php 1.5;",
            (0, b"ok 0 files 0 functions 0 lines\n", b"")
        )?
    );
    assert!(rt;
        ends(
            alloc,
            &["check"],
            "app/a'b.php",
            b"",
            (3, b"", b"less: app :0: limit path\n")
        )?
    );
    assert!(rt;
        ends(
            alloc,
            &["play", "s"],
            "copies/guest/a'b.php",
            b"",
            (10, b"", b"less: copy guest :0: badfile\n")
        )?
    );
    Ok(())
}

// The status of words whose folder fails at a call, or whose output takes so many bytes.
fn fails(alloc: Global, texts: &[&str], failing: &[u64], room: usize) -> Result<u8, Fail> {
    let words = words(alloc, texts)?;
    let mut folder = folder(alloc, "app/index.php", b"x", failing)?;
    let mut out = SinkMem::new(alloc, room, Vec::new(alloc))?;
    let mut notes = SinkMem::new(alloc, 4096, Vec::new(alloc))?;
    Ok(less_run(alloc, &words, &mut folder, &mut out, &mut notes))
}

#[test]
fn each_fault_of_the_outside_has_its_own_status(rt: HostRuntime) -> Result<(), Fail> {
    let alloc = rt.alloc();
    assert_eq!(rt; fails(alloc, &["check"], &[0], 4096)?, 6);
    assert_eq!(rt; fails(alloc, &["check"], &[1], 4096)?, 6);
    assert_eq!(rt; fails(alloc, &["play", "s"], &[0], 4096)?, 6);
    assert_eq!(rt; fails(alloc, &["play", "s"], &[1], 4096)?, 6);
    assert_eq!(rt; fails(alloc, &["check"], &[], 30)?, 7);
    assert_eq!(rt; fails(alloc, &["check"], &[], 31)?, 0);
    Ok(())
}
