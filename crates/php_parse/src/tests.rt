// Texts, and what is told of them.

use crate::parse;
use php_lexer::lex;
use php_parser::{ParseFault, ParseKind};
use std::alloc::{AllocError, Global};
use std::test::Fail;

// What is told of a text: how many statements and functions it has, or the place of its first fault.
#[derive(Clone, Copy, Debug, PartialEq, Eq)]
enum Told {
    Tree(usize, usize),
    Unexpected(u32),
    LeftOut(u32),
    Depth(u32),
    NoTokens,
    Memory,
}

fn told_of(alloc: Global, text: &[u8]) -> Told {
    if text.len() > 1048576 {
        return Told::Memory;
    }
    let Ok(tokens) = lex(alloc, text) else {
        return Told::NoTokens;
    };
    match parse(alloc, text, &tokens) {
        Ok(tree) => Told::Tree(tree.stmts.len(), tree.functions.len()),
        Err(ParseFault::At { place, kind }) => match kind {
            ParseKind::Unexpected => Told::Unexpected(place),
            ParseKind::LeftOut(_) => Told::LeftOut(place),
            ParseKind::Depth => Told::Depth(place),
        },
        Err(ParseFault::Memory) => Told::Memory,
    }
}

// Whether each text is told as its row says.
fn are_told(alloc: Global, rows: &[(&'static [u8], Told)]) -> bool {
    for (text, told) in rows {
        if told_of(alloc, text) != *told {
            return false;
        }
    }
    true
}

#[test]
fn statements_of_each_form(rt: HostRuntime) -> Result<(), Fail> {
    let rows: [(&'static [u8], Told); 24] = [
        (b"", Told::Tree(0, 0)),
        (b"Hi <?php echo 'x'; ?>\n!", Told::Tree(4, 0)),
        (b"<?= 1, 2 ?>", Told::Tree(1, 0)),
        (b"<?php $a = $b += 1; !$a = f(); -2 * -3;", Told::Tree(3, 0)),
        (
            b"<?php if (1) if (2) echo 3; else echo 4;",
            Told::Tree(1, 0),
        ),
        (
            b"<?php if (1): echo 2; elseif (3): else: echo 4; endif;",
            Told::Tree(1, 0),
        ),
        (
            b"<?php while ($i < 3): for (;;): break 2; endfor; endwhile;",
            Told::Tree(1, 0),
        ),
        (b"<?php do { continue; } while (0); ;", Told::Tree(2, 0)),
        (
            b"<?php foreach ($a as $k => $v) echo \"$k=$v;\";",
            Told::Tree(1, 0),
        ),
        (
            b"<?php switch ($a) { case 1: echo 1; default: echo 2; }",
            Told::Tree(1, 0),
        ),
        (
            b"<?php global $a, $b; static $c = 1, $d; unset($a[1], $b);",
            Told::Tree(3, 0),
        ),
        (
            b"<?php try { throw new Exception('e'); } catch (A | B $e) { echo 1; }",
            Told::Tree(1, 0),
        ),
        (
            b"<?php function f(?int &$a = null, $b = [1, 'k' => 2]): string { return 1; } f();",
            Told::Tree(2, 1),
        ),
        (
            b"<?php abstract class A extends B implements C, D { const K = 1; public static $p = 2, $q; abstract function m(); private function n() {} }",
            Told::Tree(1, 1),
        ),
        (
            b"<?php interface I extends J { const K = 1; function m($a); }",
            Told::Tree(1, 0),
        ),
        (
            b"<?php const A = 1, B = A . 'x'; less_removed('file', 'a.php');",
            Told::Tree(2, 0),
        ),
        (
            b"<?php $a ? $b : $c ? $d : $e; $a ?: $b ?? $c ?? 1;",
            Told::Tree(2, 0),
        ),
        (
            b"<?php (new A($b))->c()->d[1]->e . X::$p[2]; static::x(); X::class;",
            Told::Tree(3, 0),
        ),
        (
            b"<?php echo \"a{$b[c(\"d{$e}f\")]}g$h[i]$j->k\";",
            Told::Tree(1, 0),
        ),
        (
            b"<?php include 'a' . 'b' or exit; print 1 and die(2); clone $a instanceof B;",
            Told::Tree(3, 0),
        ),
        (
            b"<?php (int) $a++ . --$b; @f(); empty($a) xor isset($a, $b->c);",
            Told::Tree(3, 0),
        ),
        (
            b"<?php $a =& $b; $a[] = array(1, 'x' => 2,); $c->list = 1;",
            Told::Tree(3, 0),
        ),
        (
            b"<?php function a() { function b() { return 1; } return 2; } class C { function d() { function e() {} } }",
            Told::Tree(2, 4),
        ),
        (
            b"<?php $f(1)['x']; new $c; A::b()['c']->d; array() == [];",
            Told::Tree(4, 0),
        ),
    ];
    let told = are_told(rt.alloc(), &rows);
    assert!(rt; told);
    Ok(())
}

#[test]
fn the_first_token_that_is_bad(rt: HostRuntime) -> Result<(), Fail> {
    let rows: [(&'static [u8], Told); 17] = [
        (b"<?php echo 1", Told::Unexpected(12)),
        (b"<?php echo ;", Told::Unexpected(11)),
        (b"<?php goto a;", Told::LeftOut(6)),
        (b"<?php 1 == 2 == 3;", Told::Unexpected(13)),
        (b"<?php 1 < 2 < 3;", Told::Unexpected(12)),
        (b"<?php $this = 1;", Told::Unexpected(12)),
        (b"<?php $a[] + 1;", Told::Unexpected(11)),
        (b"<?php f() = 1;", Told::Unexpected(10)),
        (b"<?php class A { const class = 1; }", Told::Unexpected(22)),
        (
            b"<?php class A { public private $a; }",
            Told::Unexpected(23),
        ),
        (
            b"<?php interface I { function m() {} }",
            Told::Unexpected(33),
        ),
        (b"<?php function f(float $a) {}", Told::LeftOut(17)),
        (b"<?php const A = f();", Told::Unexpected(17)),
        (b"<?php try { }", Told::Unexpected(13)),
        (b"<?php echo \"a{$b c}\";", Told::Unexpected(17)),
        (
            b"<?php if (1): echo 2; else if (3): endif;",
            Told::Unexpected(27),
        ),
        (
            b"<?php (new A($b))->c()->d[1]->e = 1;",
            Told::Unexpected(32),
        ),
    ];
    let told = are_told(rt.alloc(), &rows);
    assert!(rt; told);
    Ok(())
}

// An open tag, so many times what opens, what stands inside, and as often what closes; and then a `;`.
fn nested(
    alloc: Global,
    opens: &[u8],
    count: usize,
    inside: &[u8],
    closes: &[u8],
) -> Result<Vec<u8>, AllocError> {
    let mut text = Vec::from_slice(alloc, b"<?php ")?;
    for _ in 0..count {
        text.extend_from_slice(opens)?;
    }
    text.extend_from_slice(inside)?;
    for _ in 0..count {
        text.extend_from_slice(closes)?;
    }
    text.push(b';')?;
    Ok(text)
}

fn is_told(
    alloc: Global,
    opens: &[u8],
    count: usize,
    inside: &[u8],
    closes: &[u8],
    told: Told,
) -> bool {
    match nested(alloc, opens, count, inside, closes) {
        Ok(text) => told_of(alloc, text.as_slice()) == told,
        Err(_) => false,
    }
}

#[test]
fn deep_texts(rt: HostRuntime) -> Result<(), Fail> {
    let alloc = rt.alloc();
    let parens = is_told(alloc, b"(", 198, b"1", b")", Told::Tree(1, 0));
    assert!(rt; parens);
    let parens = is_told(alloc, b"(", 199, b"1", b")", Told::Depth(205));
    assert!(rt; parens);
    let signs = is_told(alloc, b"!", 198, b"1", b"", Told::Tree(1, 0));
    assert!(rt; signs);
    let signs = is_told(alloc, b"!", 199, b"1", b"", Told::Depth(205));
    assert!(rt; signs);
    let blocks = is_told(alloc, b"{", 200, b"", b"}", Told::Tree(2, 0));
    assert!(rt; blocks);
    let blocks = is_told(alloc, b"{", 201, b"", b"}", Told::Depth(206));
    assert!(rt; blocks);
    Ok(())
}

#[test]
fn long_texts(rt: HostRuntime) -> Result<(), Fail> {
    let alloc = rt.alloc();
    let statements = is_told(alloc, b"1;", 10_000, b"", b"", Told::Tree(10_001, 0));
    assert!(rt; statements);
    let operands = is_told(alloc, b"1+", 10_000, b"1", b"", Told::Tree(1, 0));
    assert!(rt; operands);
    let bad = is_told(alloc, b"1;", 5_000, b")", b"", Told::Unexpected(10_006));
    assert!(rt; bad);
    Ok(())
}
