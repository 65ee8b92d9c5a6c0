// The walk over a tree that finds functions, in text order.
#![tactic(auto, using(php_tree::proofs::Statements::statements, crate::proofs::Walks::adds_twice, crate::proofs::Walks::in_front, crate::proofs::Walks::goes_on, crate::proofs::Walks::arm_opened, crate::proofs::Walks::case_in_front, crate::proofs::Walks::default_in_front, crate::proofs::Walks::clause_opened, crate::proofs::Walks::class_opened))]

ghost use Rattle.std.specs.Prelude.{◌≡◌, ℕ, ◌++◌, ◌+◌, [], ◌∷◌, map, OnOk, IfOk};
ghost use Rattle.std.specs.Str.{str_to_ascii_lowercase};
ghost use Rattle.php_tree.specs.StatementOf as tree;
ghost use Rattle.php_tree.specs.Statements.{Arms, Cases, Clauses, Members};
ghost use Rattle.php_tree.specs.Functions as spec;
ghost use Rattle.php_tree.specs.declared.stmt.IfArm.{out-IfArm};
ghost use Rattle.php_tree.specs.declared.stmt.Catch.{out-Catch};
ghost use Rattle.php_functions.specs.Bodies as bodies;

use php_tree::decl::{ClassDecl, FunDecl, Member};
use php_tree::file::Span;
use php_tree::stmt::{Catch, IfArm, Stmt, SwitchArm};
use sqlite_items::Items;
use std::alloc::{AllocError, Global};

/// A function's name and where its body stands.
pub type Found = (Items<u8>, Span);

// Puts a word behind the bytes, in lower case.
fn push_lower(bytes: &mut Vec<u8>, word: &[u8]) -> Result<(), AllocError>
    ensures { OnOk result (bytes.new.items ≡ bytes.old.items ++ str_to_ascii_lowercase word.now) }
{
    for byte in word {
        bytes.push(byte.to_ascii_lowercase())?;
    }
    Ok(())
}

// What stands before the names of a class's methods.
fn class_prefix(alloc: Global, name: &[u8]) -> Result<Vec<u8>, AllocError>
    ensures { IfOk result (λ prefix. prefix.items ≡ spec.class_prefix name.now) }
{
    let mut prefix = Vec::new(alloc);
    push_lower(&mut prefix, name)?;
    prefix.push(b':')?;
    prefix.push(b':')?;
    Ok(prefix)
}

// A function's name behind what stands before it.
fn entry_name(alloc: Global, before: &[u8], name: &[u8]) -> Result<Items<u8>, AllocError>
    ensures { IfOk result (λ entry. entry ≡ before.now ++ str_to_ascii_lowercase name.now) }
{
    let mut entry = Vec::new(alloc);
    entry.extend_from_slice(before)?;
    push_lower(&mut entry, name)?;
    Ok(Items::from_vec(entry))
}

#[cycle(walk)]
fn find_function(
    alloc: Global,
    found: &mut Vec<Found>,
    before: &[u8],
    function: &FunDecl,
) -> Result<(), AllocError>
    ensures { OnOk result (found.new.items ≡ found.old.items ++ spec.function_spans before.now (tree.function_of function.now)) }
{
    let name = entry_name(alloc, before, function.name.text.as_slice())?;
    found.push((name, function.body_span))?;
    find_statements(alloc, found, function.body.as_slice())?;
    Ok(())
}

#[cycle(walk)]
fn find_member(
    alloc: Global,
    found: &mut Vec<Found>,
    before: &[u8],
    member: &Member,
) -> Result<(), AllocError>
    ensures { OnOk result ((rest : Members ℕ) → found.new.items ++ spec.members_spans before.now rest ≡ found.old.items ++ spec.members_spans before.now (tree.member_of member.now rest)) }
{
    match member {
        Member::Constants(_, _) | Member::Properties(_, _, _) | Member::Bodiless(_, _, _) => {}
        Member::Method(_, function, _) => find_function(alloc, found, before, function.get())?,
    }
    Ok(())
}

#[cycle(walk)]
fn find_members(
    alloc: Global,
    found: &mut Vec<Found>,
    before: &[u8],
    members: &[Member],
) -> Result<(), AllocError>
    ensures { OnOk result (found.new.items ≡ found.old.items ++ spec.members_spans before.now (tree.members_of members.now)) }
{
    for member in members {
        find_member(alloc, found, before, member)?;
    }
    Ok(())
}

#[cycle(walk)]
fn find_class(alloc: Global, found: &mut Vec<Found>, class: &ClassDecl) -> Result<(), AllocError>
    ensures { OnOk result (found.new.items ≡ found.old.items ++ spec.class_spans (tree.class_of class.now)) }
{
    let before = class_prefix(alloc, class.name.text.as_slice())?;
    find_members(alloc, found, before.as_slice(), class.members.as_slice())?;
    Ok(())
}

// What an arm guards.
fn arm_body(arm: &IfArm) -> &[Stmt]
    ensures { result.now ≡ bodies.arm_body (out-IfArm arm.now) }
{
    match arm {
        IfArm::Arm(_, body) => body.as_slice(),
    }
}

// What is done where a clause catches.
fn clause_body(clause: &Catch) -> &[Stmt]
    ensures { result.now ≡ bodies.clause_body (out-Catch clause.now) }
{
    match clause {
        Catch::Clause(_, _, body) => body.as_slice(),
    }
}

#[cycle(walk)]
fn find_arm(alloc: Global, found: &mut Vec<Found>, arm: &IfArm) -> Result<(), AllocError>
    ensures { OnOk result ((rest : Arms ℕ) → found.new.items ++ spec.arms_spans rest ≡ found.old.items ++ spec.arms_spans (tree.arm_of arm.now rest)) }
{
    find_statements(alloc, found, arm_body(arm))?;
    Ok(())
}

#[cycle(walk)]
fn find_arms(alloc: Global, found: &mut Vec<Found>, arms: &[IfArm]) -> Result<(), AllocError>
    ensures { OnOk result (found.new.items ≡ found.old.items ++ spec.arms_spans (tree.arms_of arms.now)) }
{
    for arm in arms {
        find_arm(alloc, found, arm)?;
    }
    Ok(())
}

#[cycle(walk)]
fn find_case(alloc: Global, found: &mut Vec<Found>, case: &SwitchArm) -> Result<(), AllocError>
    ensures { OnOk result ((rest : Cases ℕ) → found.new.items ++ spec.cases_spans rest ≡ found.old.items ++ spec.cases_spans (tree.case_of case.now rest)) }
{
    match case {
        SwitchArm::Case(_, body) => find_statements(alloc, found, body.as_slice())?,
        SwitchArm::Default(body) => find_statements(alloc, found, body.as_slice())?,
    }
    Ok(())
}

#[cycle(walk)]
fn find_cases(alloc: Global, found: &mut Vec<Found>, cases: &[SwitchArm]) -> Result<(), AllocError>
    ensures { OnOk result (found.new.items ≡ found.old.items ++ spec.cases_spans (tree.cases_of cases.now)) }
{
    for case in cases {
        find_case(alloc, found, case)?;
    }
    Ok(())
}

#[cycle(walk)]
fn find_clause(alloc: Global, found: &mut Vec<Found>, clause: &Catch) -> Result<(), AllocError>
    ensures { OnOk result ((rest : Clauses ℕ) → found.new.items ++ spec.clauses_spans rest ≡ found.old.items ++ spec.clauses_spans (tree.catch_of clause.now rest)) }
{
    find_statements(alloc, found, clause_body(clause))?;
    Ok(())
}

#[cycle(walk)]
fn find_clauses(alloc: Global, found: &mut Vec<Found>, clauses: &[Catch]) -> Result<(), AllocError>
    ensures { OnOk result (found.new.items ≡ found.old.items ++ spec.clauses_spans (tree.clauses_of clauses.now)) }
{
    for clause in clauses {
        find_clause(alloc, found, clause)?;
    }
    Ok(())
}

#[cycle(walk)]
fn find_statement(alloc: Global, found: &mut Vec<Found>, statement: &Stmt) -> Result<(), AllocError>
    ensures { OnOk result (found.new.items ≡ found.old.items ++ spec.spans (tree.statement_of statement.now)) }
{
    match statement {
        Stmt::Block(body, _)
        | Stmt::While(_, body, _)
        | Stmt::Do(body, _, _)
        | Stmt::For(_, _, _, body, _)
        | Stmt::Foreach(_, _, _, body, _) => find_statements(alloc, found, body.as_slice())?,
        Stmt::If(arms, last, _) => {
            find_arms(alloc, found, arms.as_slice())?;
            find_statements(alloc, found, last.as_slice())?
        }
        Stmt::Switch(_, cases, _) => find_cases(alloc, found, cases.as_slice())?,
        Stmt::Try(body, clauses, _) => {
            find_statements(alloc, found, body.as_slice())?;
            find_clauses(alloc, found, clauses.as_slice())?
        }
        Stmt::Function(function, _) => find_function(alloc, found, b"", function.get())?,
        Stmt::Class(class, _) => find_class(alloc, found, class.get())?,
        _ => {}
    }
    Ok(())
}

/// Puts the functions of statements behind those that there were.
#[cycle(walk)]
pub fn find_statements(
    alloc: Global,
    found: &mut Vec<Found>,
    statements: &[Stmt],
) -> Result<(), AllocError>
    ensures { OnOk result (found.new.items ≡ found.old.items ++ spec.spans_in (tree.statements_of statements.now)) }
{
    for statement in statements {
        find_statement(alloc, found, statement)?;
    }
    Ok(())
}
