// The bodies of the functions in a tree, in text order.
#![tactic(auto, using(php_tree::proofs::Statements::statements, app_load::proofs::Walks::adds_twice, app_load::proofs::Walks::in_front, app_load::proofs::Walks::goes_on, crate::proofs::Walks::arm_opened, crate::proofs::Walks::case_in_front, crate::proofs::Walks::default_in_front, crate::proofs::Walks::clause_opened, crate::proofs::Walks::class_opened, crate::proofs::Walks::function_opened, crate::proofs::Walks::one_more))]

ghost use Rattle.std.specs.Prelude.{◌≡◌, ℕ, ◌++◌, [], ◌∷◌, OnOk, IfOk};
ghost use Rattle.std.specs.Str.{str_to_ascii_lowercase};
ghost use Rattle.php_tree.specs.Functions.{class_prefix};
ghost use Rattle.php_tree.specs.Parts as parts;
ghost use Rattle.php_tree.specs.StatementOf as tree;
ghost use Rattle.php_tree.specs.Statements.{Arms, Cases, Clauses, Members};
ghost use Rattle.php_tree.specs.declared.stmt.IfArm.{out-IfArm};
ghost use Rattle.php_tree.specs.declared.stmt.Catch.{out-Catch};
ghost use Rattle.app_load.specs.Findings as findings;
ghost use Rattle.php_bodies.specs.Collected.{Adds, bodies_of};

use php_names::LowerName;
use php_tree::decl::{ClassDecl, FunDecl, Member};
use php_tree::stmt::{Catch, IfArm, Stmt, SwitchArm};
use sqlite_items::Items;
use std::alloc::{AllocError, Global};

/// The body of a function or method, under its name in lower case, `class::method` for a method.
#[derive(Drop)]
pub struct Body<'t> {
    pub name: Vec<u8>,
    pub statements: &'t Items<Stmt>,
}

// A name in lower case behind what stands before it.
fn lower_behind(alloc: Global, before: &[u8], name: &[u8]) -> Result<Vec<u8>, AllocError>
    ensures { IfOk result (λ whole. whole.items ≡ before.now ++ str_to_ascii_lowercase name.now) }
{
    let mut lower = LowerName::new(alloc);
    lower.set(name)?;
    let mut whole = Vec::from_slice(alloc, before)?;
    whole.extend_from_slice(lower.as_slice())?;
    Ok(whole)
}

// What stands before the names of a class's methods.
fn method_prefix(alloc: Global, class: &[u8]) -> Result<Vec<u8>, AllocError>
    ensures { IfOk result (λ prefix. prefix.items ≡ class_prefix class.now) }
{
    let mut prefix = lower_behind(alloc, b"", class)?;
    prefix.extend_from_slice(b"::")?;
    Ok(prefix)
}

// A body under its name, alone.
fn note_body<'t>(
    alloc: Global,
    found: &mut Vec<Body<'t>>,
    before: &[u8],
    name: &[u8],
    statements: &'t Items<Stmt>,
) -> Result<(), AllocError>
    ensures { OnOk result (Adds found.old.items found.new.items ((before.now ++ str_to_ascii_lowercase name.now, parts.all_without_bodies (tree.statements_of statements.now)) ∷ [])) }
{
    let name = lower_behind(alloc, before, name)?;
    found.push(Body { name, statements })?;
    Ok(())
}

#[cycle(walk)]
fn collect_function<'t>(
    alloc: Global,
    found: &mut Vec<Body<'t>>,
    before: &[u8],
    function: &'t FunDecl,
) -> Result<(), AllocError>
    ensures { OnOk result (Adds found.old.items found.new.items (parts.function_bodies before.now (tree.function_of function.now))) }
{
    let name = function.name.text.as_slice();
    note_body(alloc, found, before, name, &function.body)?;
    collect_bodies(alloc, found, function.body.as_slice())?;
    Ok(())
}

#[cycle(walk)]
fn collect_member<'t>(
    alloc: Global,
    found: &mut Vec<Body<'t>>,
    before: &[u8],
    member: &'t Member,
) -> Result<(), AllocError>
    ensures { OnOk result ((rest : Members ℕ) → bodies_of found.new.items ++ parts.members_bodies before.now rest ≡ bodies_of found.old.items ++ parts.members_bodies before.now (tree.member_of member.now rest)) }
{
    match member {
        Member::Method(_, function, _) => collect_function(alloc, found, before, function.get())?,
        Member::Constants(_, _) => {}
        Member::Properties(_, _, _) => {}
        Member::Bodiless(_, _, _) => {}
    }
    Ok(())
}

#[cycle(walk)]
fn collect_members<'t>(
    alloc: Global,
    found: &mut Vec<Body<'t>>,
    before: &[u8],
    members: &'t [Member],
) -> Result<(), AllocError>
    ensures { OnOk result (Adds found.old.items found.new.items (parts.members_bodies before.now (tree.members_of members.now))) }
{
    for member in members {
        collect_member(alloc, found, before, member)?;
    }
    Ok(())
}

#[cycle(walk)]
fn collect_class<'t>(
    alloc: Global,
    found: &mut Vec<Body<'t>>,
    class: &'t ClassDecl,
) -> Result<(), AllocError>
    ensures { OnOk result (Adds found.old.items found.new.items (parts.class_bodies (tree.class_of class.now))) }
{
    let before = method_prefix(alloc, class.name.text.as_slice())?;
    collect_members(alloc, found, before.as_slice(), class.members.as_slice())?;
    Ok(())
}

// What an arm guards.
fn arm_body(arm: &IfArm) -> &[Stmt]
    ensures { result.now ≡ findings.arm_body (out-IfArm arm.now) }
{
    match arm {
        IfArm::Arm(_, body) => body.as_slice(),
    }
}

// What is done where a clause catches.
fn clause_body(clause: &Catch) -> &[Stmt]
    ensures { result.now ≡ findings.clause_body (out-Catch clause.now) }
{
    match clause {
        Catch::Clause(_, _, body) => body.as_slice(),
    }
}

#[cycle(walk)]
fn collect_arm<'t>(
    alloc: Global,
    found: &mut Vec<Body<'t>>,
    arm: &'t IfArm,
) -> Result<(), AllocError>
    ensures { OnOk result ((rest : Arms ℕ) → bodies_of found.new.items ++ parts.arms_bodies rest ≡ bodies_of found.old.items ++ parts.arms_bodies (tree.arm_of arm.now rest)) }
{
    collect_bodies(alloc, found, arm_body(arm))?;
    Ok(())
}

#[cycle(walk)]
fn collect_arms<'t>(
    alloc: Global,
    found: &mut Vec<Body<'t>>,
    arms: &'t [IfArm],
) -> Result<(), AllocError>
    ensures { OnOk result (Adds found.old.items found.new.items (parts.arms_bodies (tree.arms_of arms.now))) }
{
    for arm in arms {
        collect_arm(alloc, found, arm)?;
    }
    Ok(())
}

#[cycle(walk)]
fn collect_case<'t>(
    alloc: Global,
    found: &mut Vec<Body<'t>>,
    case: &'t SwitchArm,
) -> Result<(), AllocError>
    ensures { OnOk result ((rest : Cases ℕ) → bodies_of found.new.items ++ parts.cases_bodies rest ≡ bodies_of found.old.items ++ parts.cases_bodies (tree.case_of case.now rest)) }
{
    match case {
        SwitchArm::Case(_, body) => collect_bodies(alloc, found, body.as_slice())?,
        SwitchArm::Default(body) => collect_bodies(alloc, found, body.as_slice())?,
    }
    Ok(())
}

#[cycle(walk)]
fn collect_cases<'t>(
    alloc: Global,
    found: &mut Vec<Body<'t>>,
    cases: &'t [SwitchArm],
) -> Result<(), AllocError>
    ensures { OnOk result (Adds found.old.items found.new.items (parts.cases_bodies (tree.cases_of cases.now))) }
{
    for case in cases {
        collect_case(alloc, found, case)?;
    }
    Ok(())
}

#[cycle(walk)]
fn collect_clause<'t>(
    alloc: Global,
    found: &mut Vec<Body<'t>>,
    clause: &'t Catch,
) -> Result<(), AllocError>
    ensures { OnOk result ((rest : Clauses ℕ) → bodies_of found.new.items ++ parts.clauses_bodies rest ≡ bodies_of found.old.items ++ parts.clauses_bodies (tree.catch_of clause.now rest)) }
{
    collect_bodies(alloc, found, clause_body(clause))?;
    Ok(())
}

#[cycle(walk)]
fn collect_clauses<'t>(
    alloc: Global,
    found: &mut Vec<Body<'t>>,
    clauses: &'t [Catch],
) -> Result<(), AllocError>
    ensures { OnOk result (Adds found.old.items found.new.items (parts.clauses_bodies (tree.clauses_of clauses.now))) }
{
    for clause in clauses {
        collect_clause(alloc, found, clause)?;
    }
    Ok(())
}

#[cycle(walk)]
fn collect_statement<'t>(
    alloc: Global,
    found: &mut Vec<Body<'t>>,
    statement: &'t Stmt,
) -> Result<(), AllocError>
    ensures { OnOk result (Adds found.old.items found.new.items (parts.bodies (tree.statement_of statement.now))) }
{
    match statement {
        Stmt::Block(body, _) => collect_bodies(alloc, found, body.as_slice())?,
        Stmt::If(arms, last, _) => {
            collect_arms(alloc, found, arms.as_slice())?;
            collect_bodies(alloc, found, last.as_slice())?
        }
        Stmt::While(_, body, _)
        | Stmt::Do(body, _, _)
        | Stmt::For(_, _, _, body, _)
        | Stmt::Foreach(_, _, _, body, _) => collect_bodies(alloc, found, body.as_slice())?,
        Stmt::Switch(_, cases, _) => collect_cases(alloc, found, cases.as_slice())?,
        Stmt::Try(body, clauses, _) => {
            collect_bodies(alloc, found, body.as_slice())?;
            collect_clauses(alloc, found, clauses.as_slice())?
        }
        Stmt::Function(function, _) => collect_function(alloc, found, b"", function.get())?,
        Stmt::Class(class, _) => collect_class(alloc, found, class.get())?,
        _ => {}
    }
    Ok(())
}

/// Puts the bodies of the functions in statements behind those that there were.
#[cycle(walk)]
pub fn collect_bodies<'t>(
    alloc: Global,
    found: &mut Vec<Body<'t>>,
    statements: &'t [Stmt],
) -> Result<(), AllocError>
    ensures { OnOk result (Adds found.old.items found.new.items (parts.bodies_in (tree.statements_of statements.now))) }
{
    for statement in statements {
        collect_statement(alloc, found, statement)?;
    }
    Ok(())
}
