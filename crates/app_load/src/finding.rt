// What the static rules look at, collected from a tree in text order.
#![tactic(auto, using(php_tree::proofs::Statements::statements, crate::proofs::Walks::adds_twice, crate::proofs::Walks::in_front, crate::proofs::Walks::goes_on, crate::proofs::Walks::arm_opened, crate::proofs::Walks::case_in_front, crate::proofs::Walks::default_in_front, crate::proofs::Walks::clause_opened, crate::proofs::Walks::class_opened))]

ghost use Rattle.std.specs.Prelude.{◌≡◌, ℕ, ◌++◌, ◌+◌, [], ◌∷◌, map, OnOk};
ghost use Rattle.php_tree.specs.Renamed.{name_at};
ghost use Rattle.php_tree.specs.StatementOf as tree;
ghost use Rattle.php_tree.specs.Statements.{Arms, Cases, Clauses, Members};
ghost use Rattle.php_tree.specs.declared.stmt.IfArm.{out-IfArm};
ghost use Rattle.php_tree.specs.declared.stmt.Catch.{out-Catch};
ghost use Rattle.app_load.specs.Findings as spec;

use php_tree::decl::{ClassConst, ClassDecl, FunDecl, Member, Param, PropertyDecl, Signature};
use php_tree::name::{FunName, VarName};
use php_tree::stmt::{Catch, IfArm, Stmt, SwitchArm};
use sqlite_items::at;
use std::alloc::AllocError;

/// What a name is declared as.
#[derive(Clone, Copy, Debug, PartialEq, Eq)]
pub enum Sort {
    /// A function outside classes.
    Function,
    /// A class or an interface.
    Class,
    Constant,
    Property,
    Method,
    Parameter,
}

/// A name that is declared, and the class and function in which it stands, empty where in none.
#[derive(Clone, Copy, Debug)]
pub struct Name<'t> {
    pub sort: Sort,
    pub class: &'t [u8],
    pub function: &'t [u8],
    pub word: &'t [u8],
    /// The line of the name, from 1.
    pub line: u32,
}

#[derive(Clone, Copy, Debug)]
pub enum Finding<'t> {
    Declares(Name<'t>),
    /// A jump on this line by 0 or by more than the loops and switches around it.
    Leaves(u32),
}

// One more loop or switch. A tree is never so deep that the count ends; that it did would count as want of memory.
fn deeper(depth: u32) -> Result<u32, AllocError>
    ensures { OnOk result (result ≡ Ok (depth + 1)) }
{
    match depth.checked_add(1) {
        Some(more) => Ok(more),
        None => Err(AllocError),
    }
}

// The name of a variable, by its number.
fn variable_text(variables: &[VarName], number: u32) -> &[u8]
    ensures { result.now ≡ name_at variables.now number }
{
    match at(variables, number as usize) {
        Some(name) => name.text.as_slice(),
        None => b"",
    }
}

fn find_jump(
    found: &mut Vec<Finding<'_>>,
    depth: u32,
    number: i64,
    line: u32,
) -> Result<(), AllocError>
    ensures { OnOk result (spec.Adds found.old.items found.new.items (spec.jump depth number line)) }
{
    if number < 1 || number > depth as i64 {
        found.push(Finding::Leaves(line))?;
    }
    Ok(())
}

fn find_name<'t>(found: &mut Vec<Finding<'t>>, name: Name<'t>) -> Result<(), AllocError>
    ensures { OnOk result (spec.Adds found.old.items found.new.items (spec.declares (spec.name_of name.entry) ∷ [])) }
{
    found.push(Finding::Declares(name))?;
    Ok(())
}

fn find_parameters<'t>(
    found: &mut Vec<Finding<'t>>,
    variables: &'t [VarName],
    class: &'t [u8],
    function: &'t [u8],
    params: &'t [Param],
) -> Result<(), AllocError>
    ensures { OnOk result (spec.Adds found.old.items found.new.items (map (spec.parameter (name_at variables.now) class.now function.now) (map tree.parameter_of params.now))) }
{
    for param in params {
        let word = variable_text(variables, param.variable);
        let name = Name {
            sort: Sort::Parameter,
            class,
            function,
            word,
            line: param.line,
        };
        find_name(found, name)?;
    }
    Ok(())
}

// A function or method, and its parameters.
fn find_head<'t>(
    found: &mut Vec<Finding<'t>>,
    variables: &'t [VarName],
    sort: Sort,
    class: &'t [u8],
    function: &'t FunName,
    params: &'t [Param],
) -> Result<(), AllocError>
    ensures { OnOk result (spec.Adds found.old.items found.new.items (spec.declares (record { sort = sort; class = class.now; function = []; word = function.now.text; line = function.now.line }) ∷ map (spec.parameter (name_at variables.now) class.now function.now.text) (map tree.parameter_of params.now))) }
{
    let word = function.text.as_slice();
    let name = Name {
        sort,
        class,
        function: b"",
        word,
        line: function.line,
    };
    find_name(found, name)?;
    find_parameters(found, variables, class, word, params)?;
    Ok(())
}

fn find_constants<'t>(
    found: &mut Vec<Finding<'t>>,
    class: &'t [u8],
    constants: &'t [ClassConst],
) -> Result<(), AllocError>
    ensures { OnOk result (spec.Adds found.old.items found.new.items (map (spec.constant class.now) (map tree.class_constant_of constants.now))) }
{
    for constant in constants {
        let name = Name {
            sort: Sort::Constant,
            class,
            function: b"",
            word: constant.name.text.as_slice(),
            line: constant.name.line,
        };
        find_name(found, name)?;
    }
    Ok(())
}

fn find_properties<'t>(
    found: &mut Vec<Finding<'t>>,
    class: &'t [u8],
    properties: &'t [PropertyDecl],
) -> Result<(), AllocError>
    ensures { OnOk result (spec.Adds found.old.items found.new.items (map (spec.property class.now) (map tree.property_of properties.now))) }
{
    for property in properties {
        let name = Name {
            sort: Sort::Property,
            class,
            function: b"",
            word: property.name.text.as_slice(),
            line: property.name.line,
        };
        find_name(found, name)?;
    }
    Ok(())
}

// A method without a body.
fn find_signature<'t>(
    found: &mut Vec<Finding<'t>>,
    variables: &'t [VarName],
    class: &'t [u8],
    signature: &'t Signature,
) -> Result<(), AllocError>
    ensures { OnOk result (spec.Adds found.old.items found.new.items (spec.head (name_at variables.now) Sort.Method class.now (tree.head_of signature.now))) }
{
    let params = signature.params.as_slice();
    find_head(
        found,
        variables,
        Sort::Method,
        class,
        &signature.name,
        params,
    )?;
    Ok(())
}

#[cycle(walk)]
fn find_function<'t>(
    found: &mut Vec<Finding<'t>>,
    variables: &'t [VarName],
    sort: Sort,
    class: &'t [u8],
    function: &'t FunDecl,
) -> Result<(), AllocError>
    ensures { OnOk result (spec.Adds found.old.items found.new.items (spec.function_findings (name_at variables.now) sort class.now (tree.function_of function.now))) }
{
    let params = function.params.as_slice();
    find_head(found, variables, sort, class, &function.name, params)?;
    find_statements(found, variables, 0, function.body.as_slice())?;
    Ok(())
}

#[cycle(walk)]
fn find_member<'t>(
    found: &mut Vec<Finding<'t>>,
    variables: &'t [VarName],
    class: &'t [u8],
    member: &'t Member,
) -> Result<(), AllocError>
    ensures { OnOk result ((rest : Members ℕ) → spec.findings_of found.new.items ++ spec.members_findings (name_at variables.now) class.now rest ≡ spec.findings_of found.old.items ++ spec.members_findings (name_at variables.now) class.now (tree.member_of member.now rest)) }
{
    match member {
        Member::Constants(constants, _) => find_constants(found, class, constants.as_slice())?,
        Member::Properties(_, properties, _) => find_properties(
            found,
            class,
            properties.as_slice(),
        )?,
        Member::Method(_, function, _) => find_function(
            found,
            variables,
            Sort::Method,
            class,
            function.get(),
        )?,
        Member::Bodiless(_, signature, _) => find_signature(
            found,
            variables,
            class,
            signature.get(),
        )?,
    }
    Ok(())
}

#[cycle(walk)]
fn find_members<'t>(
    found: &mut Vec<Finding<'t>>,
    variables: &'t [VarName],
    class: &'t [u8],
    members: &'t [Member],
) -> Result<(), AllocError>
    ensures { OnOk result (spec.Adds found.old.items found.new.items (spec.members_findings (name_at variables.now) class.now (tree.members_of members.now))) }
{
    for member in members {
        find_member(found, variables, class, member)?;
    }
    Ok(())
}

#[cycle(walk)]
fn find_class<'t>(
    found: &mut Vec<Finding<'t>>,
    variables: &'t [VarName],
    class: &'t ClassDecl,
) -> Result<(), AllocError>
    ensures { OnOk result (spec.Adds found.old.items found.new.items (spec.class_findings (name_at variables.now) (tree.class_of class.now))) }
{
    let word = class.name.text.as_slice();
    let name = Name {
        sort: Sort::Class,
        class: b"",
        function: b"",
        word,
        line: class.name.line,
    };
    find_name(found, name)?;
    find_members(found, variables, word, class.members.as_slice())?;
    Ok(())
}

// What an arm guards.
fn arm_body(arm: &IfArm) -> &[Stmt]
    ensures { result.now ≡ spec.arm_body (out-IfArm arm.now) }
{
    match arm {
        IfArm::Arm(_, body) => body.as_slice(),
    }
}

// What is done where a clause catches.
fn clause_body(clause: &Catch) -> &[Stmt]
    ensures { result.now ≡ spec.clause_body (out-Catch clause.now) }
{
    match clause {
        Catch::Clause(_, _, body) => body.as_slice(),
    }
}

#[cycle(walk)]
fn find_arm<'t>(
    found: &mut Vec<Finding<'t>>,
    variables: &'t [VarName],
    depth: u32,
    arm: &'t IfArm,
) -> Result<(), AllocError>
    ensures { OnOk result ((rest : Arms ℕ) → spec.findings_of found.new.items ++ spec.arms_findings (name_at variables.now) depth rest ≡ spec.findings_of found.old.items ++ spec.arms_findings (name_at variables.now) depth (tree.arm_of arm.now rest)) }
{
    find_statements(found, variables, depth, arm_body(arm))?;
    Ok(())
}

#[cycle(walk)]
fn find_arms<'t>(
    found: &mut Vec<Finding<'t>>,
    variables: &'t [VarName],
    depth: u32,
    arms: &'t [IfArm],
) -> Result<(), AllocError>
    ensures { OnOk result (spec.Adds found.old.items found.new.items (spec.arms_findings (name_at variables.now) depth (tree.arms_of arms.now))) }
{
    for arm in arms {
        find_arm(found, variables, depth, arm)?;
    }
    Ok(())
}

#[cycle(walk)]
fn find_case<'t>(
    found: &mut Vec<Finding<'t>>,
    variables: &'t [VarName],
    depth: u32,
    case: &'t SwitchArm,
) -> Result<(), AllocError>
    ensures { OnOk result ((rest : Cases ℕ) → spec.findings_of found.new.items ++ spec.cases_findings (name_at variables.now) depth rest ≡ spec.findings_of found.old.items ++ spec.cases_findings (name_at variables.now) depth (tree.case_of case.now rest)) }
{
    match case {
        SwitchArm::Case(_, body) => find_statements(found, variables, depth, body.as_slice())?,
        SwitchArm::Default(body) => find_statements(found, variables, depth, body.as_slice())?,
    }
    Ok(())
}

#[cycle(walk)]
fn find_cases<'t>(
    found: &mut Vec<Finding<'t>>,
    variables: &'t [VarName],
    depth: u32,
    cases: &'t [SwitchArm],
) -> Result<(), AllocError>
    ensures { OnOk result (spec.Adds found.old.items found.new.items (spec.cases_findings (name_at variables.now) depth (tree.cases_of cases.now))) }
{
    for case in cases {
        find_case(found, variables, depth, case)?;
    }
    Ok(())
}

#[cycle(walk)]
fn find_clause<'t>(
    found: &mut Vec<Finding<'t>>,
    variables: &'t [VarName],
    depth: u32,
    clause: &'t Catch,
) -> Result<(), AllocError>
    ensures { OnOk result ((rest : Clauses ℕ) → spec.findings_of found.new.items ++ spec.clauses_findings (name_at variables.now) depth rest ≡ spec.findings_of found.old.items ++ spec.clauses_findings (name_at variables.now) depth (tree.catch_of clause.now rest)) }
{
    find_statements(found, variables, depth, clause_body(clause))?;
    Ok(())
}

#[cycle(walk)]
fn find_clauses<'t>(
    found: &mut Vec<Finding<'t>>,
    variables: &'t [VarName],
    depth: u32,
    clauses: &'t [Catch],
) -> Result<(), AllocError>
    ensures { OnOk result (spec.Adds found.old.items found.new.items (spec.clauses_findings (name_at variables.now) depth (tree.clauses_of clauses.now))) }
{
    for clause in clauses {
        find_clause(found, variables, depth, clause)?;
    }
    Ok(())
}

#[cycle(walk)]
fn find_statement<'t>(
    found: &mut Vec<Finding<'t>>,
    variables: &'t [VarName],
    depth: u32,
    statement: &'t Stmt,
) -> Result<(), AllocError>
    ensures { OnOk result (spec.Adds found.old.items found.new.items (spec.findings (name_at variables.now) depth (tree.statement_of statement.now))) }
{
    match statement {
        Stmt::Block(body, _) => find_statements(found, variables, depth, body.as_slice())?,
        Stmt::If(arms, last, _) => {
            find_arms(found, variables, depth, arms.as_slice())?;
            find_statements(found, variables, depth, last.as_slice())?
        }
        Stmt::While(_, body, _)
        | Stmt::Do(body, _, _)
        | Stmt::For(_, _, _, body, _)
        | Stmt::Foreach(_, _, _, body, _) => {
            find_statements(found, variables, deeper(depth)?, body.as_slice())?
        }
        Stmt::Switch(_, cases, _) => find_cases(
            found,
            variables,
            deeper(depth)?,
            cases.as_slice(),
        )?,
        Stmt::Break(number, line) | Stmt::Continue(number, line) => find_jump(
            found, depth, *number, *line,
        )?,
        Stmt::Try(body, clauses, _) => {
            find_statements(found, variables, depth, body.as_slice())?;
            find_clauses(found, variables, depth, clauses.as_slice())?
        }
        Stmt::Function(function, _) => find_function(
            found,
            variables,
            Sort::Function,
            b"",
            function.get(),
        )?,
        Stmt::Class(class, _) => find_class(found, variables, class.get())?,
        _ => {}
    }
    Ok(())
}

/// Puts the findings of statements behind those that there were, where so many loops and switches are around them.
#[cycle(walk)]
pub fn find_statements<'t>(
    found: &mut Vec<Finding<'t>>,
    variables: &'t [VarName],
    depth: u32,
    statements: &'t [Stmt],
) -> Result<(), AllocError>
    ensures { OnOk result (spec.Adds found.old.items found.new.items (spec.findings_in (name_at variables.now) depth (tree.statements_of statements.now))) }
{
    for statement in statements {
        find_statement(found, variables, depth, statement)?;
    }
    Ok(())
}
