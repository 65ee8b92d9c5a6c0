// How statements begin, by their parts, after their ticks.

ghost use Rattle.std.specs.Prelude.{◌≡◌, map, IfOk};
ghost use Rattle.php_tree.specs.Statements as tree;
ghost use Rattle.php_values.specs.Data.{null};
ghost use Rattle.php_world.specs.declared.reading.Reading.TheVariants.{Plain};
ghost use Rattle.php_meaning.specs.Course.{Normal, Ticks, Turns};
ghost use Rattle.php_meaning.specs.Expressions.{read};
ghost use Rattle.php_meaning.specs.Statements as statements;
ghost use Rattle.php_meaning.specs.World.{at_line};
ghost use Rattle.php_rest.specs.Named.{all_named, arms_named, block_named, named};
ghost use Rattle.php_rest.specs.Rest.{after, loop_named};
ghost use Rattle.php_statement_steps.specs.Standing.{FollowsTick};

use crate::leave::bind_globals;
use backward_list::Backward;
use php_place_steps::unset_all;
use php_rest::{Ending, Frame, Loop, Now, Scene, Tail};
use php_statement_steps::{begin_arms, begin_echo, begin_list, print_inline, stand_at};
use php_tree::expr::Expr;
use php_tree::stmt::{IfArm, Stmt};
use php_world::Store;
use sqlite_items::{Boxed, Items};
use std::alloc::{AllocError, Global};

/// An expression of a statement on a line, whose value a frame waits for.
pub fn evaluate_at<'a>(
    e: &'a Boxed<Expr>,
    line: u32,
    frame: Frame<'a>,
    store: &Store,
    scene: &mut Scene<'a>,
    stack: &mut Backward<Frame<'a>>,
) -> Result<Now<'a>, AllocError>
    ensures { IfOk result (FollowsTick store.now store.now scene.old scene.new stack.old stack.new (λ t w k. Ticks w (read Plain (named t e.now) (at_line line w) (after t frame.entry k)))) }
{
    stack.push(frame)?;
    stand_at(scene, line);
    Ok(Now::Evaluate(e.get()))
}

/// Bytes of the file itself.
pub(crate) fn print_at<'a>(
    alloc: Global,
    bytes: &'a Items<u8>,
    line: u32,
    store: &Store,
    scene: &mut Scene<'a>,
) -> Result<Now<'a>, AllocError>
    ensures { IfOk result (λ now. (stack : _) → FollowsTick store.now store.now scene.old scene.new stack stack (λ t. statements.statement (tree.inline bytes.now line)) now) }
{
    stand_at(scene, line);
    let now = print_inline(alloc, bytes.as_slice())?;
    Ok(now)
}

/// `echo`.
pub(crate) fn echo_at<'a>(
    asked: &'a Items<Expr>,
    line: u32,
    store: &Store,
    scene: &mut Scene<'a>,
    stack: &mut Backward<Frame<'a>>,
) -> Result<Now<'a>, AllocError>
    ensures { IfOk result (FollowsTick store.now store.now scene.old scene.new stack.old stack.new (λ t. statements.statement (tree.echo (all_named t asked.now) line))) }
{
    stand_at(scene, line);
    let now = begin_echo(Tail::new(asked), stack)?;
    Ok(now)
}

/// `if`.
pub(crate) fn choose_at<'a>(
    arms: &'a Items<IfArm>,
    others: &'a Items<Stmt>,
    line: u32,
    store: &Store,
    scene: &mut Scene<'a>,
    stack: &mut Backward<Frame<'a>>,
) -> Result<Now<'a>, AllocError>
    ensures { IfOk result (FollowsTick store.now store.now scene.old scene.new stack.old stack.new (λ t. statements.statement (tree.conditional (arms_named t arms.now) (block_named t others.now) line))) }
{
    stand_at(scene, line);
    let now = begin_arms(Tail::new(arms), others, stack)?;
    Ok(now)
}

/// `while` and `do`.
pub(crate) fn loop_at<'a>(of: Loop<'a>, line: u32, store: &Store, scene: &mut Scene<'a>) -> Now<'a>
    ensures { (stack : _) → FollowsTick store.now store.now scene.old scene.new stack stack (λ t w k. Ticks w (Turns (loop_named t of.entry) (at_line line w) k)) result }
{
    stand_at(scene, line);
    Now::Turn(of)
}

/// `for`: the expressions that stand before its first turn.
pub(crate) fn for_at<'a>(
    first: &'a Items<Expr>,
    of: Loop<'a>,
    line: u32,
    store: &Store,
    scene: &mut Scene<'a>,
    stack: &mut Backward<Frame<'a>>,
) -> Result<Now<'a>, AllocError>
    ensures { IfOk result (FollowsTick store.now store.now scene.old scene.new stack.old stack.new (λ t w k. Ticks w (statements.last_of (all_named t first.now) null (λ d. Turns (loop_named t of.entry)) (at_line line w) k))) }
{
    stand_at(scene, line);
    let now = begin_list(Tail::new(first), of, stack)?;
    Ok(now)
}

/// `global`.
pub(crate) fn globals_at<'a>(
    numbers: &'a Items<u32>,
    line: u32,
    store: &mut Store,
    scene: &mut Scene<'a>,
) -> Result<Now<'a>, AllocError>
    ensures { IfOk result (λ now. (stack : _) → FollowsTick store.old store.new scene.old scene.new stack stack (λ t. statements.statement (tree.global (map t.name numbers.now) line)) now) }
{
    stand_at(scene, line);
    bind_globals(numbers.as_slice(), store)?;
    Ok(Now::End(Ending::Normal))
}

/// `unset`.
pub(crate) fn unset_at<'a>(
    alloc: Global,
    places: &'a Items<Expr>,
    line: u32,
    store: &mut Store,
    scene: &mut Scene<'a>,
    stack: &mut Backward<Frame<'a>>,
) -> Result<Now<'a>, AllocError>
    ensures { IfOk result (FollowsTick store.old store.new scene.old scene.new stack.old stack.new (λ t. statements.statement (tree.unset (all_named t places.now) line))) }
{
    stand_at(scene, line);
    let now = unset_all(alloc, Tail::new(places), store, stack)?;
    Ok(now)
}

/// A block that stands on a line, as that of `try`, whose classes have no effect as long as there are no objects.
pub(crate) fn try_at<'a>(
    body: &'a Items<Stmt>,
    line: u32,
    store: &Store,
    scene: &mut Scene<'a>,
) -> Now<'a>
    ensures { (stack : _) → FollowsTick store.now store.now scene.old scene.new stack stack (λ t w k. Ticks w (statements.statements (block_named t body.now) (at_line line w) k)) result }
{
    stand_at(scene, line);
    Now::Block(Tail::new(body))
}

/// A statement that does nothing but to stand on a line.
pub(crate) fn nothing_at<'a>(line: u32, store: &Store, scene: &mut Scene<'a>) -> Now<'a>
    ensures { (stack : _) → FollowsTick store.now store.now scene.old scene.new stack stack (λ t w k. Ticks w (k Normal (at_line line w))) result }
{
    stand_at(scene, line);
    Now::End(Ending::Normal)
}
