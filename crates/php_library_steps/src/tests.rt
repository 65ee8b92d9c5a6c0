// Calls of the library in a run.
use crate::apply_library;
use order_map::ByteText;
use php_list_calls::ListCall;
use php_names::NameTable;
use php_rest::{Argument, Callee, Now, Owner, Scene, SystemCall};
use php_state::{Program, State};
use php_tables::{Entered, Functions, PathTable};
use php_text_calls::TextCall;
use php_values::Value;
use php_world::{Change, Step, Store};
use sqlite_items::Items;
use std::alloc::{AllocError, Global};

const LIST: u32 = 6;

fn program(alloc: Global) -> Program {
    Program {
        files: Items::new(alloc),
        paths: PathTable::new(alloc),
        names: Items::new(alloc),
    }
}

fn state<'a>(alloc: Global, program: &'a Program, path: &'a Items<u8>) -> State<'a> {
    State {
        store: Store::new(alloc),
        scene: Scene {
            owner: Owner::File(path),
            depth: 0,
            file: path,
            line: 1,
        },
        functions: Functions::new(alloc),
        constants: NameTable::new(alloc),
        entered: Entered::new(alloc),
        statics: PathTable::new(alloc),
        printed: 0,
        script: path,
        program,
    }
}

// A text, and a number behind it.
fn text_and_number(alloc: Global, text: &[u8]) -> Result<Items<Argument>, AllocError> {
    let text = ByteText::from_slice(alloc, text)?;
    let mut args = Items::new(alloc);
    args.push(Argument::Passed(Value::Bytes(text)))?;
    args.push(Argument::Passed(Value::Int(9)))?;
    Ok(args)
}

// The variable of the tests, and a number behind it.
fn list_and_number(alloc: Global) -> Result<Items<Argument>, AllocError> {
    let mut args = Items::new(alloc);
    args.push(Argument::Named(LIST))?;
    args.push(Argument::Passed(Value::Int(9)))?;
    Ok(args)
}

// Whether `define` makes a constant.
fn defines(alloc: Global, state: &mut State<'_>) -> Result<bool, AllocError> {
    let args = text_and_number(alloc, b"Limit")?;
    let define = Callee::System(SystemCall::Define);
    let now = apply_library(alloc, define, args, state)?;
    Ok(matches!(now, Now::Give(Value::Bool(true))))
}

// Whether `array_push` gives 2.
fn pushes(alloc: Global, state: &mut State<'_>) -> Result<bool, AllocError> {
    let args = list_and_number(alloc)?;
    let push = Callee::List(ListCall::ArrayPush);
    let now = apply_library(alloc, push, args, state)?;
    Ok(matches!(now, Now::Give(Value::Int(2))))
}

// Whether `strcmp` of a text and 9 gives 0.
fn compares(alloc: Global, state: &mut State<'_>) -> Result<bool, AllocError> {
    let args = text_and_number(alloc, b"9")?;
    let compare = Callee::Text(TextCall::Strcmp);
    let now = apply_library(alloc, compare, args, state)?;
    Ok(matches!(now, Now::Give(Value::Int(0))))
}

// Whether `call_user_func` calls something next.
fn calls(alloc: Global, state: &mut State<'_>) -> Result<bool, AllocError> {
    let args = text_and_number(alloc, b"tasks")?;
    let call = Callee::System(SystemCall::CallUserFunc);
    let now = apply_library(alloc, call, args, state)?;
    Ok(matches!(now, Now::CallNamed(_, _)))
}

#[test]
fn a_constant_is_defined_once(rt: HostRuntime) -> Result<(), AllocError> {
    let alloc = rt.alloc();
    let program = program(alloc);
    let path = Items::new(alloc);
    let mut state = state(alloc, &program, &path);
    assert!(rt; defines(alloc, &mut state)?);
    assert!(rt; !defines(alloc, &mut state)?);
    Ok(())
}

#[test]
fn an_array_is_changed_in_its_variable(rt: HostRuntime) -> Result<(), AllocError> {
    let alloc = rt.alloc();
    let program = program(alloc);
    let path = Items::new(alloc);
    let mut state = state(alloc, &program, &path);
    assert!(rt; !pushes(alloc, &mut state)?);
    let four = Change::Put(Value::Int(4));
    assert!(rt;
        state
            .store
            .write(alloc, LIST as usize, &[Step::Next], four)
            .is_ok()
    );
    assert!(rt; pushes(alloc, &mut state)?);
    Ok(())
}

#[test]
fn texts_and_names_are_called(rt: HostRuntime) -> Result<(), AllocError> {
    let alloc = rt.alloc();
    let program = program(alloc);
    let path = Items::new(alloc);
    let mut state = state(alloc, &program, &path);
    assert!(rt; compares(alloc, &mut state)?);
    assert!(rt; calls(alloc, &mut state)?);
    Ok(())
}
