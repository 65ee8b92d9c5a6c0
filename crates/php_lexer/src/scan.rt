//! Reads the tokens of a text.

ghost use Rattle.std.specs.Prelude.{◌≡◌, ◌≤◌, ◌<◌, ◌+◌, ◌++◌, List, [], ◌∷◌, true, false, ◌⊎◌, length, drop, slice_set, OnOk, IfOk, IfErr, Some, None};
ghost use Rattle.php_lexer.specs.Marks.{Mark, mark_at};
ghost use Rattle.php_lexer.specs.Tokens.{too_deep, simple_kind, ends_part, body, code};
ghost use Rattle.php_lexer.specs.Pieces.{piece_at};
ghost use Rattle.php_lexer.specs.Texts.{kind_of};
ghost use Rattle.php_lexer.specs.Scan.{IsPast, IsShut, Closes, BodyGoesOn, goal_of, body_goal, FaultAt, Adds, Leads, GoesOn, BodyLeads, body_next};
ghost use Rattle.php_lexer.specs.declared.front.Piece.TheVariants.{Close};

use crate::body::{Body, part};
use crate::code::{code_front, outer_front};
use crate::fault::{FormName, LexFault, LexKind};
use crate::front::{Front, Outer, Piece, Raw, Shape, Simple};
use crate::kinds::{Kind, Part, Sign};
use crate::piece::piece_front;
use crate::state::{Around, Cursor, Next, Quoted, State};
use crate::token::Tokens;
use std::alloc::Global;

/// How many double-quoted texts may enclose another.
const MAX_NESTING: usize = 200;

fn kind_of_simple(simple: Simple) -> Kind
    ensures { result ≡ simple_kind simple }
{
    match simple {
        Simple::Var => Kind::Var,
        Simple::Word => Kind::Word,
        Simple::Int(number) => Kind::Int(number),
        Simple::Cast(cast) => Kind::Cast(cast),
        Simple::Sign(sign) => Kind::Sign(sign),
    }
}

/// A fault so many bytes after a place.
fn fault_at(cursor: Cursor<'_>, len: usize, kind: LexKind) -> LexFault
    requires { cursor.at + len ≤ length cursor.text.now }
    ensures { result ≡ LexFault.At (cursor.entry.at + len) kind }
{
    LexFault::At {
        place: (cursor.at + len) as u32,
        kind,
    }
}

/// Adds a token of so many bytes.
fn add<'t>(
    tokens: &mut Tokens<'t>,
    cursor: Cursor<'t>,
    kind: Kind,
    len: usize,
) -> Result<(), LexFault>
    requires { cursor.at + len ≤ length cursor.text.now }
    ensures ok { OnOk result (tokens.new ≡ tokens.old ++ mark_at cursor.entry.text.now kind cursor.entry.at len ∷ []) }
    ensures err { IfErr result (λ e. e ≡ LexFault.Memory) }
{
    tokens.push(cursor.token(kind, len))?;
    Ok(())
}

/// The state so many bytes on.
fn past<'t>(state: State<'t>, is_outside: bool, len: usize) -> State<'t>
    requires { state.cursor.at + len ≤ length state.cursor.text.now }
    ensures { IsPast state.entry is_outside state.entry.depth len result }
{
    State {
        cursor: state.cursor.past(len),
        is_outside,
        depth: state.depth,
    }
}

/// At the end of the text: the end token, or an open text.
fn finish<'t>(
    tokens: &mut Tokens<'t>,
    state: State<'t>,
    around: Around,
) -> Result<Next<'t>, LexFault>
    requires { around.quote ≤ 1048576 }
    ensures ok { IfOk result (λ next. (around.nest ≡ 0) × (next ≡ Next.Done state.entry.cursor) × (tokens.new ≡ tokens.old ++ mark_at state.entry.cursor.text.now Kind.End state.entry.cursor.at 0 ∷ [])) }
    ensures err { IfErr result (λ e. (e ≡ LexFault.Memory) ⊎ ((around.nest ≡ 0 → ⊥) × (e ≡ LexFault.At around.quote LexKind.OpenString))) }
{
    if around.nest != 0 {
        return Err(LexFault::At {
            place: around.quote as u32,
            kind: LexKind::OpenString,
        });
    }
    add(tokens, state.cursor, Kind::End, 0)?;
    Ok(Next::Done(state.cursor))
}

/// Reads what stands at the front outside the code.
fn outer_step<'t>(
    tokens: &mut Tokens<'t>,
    state: State<'t>,
    around: Around,
) -> Result<Next<'t>, LexFault>
    requires outside { state.is_outside ≡ true }
    requires quote { around.quote ≤ 1048576 }
    ensures leads { IfOk result (Leads state.entry.cursor.text.now around (goal_of state.entry around) tokens.old tokens.new) }
    ensures on { IfOk result (GoesOn state.entry) }
    ensures fault { IfErr result (FaultAt state.entry.cursor.text.now (goal_of state.entry around)) }
{
    match outer_front(state.cursor.rest()) {
        Outer::End => finish(tokens, state, around),
        Outer::Inline(len) => {
            add(tokens, state.cursor, Kind::Inline, len)?;
            Ok(Next::More(past(state, true, len)))
        }
        Outer::Tag(len) => Ok(Next::More(past(state, false, len))),
        Outer::Echo => {
            add(tokens, state.cursor, Kind::Echo, 3)?;
            Ok(Next::More(past(state, false, 3)))
        }
    }
}

/// Reads an opening brace.
fn open_brace<'t>(tokens: &mut Tokens<'t>, state: State<'t>) -> Result<State<'t>, LexFault>
    requires { state.cursor.at < length state.cursor.text.now }
    ensures ok { OnOk result (tokens.new ≡ tokens.old ++ mark_at state.entry.cursor.text.now (Kind.Sign Sign.BraceOpen) state.entry.cursor.at 1 ∷ []) }
    ensures next { IfOk result (IsPast state.entry false (state.entry.depth + 1) 1) }
    ensures err { IfErr result (λ e. e ≡ LexFault.Memory) }
{
    add(tokens, state.cursor, Kind::Sign(Sign::BraceOpen), 1)?;
    Ok(State {
        cursor: state.cursor.past(1),
        is_outside: false,
        depth: state.depth + 1,
    })
}

/// Reads a closing brace, which may be the last token of an embedded expression.
fn shut_brace<'t>(
    tokens: &mut Tokens<'t>,
    state: State<'t>,
    around: Around,
) -> Result<Next<'t>, LexFault>
    requires { state.cursor.at < length state.cursor.text.now }
    ensures ok { OnOk result (tokens.new ≡ tokens.old ++ mark_at state.entry.cursor.text.now (Kind.Sign Sign.BraceClose) state.entry.cursor.at 1 ∷ []) }
    ensures next { IfOk result (IsShut state.entry around) }
    ensures err { IfErr result (λ e. e ≡ LexFault.Memory) }
{
    add(tokens, state.cursor, Kind::Sign(Sign::BraceClose), 1)?;
    if around.nest != 0 && state.depth == 0 {
        return Ok(Next::Done(state.cursor.past(1)));
    }
    Ok(Next::More(State {
        cursor: state.cursor.past(1),
        is_outside: false,
        depth: state.depth.saturating_sub(1),
    }))
}

/// Puts the token of a quoted text at the place that was kept for it.
fn close<'t>(
    alloc: Global,
    tokens: &mut Tokens<'t>,
    slot: usize,
    start: Cursor<'t>,
    body: Body,
    len: usize,
) -> Result<(), LexFault>
    requires slot { slot < length tokens.old }
    requires len { start.at + len ≤ length start.text.now }
    ensures ok { OnOk result (tokens.new ≡ slice_set tokens.old slot (mark_at start.entry.text.now (kind_of body.parts body.bytes.items) start.entry.at len)) }
    ensures err { IfErr result (λ e. e ≡ LexFault.Memory) }
{
    let kind = body.into_kind(alloc)?;
    tokens.set(slot, start.token(kind, len));
    Ok(())
}

/// Whether a quoted text in so many double-quoted ones is one too many.
fn is_too_deep(is_double: bool, nest: usize) -> bool
    ensures value { result ≡ too_deep is_double nest }
    ensures room { result ≡ false → is_double ≡ true → nest < 200 }
{
    is_double && nest >= MAX_NESTING
}

/// Reads what stands at the front of the code.
#[cycle(scan)]
fn code_step<'t>(
    alloc: Global,
    tokens: &mut Tokens<'t>,
    state: State<'t>,
    around: Around,
) -> Result<Next<'t>, LexFault>
    requires inside { state.is_outside ≡ false }
    requires quote { around.quote ≤ 1048576 }
    requires nest { around.nest ≤ 200 }
    ensures leads { IfOk result (Leads state.entry.cursor.text.now around (goal_of state.entry around) tokens.old tokens.new) }
    ensures on { IfOk result (GoesOn state.entry) }
    ensures fault { IfErr result (FaultAt state.entry.cursor.text.now (goal_of state.entry around)) }
{
    let cursor = state.cursor;
    match code_front(cursor.rest()) {
        Front::End => finish(tokens, state, around),
        Front::Blank(len) => Ok(Next::More(past(state, false, len))),
        Front::Close(len) => {
            add(tokens, cursor, Kind::Sign(Sign::Semicolon), 2)?;
            Ok(Next::More(past(state, true, len)))
        }
        Front::Token(simple, len) => {
            add(tokens, cursor, kind_of_simple(simple), len)?;
            Ok(Next::More(past(state, false, len)))
        }
        Front::Open => Ok(Next::More(open_brace(tokens, state)?)),
        Front::Shut => shut_brace(tokens, state, around),
        Front::Quote(is_double) => {
            if is_too_deep(is_double, around.nest) {
                return Err(fault_at(cursor, 0, LexKind::Form(FormName::Nesting)));
            }
            let end = quoted(alloc, tokens, cursor, is_double, around.nest)?;
            Ok(Next::More(moved(state, end)))
        }
        Front::Fault(len, kind) => Err(fault_at(cursor, len, kind)),
    }
}

/// The state with its place moved on.
fn moved<'t>(state: State<'t>, cursor: Cursor<'t>) -> State<'t>
    requires { state.cursor.at ≤ cursor.at }
    ensures cursor { result.cursor ≡ cursor.entry }
    ensures outside { result.is_outside ≡ false }
    ensures depth { result.depth ≡ state.entry.depth }
{
    State {
        cursor,
        is_outside: false,
        depth: state.depth,
    }
}

/// Reads tokens up to the end of the text, or of an embedded expression.
#[cycle(scan)]
pub fn read<'t>(
    alloc: Global,
    tokens: &mut Tokens<'t>,
    start: State<'t>,
    around: Around,
) -> Result<Cursor<'t>, LexFault>
    requires quote { around.quote ≤ 1048576 }
    requires nest { around.nest ≤ 200 }
    ensures read { IfOk result (λ end. Adds start.entry.cursor.text.now (goal_of start.entry around) tokens.old tokens.new end.at) }
    ensures same { IfOk result (λ end. end.text ≡ start.entry.cursor.text) }
    ensures on { IfOk result (λ end. start.entry.cursor.at ≤ end.at) }
    ensures fault { IfErr result (FaultAt start.entry.cursor.text.now (goal_of start.entry around)) }
{
    let mut state = start;
    'steps: loop {
        match step(alloc, tokens, state, around)? {
            Next::More(next) => state = next,
            Next::Done(end) => return Ok(end),
        }
    }
}

/// Reads what stands at the front.
#[cycle(scan)]
fn step<'t>(
    alloc: Global,
    tokens: &mut Tokens<'t>,
    state: State<'t>,
    around: Around,
) -> Result<Next<'t>, LexFault>
    requires quote { around.quote ≤ 1048576 }
    requires nest { around.nest ≤ 200 }
    ensures leads { IfOk result (Leads state.entry.cursor.text.now around (goal_of state.entry around) tokens.old tokens.new) }
    ensures on { IfOk result (GoesOn state.entry) }
    ensures fault { IfErr result (FaultAt state.entry.cursor.text.now (goal_of state.entry around)) }
{
    if state.is_outside {
        outer_step(tokens, state, around)
    } else {
        code_step(alloc, tokens, state, around)
    }
}

/// Reads a quoted text from its opening quote on, in so many double-quoted texts.
#[cycle(scan)]
fn quoted<'t>(
    alloc: Global,
    tokens: &mut Tokens<'t>,
    start: Cursor<'t>,
    is_double: bool,
    nest: usize,
) -> Result<Cursor<'t>, LexFault>
    requires some { start.at < length start.text.now }
    requires nest { nest ≤ 200 }
    requires deep { is_double ≡ true → nest < 200 }
    ensures read { IfOk result (λ end. Adds start.entry.text.now (body is_double nest start.entry.at (start.entry.at + 1) [] [] []) tokens.old tokens.new end.at) }
    ensures same { IfOk result (λ end. end.text ≡ start.entry.text) }
    ensures on { IfOk result (λ end. start.entry.at < end.at) }
    ensures fault { IfErr result (FaultAt start.entry.text.now (body is_double nest start.entry.at (start.entry.at + 1) [] [] [])) }
{
    let slot = tokens.len();
    tokens.push(start.token(Kind::End, 0))?;
    let place = Quoted {
        is_double,
        nest,
        quote: start.at,
    };
    let mut read = Body::new(alloc);
    let mut cursor = start.past(1);
    'pieces: while let Some(next) = body_step(alloc, tokens, &mut read, cursor, place)? {
        cursor = next;
    }
    let end = cursor.past(1);
    close(alloc, tokens, slot, start, read, end.at - start.at)?;
    Ok(end)
}

/// Reads what stands at the front of a quoted text's body. At the closing quote nothing is read.
#[cycle(scan)]
fn body_step<'t>(
    alloc: Global,
    tokens: &mut Tokens<'t>,
    read: &mut Body,
    cursor: Cursor<'t>,
    place: Quoted,
) -> Result<Option<Cursor<'t>>, LexFault>
    requires quote { place.quote ≤ 1048576 }
    requires nest { place.nest ≤ 200 }
    requires deep { place.is_double ≡ true → place.nest < 200 }
    ensures leads { IfOk result (λ next. BodyLeads cursor.entry.text.now place cursor.entry.at (body_next cursor.entry next).at read.old read.new tokens.old tokens.new) }
    ensures closes { IfOk result (Closes cursor.entry place) }
    ensures on { IfOk result (BodyGoesOn cursor.entry) }
    ensures fault { IfErr result (λ e. (us : List Mark) → FaultAt cursor.entry.text.now (body_goal place cursor.entry.at read.old.parts read.old.bytes.items us) e) }
{
    let z = cursor.rest();
    match piece_front(place.is_double, z) {
        Piece::End => Err(LexFault::At {
            place: place.quote as u32,
            kind: LexKind::OpenString,
        }),
        Piece::Close => Ok(None),
        Piece::Raw(raw) => {
            read.add_raw(raw, z)?;
            Ok(Some(cursor.past(raw.len())))
        }
        Piece::Var(shape) => {
            let part = part(alloc, shape, z)?;
            read.add_part(alloc, part)?;
            Ok(Some(cursor.past(shape.len())))
        }
        Piece::Embedded => {
            read.add_part(alloc, Part::Embedded)?;
            let around = Around {
                nest: place.nest + 1,
                quote: place.quote,
            };
            Ok(Some(read_embedded(alloc, tokens, cursor, around)?))
        }
        Piece::Fault(len, kind) => Err(fault_at(cursor, len, kind)),
    }
}

/// Reads an embedded expression from its opening brace on, up to the closing one.
#[cycle(scan)]
fn read_embedded<'t>(
    alloc: Global,
    tokens: &mut Tokens<'t>,
    brace: Cursor<'t>,
    around: Around,
) -> Result<Cursor<'t>, LexFault>
    requires some { brace.at < length brace.text.now }
    requires quote { around.quote ≤ 1048576 }
    requires nest { around.nest ≤ 200 }
    ensures read { IfOk result (λ end. Adds brace.entry.text.now (code false around.nest around.quote 0 (brace.entry.at + 1)) tokens.old tokens.new end.at) }
    ensures same { IfOk result (λ end. end.text ≡ brace.entry.text) }
    ensures on { IfOk result (λ end. brace.entry.at < end.at) }
    ensures fault { IfErr result (FaultAt brace.entry.text.now (code false around.nest around.quote 0 (brace.entry.at + 1))) }
{
    let start = State {
        cursor: brace.past(1),
        is_outside: false,
        depth: 0,
    };
    read(alloc, tokens, start, around)
}
