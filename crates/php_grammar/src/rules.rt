//! The table of rules in code.

ghost use Rattle.std.specs.Prelude.{◌≡◌};
ghost use Rattle.php_grammar.specs.Grammar as spec;
ghost use Rattle.php_grammar.specs.Split.{head_in, body_in, middle_in, tail_in};

use crate::part::{Context, Level, Loop, Part, Rule, Seen, Symbol};
use crate::token::Kind;

/// The token that a rule begins with, where it begins with one.
#[tactic(auto, unfolding(crate::specs::Grammar::production))]
pub fn head(rule: Rule) -> Option<Kind>
    ensures { result ≡ head_in (spec.production rule) }
{
    match rule {
        Rule::NoneOf(_)
        | Rule::Whole
        | Rule::SomeStmts
        | Rule::ExprStmt
        | Rule::IfSingle
        | Rule::BodySingle
        | Rule::AnExpr
        | Rule::StaticExpr
        | Rule::SomeParams
        | Rule::AParam
        | Rule::SomeMembers(_)
        | Rule::NoPrint
        | Rule::NoNot
        | Rule::NoUnary
        | Rule::AtIndexPlace(_)
        | Rule::AtIndexOther(_)
        | Rule::AValue
        | Rule::SomeArgs
        | Rule::SomeItems(_)
        | Rule::ItemFull
        | Rule::ItemConst
        | Rule::CNoNot
        | Rule::CNoSign
        | Rule::FullChoice
        | Rule::CFullChoice => None,
        Rule::InlineText => Some(Kind::Inline),
        Rule::EchoTag => Some(Kind::EchoTag),
        Rule::EchoWord => Some(Kind::Echo),
        Rule::EmptyStmt | Rule::ASemi | Rule::ArmSemi | Rule::WithoutBody => Some(Kind::Semi),
        Rule::Block | Rule::SwitchBraced | Rule::WithBody => Some(Kind::BraceOpen),
        Rule::IfStmt => Some(Kind::If),
        Rule::WhileStmt => Some(Kind::While),
        Rule::DoStmt => Some(Kind::Do),
        Rule::ForStmt => Some(Kind::For),
        Rule::ForeachStmt => Some(Kind::Foreach),
        Rule::SwitchStmt => Some(Kind::Switch),
        Rule::JumpStmt => Some(Kind::Jump),
        Rule::ReturnStmt => Some(Kind::Return),
        Rule::GlobalStmt => Some(Kind::Global),
        Rule::StaticStmt
        | Rule::HintStatic
        | Rule::PlainHintStatic
        | Rule::ClassStatic
        | Rule::StaticMod(_, _, _, _, _)
        | Rule::StaticPrim(_)
        | Rule::StaticNamedPlace
        | Rule::CStatic => Some(Kind::Static),
        Rule::UnsetStmt => Some(Kind::Unset),
        Rule::ThrowStmt => Some(Kind::Throw),
        Rule::TryStmt => Some(Kind::Try),
        Rule::FunctionStmt | Rule::FunctionMember(_) => Some(Kind::Function),
        Rule::AbstractClass | Rule::AbstractMod(_, _, _, _, _) => Some(Kind::Abstract),
        Rule::FinalClass | Rule::FinalMod(_, _, _, _, _) => Some(Kind::Final),
        Rule::PlainClass | Rule::ClassForm(_) | Rule::CClassForm => Some(Kind::Class),
        Rule::InterfaceStmt => Some(Kind::Interface),
        Rule::ConstStmt | Rule::ConstMember => Some(Kind::Const),
        Rule::RemovedStmt => Some(Kind::Removed),
        Rule::IfListed
        | Rule::WhileListed
        | Rule::ForListed
        | Rule::ForeachListed
        | Rule::SwitchListed
        | Rule::ArmColon
        | Rule::AResult
        | Rule::ShortChoice
        | Rule::CShortChoice => Some(Kind::Colon),
        Rule::ElseIf | Rule::ElseIfListed => Some(Kind::ElseIf),
        Rule::ElseSingle | Rule::ElseListed => Some(Kind::Else),
        Rule::EndIf => Some(Kind::EndIf),
        Rule::CaseArm => Some(Kind::Case),
        Rule::DefaultArm => Some(Kind::Default),
        Rule::AnInt | Rule::IntPrim(_) | Rule::CInt => Some(Kind::Int),
        Rule::KeyThenValue | Rule::Paired(_) => Some(Kind::DoubleArrow),
        Rule::NextVar
        | Rule::NextStatic
        | Rule::NextConst
        | Rule::NextText
        | Rule::NextParam
        | Rule::NextName
        | Rule::NextClassConst
        | Rule::NextProperty
        | Rule::NextArg
        | Rule::NextItem(_)
        | Rule::NextPlace => Some(Kind::Comma),
        Rule::StaticVars
        | Rule::ClassVar
        | Rule::PropertyMember
        | Rule::PlainVar
        | Rule::VarPrim(_)
        | Rule::StaticProperty(_)
        | Rule::VarPlace
        | Rule::VarStaticPlace => Some(Kind::Var),
        Rule::ADefault | Rule::AssignVar | Rule::AssignPlace | Rule::OnlyAssign => Some(
            Kind::Assign,
        ),
        Rule::ACatch => Some(Kind::Catch),
        Rule::NextCaught => Some(Kind::Pipe),
        Rule::AnAmp | Rule::Reference => Some(Kind::Amp),
        Rule::OpenHint | Rule::Ternary | Rule::CTernary => Some(Kind::Question),
        Rule::HintWord
        | Rule::PlainHintWord
        | Rule::APlainWord
        | Rule::ClassWord
        | Rule::WordPrim(_)
        | Rule::WordPlace
        | Rule::CWord => Some(Kind::Word),
        Rule::HintArray
        | Rule::PlainHintArray
        | Rule::ClassArray
        | Rule::ArrayPrim(_)
        | Rule::ArrayNamedPlace
        | Rule::CArray => Some(Kind::Array),
        Rule::AHintWord
        | Rule::ClassHintWord
        | Rule::HintWordPrim(_)
        | Rule::HintWordPlace
        | Rule::CHintWord => Some(Kind::HintWord),
        Rule::ClassThis
        | Rule::ThisMember
        | Rule::ThisVar
        | Rule::ThisPrim(_)
        | Rule::StaticPropertyThis(_)
        | Rule::ThisPlace
        | Rule::ThisStepPlace
        | Rule::ThisStaticPlace => Some(Kind::This),
        Rule::AParent | Rule::TheParents => Some(Kind::Extends),
        Rule::TheInterfaces => Some(Kind::Implements),
        Rule::VisibleMod(_, _, _, _, _) => Some(Kind::Visibility),
        Rule::VarMod(_, _, _, _, _) => Some(Kind::VarWord),
        Rule::NamedWord(kind)
        | Rule::StaticMember(kind, _)
        | Rule::PlaceMember(kind, _)
        | Rule::OtherMember(kind, _)
        | Rule::PlaceNamed(kind)
        | Rule::CNamed(kind) => Some(kind),
        Rule::PrintExpr => Some(Kind::Print),
        Rule::NotExpr | Rule::CNotExpr => Some(Kind::Not),
        Rule::SignExpr | Rule::CSignExpr | Rule::SignStep | Rule::CSignStep => Some(Kind::Sign),
        Rule::PrefixExpr => Some(Kind::Prefix),
        Rule::StepBefore | Rule::StepAfter => Some(Kind::Step),
        Rule::TextPrim(_) | Rule::CText => Some(Kind::Text),
        Rule::QuotePrim(_) => Some(Kind::Quote),
        Rule::EmbeddingPrim(_) => Some(Kind::QuoteOpen),
        Rule::QuoteNext => Some(Kind::QuoteNext),
        Rule::QuoteEnd => Some(Kind::QuoteClose),
        Rule::ArrayItems(_)
        | Rule::ParenPrim(_)
        | Rule::CallArgs(_)
        | Rule::ExitArgs(_)
        | Rule::CArrayItems => Some(Kind::ParenOpen),
        Rule::ArrayName(_)
        | Rule::Colons(_)
        | Rule::CColons
        | Rule::CArrayName
        | Rule::BegunStatic => Some(Kind::DoubleColon),
        Rule::BracketPrim(_) | Rule::OpenIndex(_, _) | Rule::PlaceIndex | Rule::CBracket => Some(
            Kind::BracketOpen,
        ),
        Rule::IssetPrim(_) => Some(Kind::Isset),
        Rule::EmptyPrim(_) => Some(Kind::Empty),
        Rule::ExitPrim(_) => Some(Kind::Exit),
        Rule::NewPrim(_) => Some(Kind::New),
        Rule::ClonePrim => Some(Kind::Clone),
        Rule::IncludePrim => Some(Kind::Include),
        Rule::Arrow(_, _) | Rule::PlaceArrow => Some(Kind::Arrow),
        Rule::AssignOp | Rule::OnlyAssignOp => Some(Kind::AssignOp),
        Rule::Appended => Some(Kind::BracketClose),
        Rule::OrStep => Some(Kind::Or),
        Rule::XorStep => Some(Kind::Xor),
        Rule::AndStep => Some(Kind::And),
        Rule::Coalesced => Some(Kind::Coalesce),
        Rule::EitherStep => Some(Kind::OrOr),
        Rule::BothStep => Some(Kind::AndAnd),
        Rule::EqualityStep => Some(Kind::Equality),
        Rule::OrderStep => Some(Kind::Order),
        Rule::DotStep | Rule::CDotStep => Some(Kind::Dot),
        Rule::ProductStep | Rule::CProductStep => Some(Kind::Product),
        Rule::InstanceStep => Some(Kind::InstanceOf),
    }
}

/// What stands between the first token and the last part.
#[tactic(auto, unfolding(crate::specs::Grammar::production))]
pub fn middle(rule: Rule) -> &'static [Symbol]
    ensures { result.now ≡ middle_in (body_in (spec.production rule)) }
{
    match rule {
        Rule::Whole => &[Symbol::Sub(Part::Stmts), Symbol::Tok(Kind::End)],
        Rule::SomeStmts | Rule::IfSingle => &[Symbol::Sub(Part::Stmt)],
        Rule::EchoTag | Rule::EchoWord => &[
            Symbol::Sub(Part::Level(Context::InFull, Level::LowOr)),
            Symbol::Sub(Part::MoreArgs),
            Symbol::Tok(Kind::Semi),
        ],
        Rule::Block | Rule::WithBody => &[Symbol::Sub(Part::Stmts), Symbol::Tok(Kind::BraceClose)],
        Rule::IfStmt | Rule::WhileStmt | Rule::SwitchStmt | Rule::EmptyPrim(_) => &[
            Symbol::Tok(Kind::ParenOpen),
            Symbol::Sub(Part::Level(Context::InFull, Level::LowOr)),
            Symbol::Tok(Kind::ParenClose),
        ],
        Rule::DoStmt => &[
            Symbol::Sub(Part::Stmt),
            Symbol::Tok(Kind::While),
            Symbol::Tok(Kind::ParenOpen),
            Symbol::Sub(Part::Level(Context::InFull, Level::LowOr)),
            Symbol::Tok(Kind::ParenClose),
            Symbol::Tok(Kind::Semi),
        ],
        Rule::ForStmt => &[
            Symbol::Tok(Kind::ParenOpen),
            Symbol::Sub(Part::Args),
            Symbol::Tok(Kind::Semi),
            Symbol::Sub(Part::Args),
            Symbol::Tok(Kind::Semi),
            Symbol::Sub(Part::Args),
            Symbol::Tok(Kind::ParenClose),
        ],
        Rule::ForeachStmt => &[
            Symbol::Tok(Kind::ParenOpen),
            Symbol::Sub(Part::Level(Context::InFull, Level::LowOr)),
            Symbol::Tok(Kind::As),
            Symbol::Tok(Kind::Var),
            Symbol::Sub(Part::SecondVar),
            Symbol::Tok(Kind::ParenClose),
        ],
        Rule::JumpStmt => &[Symbol::Sub(Part::MaybeInt), Symbol::Tok(Kind::Semi)],
        Rule::ReturnStmt => &[Symbol::Sub(Part::MaybeExpr), Symbol::Tok(Kind::Semi)],
        Rule::GlobalStmt => &[
            Symbol::Tok(Kind::Var),
            Symbol::Sub(Part::MoreVars),
            Symbol::Tok(Kind::Semi),
        ],
        Rule::UnsetStmt => &[
            Symbol::Tok(Kind::ParenOpen),
            Symbol::Sub(Part::Place),
            Symbol::Sub(Part::MorePlaces),
            Symbol::Tok(Kind::ParenClose),
            Symbol::Tok(Kind::Semi),
        ],
        Rule::ThrowStmt | Rule::ExprStmt => &[
            Symbol::Sub(Part::Level(Context::InFull, Level::LowOr)),
            Symbol::Tok(Kind::Semi),
        ],
        Rule::TryStmt => &[
            Symbol::Tok(Kind::BraceOpen),
            Symbol::Sub(Part::Stmts),
            Symbol::Tok(Kind::BraceClose),
        ],
        Rule::FunctionStmt => &[
            Symbol::Sub(Part::PlainWord),
            Symbol::Tok(Kind::ParenOpen),
            Symbol::Sub(Part::Params),
            Symbol::Tok(Kind::ParenClose),
            Symbol::Sub(Part::MaybeResult),
            Symbol::Tok(Kind::BraceOpen),
            Symbol::Sub(Part::Stmts),
            Symbol::Tok(Kind::BraceClose),
        ],
        Rule::AbstractClass | Rule::FinalClass => &[
            Symbol::Tok(Kind::Class),
            Symbol::Sub(Part::PlainWord),
            Symbol::Sub(Part::MaybeParent),
            Symbol::Sub(Part::MaybeInterfaces),
            Symbol::Tok(Kind::BraceOpen),
            Symbol::Sub(Part::Members(false)),
            Symbol::Tok(Kind::BraceClose),
        ],
        Rule::PlainClass => &[
            Symbol::Sub(Part::PlainWord),
            Symbol::Sub(Part::MaybeParent),
            Symbol::Sub(Part::MaybeInterfaces),
            Symbol::Tok(Kind::BraceOpen),
            Symbol::Sub(Part::Members(false)),
            Symbol::Tok(Kind::BraceClose),
        ],
        Rule::InterfaceStmt => &[
            Symbol::Sub(Part::PlainWord),
            Symbol::Sub(Part::MaybeParents),
            Symbol::Tok(Kind::BraceOpen),
            Symbol::Sub(Part::Members(true)),
            Symbol::Tok(Kind::BraceClose),
        ],
        Rule::ConstStmt => &[
            Symbol::Sub(Part::PlainWord),
            Symbol::Tok(Kind::Assign),
            Symbol::Sub(Part::Level(Context::InConst, Level::Choice)),
            Symbol::Sub(Part::MoreConsts),
            Symbol::Tok(Kind::Semi),
        ],
        Rule::RemovedStmt => &[
            Symbol::Tok(Kind::ParenOpen),
            Symbol::Tok(Kind::Text),
            Symbol::Tok(Kind::Comma),
            Symbol::Tok(Kind::Text),
            Symbol::Sub(Part::MaybeText),
            Symbol::Tok(Kind::ParenClose),
            Symbol::Tok(Kind::Semi),
        ],
        Rule::IfListed => &[Symbol::Sub(Part::Stmts)],
        Rule::ElseIf => &[
            Symbol::Tok(Kind::ParenOpen),
            Symbol::Sub(Part::Level(Context::InFull, Level::LowOr)),
            Symbol::Tok(Kind::ParenClose),
            Symbol::Sub(Part::Stmt),
        ],
        Rule::ElseIfListed => &[
            Symbol::Tok(Kind::ParenOpen),
            Symbol::Sub(Part::Level(Context::InFull, Level::LowOr)),
            Symbol::Tok(Kind::ParenClose),
            Symbol::Tok(Kind::Colon),
            Symbol::Sub(Part::Stmts),
        ],
        Rule::ElseListed => &[
            Symbol::Tok(Kind::Colon),
            Symbol::Sub(Part::Stmts),
            Symbol::Tok(Kind::EndIf),
            Symbol::Tok(Kind::Semi),
        ],
        Rule::EndIf => &[Symbol::Tok(Kind::Semi)],
        Rule::WhileListed => &[
            Symbol::Sub(Part::Stmts),
            Symbol::Tok(Kind::EndWhile),
            Symbol::Tok(Kind::Semi),
        ],
        Rule::ForListed => &[
            Symbol::Sub(Part::Stmts),
            Symbol::Tok(Kind::EndFor),
            Symbol::Tok(Kind::Semi),
        ],
        Rule::ForeachListed => &[
            Symbol::Sub(Part::Stmts),
            Symbol::Tok(Kind::EndForeach),
            Symbol::Tok(Kind::Semi),
        ],
        Rule::SwitchBraced => &[
            Symbol::Sub(Part::MaybeSemi),
            Symbol::Sub(Part::Arms),
            Symbol::Tok(Kind::BraceClose),
        ],
        Rule::SwitchListed => &[
            Symbol::Sub(Part::MaybeSemi),
            Symbol::Sub(Part::Arms),
            Symbol::Tok(Kind::EndSwitch),
            Symbol::Tok(Kind::Semi),
        ],
        Rule::CaseArm => &[
            Symbol::Sub(Part::Level(Context::InFull, Level::LowOr)),
            Symbol::Sub(Part::ArmSign),
            Symbol::Sub(Part::Stmts),
        ],
        Rule::DefaultArm => &[Symbol::Sub(Part::ArmSign), Symbol::Sub(Part::Stmts)],
        Rule::KeyThenValue | Rule::NextVar | Rule::Reference => &[Symbol::Tok(Kind::Var)],
        Rule::StaticVars => &[
            Symbol::Sub(Part::MaybeDefault),
            Symbol::Sub(Part::MoreStatic),
            Symbol::Tok(Kind::Semi),
        ],
        Rule::StaticExpr => &[
            Symbol::Sub(Part::Begun(Level::LowOr)),
            Symbol::Tok(Kind::Semi),
        ],
        Rule::NextStatic => &[Symbol::Tok(Kind::Var), Symbol::Sub(Part::MaybeDefault)],
        Rule::NextConst | Rule::NextClassConst => &[
            Symbol::Sub(Part::PlainWord),
            Symbol::Tok(Kind::Assign),
            Symbol::Sub(Part::Level(Context::InConst, Level::Choice)),
        ],
        Rule::NextText => &[Symbol::Tok(Kind::Text)],
        Rule::ACatch => &[
            Symbol::Tok(Kind::ParenOpen),
            Symbol::Sub(Part::ClassName),
            Symbol::Sub(Part::MoreCaught),
            Symbol::Tok(Kind::Var),
            Symbol::Tok(Kind::ParenClose),
            Symbol::Tok(Kind::BraceOpen),
            Symbol::Sub(Part::Stmts),
            Symbol::Tok(Kind::BraceClose),
        ],
        Rule::NextCaught | Rule::TheInterfaces | Rule::TheParents | Rule::NextName => &[Symbol::Sub(
            Part::ClassName,
        )],
        Rule::SomeParams | Rule::NextParam => &[Symbol::Sub(Part::Param)],
        Rule::AParam => &[
            Symbol::Sub(Part::MaybeHint),
            Symbol::Sub(Part::MaybeAmp),
            Symbol::Tok(Kind::Var),
        ],
        Rule::SomeMembers(true) => &[Symbol::Sub(Part::Member(true))],
        Rule::SomeMembers(false) => &[Symbol::Sub(Part::Member(false))],
        Rule::ConstMember => &[
            Symbol::Sub(Part::PlainWord),
            Symbol::Tok(Kind::Assign),
            Symbol::Sub(Part::Level(Context::InConst, Level::Choice)),
            Symbol::Sub(Part::MoreClassConsts),
            Symbol::Tok(Kind::Semi),
        ],
        Rule::FunctionMember(_) => &[
            Symbol::Sub(Part::AnyWord),
            Symbol::Tok(Kind::ParenOpen),
            Symbol::Sub(Part::Params),
            Symbol::Tok(Kind::ParenClose),
            Symbol::Sub(Part::MaybeResult),
        ],
        Rule::PropertyMember | Rule::ThisMember => &[
            Symbol::Sub(Part::MaybeDefault),
            Symbol::Sub(Part::MoreProperties),
            Symbol::Tok(Kind::Semi),
        ],
        Rule::NextProperty => &[Symbol::Sub(Part::AnyVar), Symbol::Sub(Part::MaybeDefault)],
        Rule::EmbeddingPrim(_) => &[
            Symbol::Sub(Part::Level(Context::InFull, Level::LowOr)),
            Symbol::Sub(Part::QuoteRest),
        ],
        Rule::QuoteNext | Rule::SomeArgs | Rule::NextArg => &[Symbol::Sub(Part::Level(
            Context::InFull,
            Level::LowOr,
        ))],
        Rule::StaticPrim(_)
        | Rule::WordPlace
        | Rule::HintWordPlace
        | Rule::StaticNamedPlace
        | Rule::ArrayNamedPlace
        | Rule::CStatic => &[Symbol::Tok(Kind::DoubleColon)],
        Rule::ArrayItems(_) => &[
            Symbol::Sub(Part::Items(Context::InFull)),
            Symbol::Tok(Kind::ParenClose),
        ],
        Rule::BracketPrim(_) => &[
            Symbol::Sub(Part::Items(Context::InFull)),
            Symbol::Tok(Kind::BracketClose),
        ],
        Rule::ParenPrim(_) => &[
            Symbol::Sub(Part::Level(Context::InFull, Level::LowOr)),
            Symbol::Tok(Kind::ParenClose),
        ],
        Rule::IssetPrim(_) => &[
            Symbol::Tok(Kind::ParenOpen),
            Symbol::Sub(Part::Place),
            Symbol::Sub(Part::MorePlaces),
            Symbol::Tok(Kind::ParenClose),
        ],
        Rule::NewPrim(_) => &[Symbol::Sub(Part::ClassOrVar)],
        Rule::CallArgs(_) => &[Symbol::Sub(Part::Args), Symbol::Tok(Kind::ParenClose)],
        Rule::ExitArgs(_) => &[Symbol::Sub(Part::MaybeExpr), Symbol::Tok(Kind::ParenClose)],
        Rule::AtIndexPlace(_) | Rule::AtIndexOther(_) | Rule::PlaceIndex => &[
            Symbol::Sub(Part::Level(Context::InFull, Level::LowOr)),
            Symbol::Tok(Kind::BracketClose),
        ],
        Rule::SomeItems(Context::InFull) => &[
            Symbol::Sub(Part::ItemExpr(Context::InFull)),
            Symbol::Sub(Part::ArrowValue(Context::InFull)),
        ],
        Rule::SomeItems(Context::InConst) => &[
            Symbol::Sub(Part::ItemExpr(Context::InConst)),
            Symbol::Sub(Part::ArrowValue(Context::InConst)),
        ],
        Rule::NextPlace => &[Symbol::Sub(Part::Place)],
        Rule::CBracket => &[
            Symbol::Sub(Part::Items(Context::InConst)),
            Symbol::Tok(Kind::BracketClose),
        ],
        Rule::CArrayItems => &[
            Symbol::Sub(Part::Items(Context::InConst)),
            Symbol::Tok(Kind::ParenClose),
        ],
        Rule::OrStep => &[Symbol::Sub(Part::Level(Context::InFull, Level::LowXor))],
        Rule::XorStep => &[Symbol::Sub(Part::Level(Context::InFull, Level::LowAnd))],
        Rule::AndStep => &[Symbol::Sub(Part::PrintPart)],
        Rule::Ternary => &[Symbol::Sub(Part::QuestionPart)],
        Rule::EitherStep => &[Symbol::Sub(Part::Level(Context::InFull, Level::Both))],
        Rule::BothStep => &[Symbol::Sub(Part::Level(Context::InFull, Level::Equality))],
        Rule::SignStep | Rule::DotStep => &[Symbol::Sub(Part::Level(
            Context::InFull,
            Level::Product,
        ))],
        Rule::ProductStep => &[Symbol::Sub(Part::NotPart)],
        Rule::CTernary => &[Symbol::Sub(Part::CQuestionPart)],
        Rule::CSignStep | Rule::CDotStep => &[Symbol::Sub(Part::Level(
            Context::InConst,
            Level::Product,
        ))],
        Rule::CProductStep => &[Symbol::Sub(Part::CNotPart)],
        Rule::FullChoice => &[
            Symbol::Sub(Part::Level(Context::InFull, Level::LowOr)),
            Symbol::Tok(Kind::Colon),
        ],
        Rule::CFullChoice => &[
            Symbol::Sub(Part::Level(Context::InConst, Level::Choice)),
            Symbol::Tok(Kind::Colon),
        ],
        _ => &[],
    }
}

/// The part that a rule ends with, where it ends with one.
#[tactic(auto, unfolding(crate::specs::Grammar::production))]
pub fn tail(rule: Rule) -> Option<Part>
    ensures { result ≡ tail_in (body_in (spec.production rule)) }
{
    match rule {
        Rule::SomeStmts => Some(Part::Stmts),
        Rule::IfStmt => Some(Part::IfBody),
        Rule::WhileStmt => Some(Part::LoopBody(Loop::OfWhile)),
        Rule::ForStmt => Some(Part::LoopBody(Loop::OfFor)),
        Rule::ForeachStmt => Some(Part::LoopBody(Loop::OfForeach)),
        Rule::SwitchStmt => Some(Part::SwitchBody),
        Rule::StaticStmt => Some(Part::AfterStatic),
        Rule::TryStmt => Some(Part::FirstCatch),
        Rule::IfListed | Rule::ElseIfListed => Some(Part::IfListedRest),
        Rule::IfSingle | Rule::ElseIf => Some(Part::IfRest),
        Rule::ElseSingle | Rule::BodySingle => Some(Part::Stmt),
        Rule::CaseArm | Rule::DefaultArm => Some(Part::Arms),
        Rule::AnExpr | Rule::IncludePrim | Rule::ItemFull => Some(Part::Level(
            Context::InFull,
            Level::LowOr,
        )),
        Rule::NextVar => Some(Part::MoreVars),
        Rule::NextStatic => Some(Part::MoreStatic),
        Rule::ADefault | Rule::ItemConst => Some(Part::Level(Context::InConst, Level::Choice)),
        Rule::NextConst => Some(Part::MoreConsts),
        Rule::ACatch => Some(Part::MoreCatches),
        Rule::NextCaught => Some(Part::MoreCaught),
        Rule::SomeParams | Rule::NextParam => Some(Part::MoreParams),
        Rule::AParam => Some(Part::MaybeDefault),
        Rule::OpenHint => Some(Part::HintName),
        Rule::AResult => Some(Part::Hint),
        Rule::AParent => Some(Part::ClassName),
        Rule::TheInterfaces | Rule::TheParents | Rule::NextName => Some(Part::MoreNames),
        Rule::SomeMembers(i) => Some(Part::Members(i)),
        Rule::NextClassConst => Some(Part::MoreClassConsts),
        Rule::FunctionMember(i) => Some(Part::MethodBody(i)),
        Rule::NextProperty => Some(Part::MoreProperties),
        Rule::VisibleMod(st, ab, fi, va, i) => Some(Part::Mods(true, st, ab, fi, va, i)),
        Rule::StaticMod(v, ab, fi, va, i) => Some(Part::Mods(v, true, ab, fi, va, i)),
        Rule::AbstractMod(v, st, fi, va, i) => Some(Part::Mods(v, st, true, fi, va, i)),
        Rule::FinalMod(v, st, ab, va, i) => Some(Part::Mods(v, st, ab, true, va, i)),
        Rule::VarMod(v, st, ab, fi, i) => Some(Part::Mods(v, st, ab, fi, true, i)),
        Rule::PrintExpr => Some(Part::PrintPart),
        Rule::NoPrint
        | Rule::AssignPlace
        | Rule::AssignOp
        | Rule::OnlyAssign
        | Rule::OnlyAssignOp
        | Rule::AValue => Some(Part::Level(Context::InFull, Level::Choice)),
        Rule::NotExpr => Some(Part::NotPart),
        Rule::NoNot => Some(Part::Level(Context::InFull, Level::Instance)),
        Rule::SignExpr | Rule::PrefixExpr => Some(Part::UnaryPart),
        Rule::StepBefore => Some(Part::StepPlace),
        Rule::NoUnary => Some(Part::Prim(true)),
        Rule::IntPrim(c)
        | Rule::TextPrim(c)
        | Rule::QuotePrim(c)
        | Rule::EmbeddingPrim(c)
        | Rule::ArrayItems(c)
        | Rule::BracketPrim(c)
        | Rule::ParenPrim(c)
        | Rule::IssetPrim(c)
        | Rule::EmptyPrim(c)
        | Rule::ClassForm(c)
        | Rule::CallArgs(c)
        | Rule::ExitArgs(c)
        | Rule::AtIndexOther(c) => Some(Part::Tail(Seen::OtherSeen, c)),
        Rule::QuoteNext => Some(Part::QuoteRest),
        Rule::VarPrim(c) => Some(Part::Tail(Seen::VarSeen, c)),
        Rule::ThisPrim(c) => Some(Part::Tail(Seen::ThisSeen, c)),
        Rule::WordPrim(c) | Rule::HintWordPrim(c) => Some(Part::Tail(Seen::WordSeen, c)),
        Rule::StaticPrim(c) | Rule::ArrayName(c) | Rule::Colons(c) => Some(Part::AfterColons(c)),
        Rule::ArrayPrim(c) => Some(Part::ArrayPart(c)),
        Rule::ExitPrim(c) => Some(Part::Tail(Seen::ExitSeen, c)),
        Rule::NewPrim(c) => Some(Part::Tail(Seen::NewSeen, c)),
        Rule::ClonePrim => Some(Part::Prim(false)),
        Rule::StaticProperty(c) | Rule::StaticPropertyThis(c) | Rule::AtIndexPlace(c) => Some(
            Part::Tail(Seen::PlaceSeen, c),
        ),
        Rule::StaticMember(_, c) => Some(Part::Tail(Seen::StaticMemberSeen, c)),
        Rule::OpenIndex(p, c) => Some(Part::IndexPart(p, c)),
        Rule::Arrow(p, c) => Some(Part::MemberPart(p, c)),
        Rule::AssignVar => Some(Part::ValueOrReference),
        Rule::Appended => Some(Part::AssignOnly),
        Rule::PlaceMember(_, c) => Some(Part::Tail(Seen::PlaceMemberSeen, c)),
        Rule::OtherMember(_, c) => Some(Part::Tail(Seen::OtherMemberSeen, c)),
        Rule::SomeArgs | Rule::NextArg => Some(Part::MoreArgs),
        Rule::SomeItems(x) => Some(Part::MoreItems(x)),
        Rule::Paired(x) => Some(Part::ItemExpr(x)),
        Rule::NextItem(x) => Some(Part::Items(x)),
        Rule::NextPlace => Some(Part::MorePlaces),
        Rule::VarPlace
        | Rule::ThisPlace
        | Rule::VarStaticPlace
        | Rule::ThisStaticPlace
        | Rule::PlaceIndex
        | Rule::PlaceNamed(_) => Some(Part::PlaceTail),
        Rule::WordPlace | Rule::HintWordPlace | Rule::StaticNamedPlace | Rule::ArrayNamedPlace =>
            Some(Part::StaticPlace),
        Rule::ThisStepPlace => Some(Part::ThisPlaceTail),
        Rule::PlaceArrow => Some(Part::PlaceMemberPart),
        Rule::CNotExpr => Some(Part::CNotPart),
        Rule::CNoNot | Rule::CSignExpr => Some(Part::CUnaryPart),
        Rule::CNoSign => Some(Part::CPrim),
        Rule::CWord | Rule::CHintWord => Some(Part::CWordTail),
        Rule::CStatic | Rule::CColons | Rule::CArrayName => Some(Part::CMember),
        Rule::CArray => Some(Part::CArrayPart),
        Rule::BegunStatic => Some(Part::AfterColons(true)),
        Rule::OrStep => Some(Part::Operators(Context::InFull, Level::LowOr)),
        Rule::XorStep => Some(Part::Operators(Context::InFull, Level::LowXor)),
        Rule::AndStep => Some(Part::Operators(Context::InFull, Level::LowAnd)),
        Rule::Ternary => Some(Part::Operators(Context::InFull, Level::Choice)),
        Rule::Coalesced | Rule::ShortChoice | Rule::FullChoice => Some(Part::Level(
            Context::InFull,
            Level::Coalescing,
        )),
        Rule::EitherStep => Some(Part::Operators(Context::InFull, Level::Either)),
        Rule::BothStep => Some(Part::Operators(Context::InFull, Level::Both)),
        Rule::EqualityStep => Some(Part::Level(Context::InFull, Level::Order)),
        Rule::OrderStep => Some(Part::Level(Context::InFull, Level::Sum)),
        Rule::SignStep | Rule::DotStep => Some(Part::Operators(Context::InFull, Level::Sum)),
        Rule::ProductStep => Some(Part::Operators(Context::InFull, Level::Product)),
        Rule::InstanceStep => Some(Part::ClassOrVar),
        Rule::CTernary => Some(Part::Operators(Context::InConst, Level::Choice)),
        Rule::CSignStep | Rule::CDotStep => Some(Part::Operators(Context::InConst, Level::Sum)),
        Rule::CProductStep => Some(Part::Operators(Context::InConst, Level::Product)),
        Rule::CShortChoice | Rule::CFullChoice => Some(Part::Level(Context::InConst, Level::Sum)),
        _ => None,
    }
}

/// How many levels of depth a node of the rule is.
#[tactic(auto, unfolding(crate::specs::Grammar::weight))]
pub fn weight(rule: Rule) -> usize
    ensures { result ≡ spec.weight rule }
{
    match rule {
        Rule::InlineText
        | Rule::EchoTag
        | Rule::EchoWord
        | Rule::EmptyStmt
        | Rule::Block
        | Rule::IfStmt
        | Rule::WhileStmt
        | Rule::DoStmt
        | Rule::ForStmt
        | Rule::ForeachStmt
        | Rule::SwitchStmt
        | Rule::JumpStmt
        | Rule::ReturnStmt
        | Rule::GlobalStmt
        | Rule::StaticStmt
        | Rule::UnsetStmt
        | Rule::ThrowStmt
        | Rule::TryStmt
        | Rule::FunctionStmt
        | Rule::AbstractClass
        | Rule::FinalClass
        | Rule::PlainClass
        | Rule::InterfaceStmt
        | Rule::ConstStmt
        | Rule::RemovedStmt
        | Rule::ExprStmt
        | Rule::PrintExpr
        | Rule::NotExpr
        | Rule::SignExpr
        | Rule::PrefixExpr
        | Rule::StepBefore
        | Rule::IntPrim(_)
        | Rule::TextPrim(_)
        | Rule::QuotePrim(_)
        | Rule::EmbeddingPrim(_)
        | Rule::VarPrim(_)
        | Rule::ThisPrim(_)
        | Rule::WordPrim(_)
        | Rule::HintWordPrim(_)
        | Rule::StaticPrim(_)
        | Rule::ArrayPrim(_)
        | Rule::BracketPrim(_)
        | Rule::ParenPrim(_)
        | Rule::IssetPrim(_)
        | Rule::EmptyPrim(_)
        | Rule::ExitPrim(_)
        | Rule::NewPrim(_)
        | Rule::ClonePrim
        | Rule::IncludePrim
        | Rule::CNotExpr
        | Rule::CSignExpr
        | Rule::CInt
        | Rule::CText
        | Rule::CWord
        | Rule::CHintWord
        | Rule::CStatic
        | Rule::CArray
        | Rule::CBracket
        | Rule::BegunStatic => 1,
        _ => 0,
    }
}

/// The operand of a level, which the next tighter level is.
#[tactic(auto, unfolding(crate::specs::Grammar::operand))]
pub fn operand(part: Part) -> Option<Part>
    ensures { result ≡ spec.operand part }
{
    match part {
        Part::Level(Context::InFull, Level::LowOr) => Some(Part::Level(
            Context::InFull,
            Level::LowXor,
        )),
        Part::Level(Context::InFull, Level::LowXor) => Some(Part::Level(
            Context::InFull,
            Level::LowAnd,
        )),
        Part::Level(Context::InFull, Level::LowAnd) => Some(Part::PrintPart),
        Part::Level(Context::InFull, Level::Choice) => Some(Part::Level(
            Context::InFull,
            Level::Coalescing,
        )),
        Part::Level(Context::InFull, Level::Coalescing) => Some(Part::Level(
            Context::InFull,
            Level::Either,
        )),
        Part::Level(Context::InFull, Level::Either) => Some(Part::Level(
            Context::InFull,
            Level::Both,
        )),
        Part::Level(Context::InFull, Level::Both) => Some(Part::Level(
            Context::InFull,
            Level::Equality,
        )),
        Part::Level(Context::InFull, Level::Equality) => Some(Part::Level(
            Context::InFull,
            Level::Order,
        )),
        Part::Level(Context::InFull, Level::Order) => Some(Part::Level(
            Context::InFull,
            Level::Sum,
        )),
        Part::Level(Context::InFull, Level::Sum) => Some(Part::Level(
            Context::InFull,
            Level::Product,
        )),
        Part::Level(Context::InFull, Level::Product) => Some(Part::NotPart),
        Part::Level(Context::InFull, Level::Instance) => Some(Part::UnaryPart),
        Part::Level(Context::InConst, Level::Choice) => Some(Part::Level(
            Context::InConst,
            Level::Sum,
        )),
        Part::Level(Context::InConst, Level::Sum) => Some(Part::Level(
            Context::InConst,
            Level::Product,
        )),
        Part::Level(Context::InConst, Level::Product) => Some(Part::CNotPart),
        Part::Begun(Level::LowOr) => Some(Part::Begun(Level::LowXor)),
        Part::Begun(Level::LowXor) => Some(Part::Begun(Level::LowAnd)),
        Part::Begun(Level::LowAnd) => Some(Part::Begun(Level::Choice)),
        Part::Begun(Level::Choice) => Some(Part::Begun(Level::Coalescing)),
        Part::Begun(Level::Coalescing) => Some(Part::Begun(Level::Either)),
        Part::Begun(Level::Either) => Some(Part::Begun(Level::Both)),
        Part::Begun(Level::Both) => Some(Part::Begun(Level::Equality)),
        Part::Begun(Level::Equality) => Some(Part::Begun(Level::Order)),
        Part::Begun(Level::Order) => Some(Part::Begun(Level::Sum)),
        Part::Begun(Level::Sum) => Some(Part::Begun(Level::Product)),
        Part::Begun(Level::Product) => Some(Part::Begun(Level::Instance)),
        Part::Begun(Level::Instance) => Some(Part::BegunPrim),
        _ => None,
    }
}

/// What a level goes on with.
#[tactic(auto, unfolding(crate::specs::Grammar::steps))]
pub fn steps(part: Part) -> Part
    ensures { result ≡ spec.steps part }
{
    match part {
        Part::Level(context, level) => Part::Operators(context, level),
        Part::Begun(level) => Part::Operators(Context::InFull, level),
        _ => Part::File,
    }
}
