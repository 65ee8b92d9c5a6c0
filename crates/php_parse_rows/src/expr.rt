//! Prints expressions.

use crate::print::Print;
use crate::words::{assign_word, chain_word, compare_word, include_word, unary_word};
use php_tree::expr::{Access, Branch, ChainOp, Expr, Item, QuoteKey, QuotePart, StepOp};
use php_tree::name::{ClassName, MemberName};
use std::alloc::AllocError;

impl Print<'_> {
    #[cycle(expr)]
    pub fn expr(&mut self, expr: &Expr) -> Result<(), AllocError> {
        self.line(expr.line())?;
        match expr {
            Expr::Int(value, _) => self.int(*value),
            Expr::Text(text, _) => self.quoted(text.as_slice()),
            Expr::Quote(parts, _) => self.quote(parts.as_slice()),
            Expr::Var(number, _) => self.variable(*number),
            Expr::Constant(name, _) => self.put(name.text.as_slice()),
            Expr::Array(items, _) => self.array(items.as_slice()),
            Expr::Paren(inner, _) => self.one(b"paren", inner.get()),
            Expr::Isset(places, _) => self.several(b"isset", places.as_slice()),
            Expr::Empty(operand, _) => self.one(b"empty", operand.get()),
            Expr::Exit(_) => self.put(b"(exit)"),
            Expr::ExitWith(operand, _) => self.one(b"exit", operand.get()),
            Expr::New(name, args, _) => self.call(
                b"new",
                name.text.as_slice(),
                name.line,
                args.as_slice(),
            ),
            Expr::NewVar(number, args, _) => self.variable_call(b"new", *number, args.as_slice()),
            Expr::Call(name, args, _) => self.call(
                b"call",
                name.text.as_slice(),
                name.line,
                args.as_slice(),
            ),
            Expr::CallVar(number, args, _) => self.variable_call(b"call", *number, args.as_slice()),
            Expr::ClassConstant(class, member, _) => self.member(class, b"::", member),
            Expr::StaticCall(class, member, args, _) => self.static_call(
                class,
                member,
                args.as_slice(),
            ),
            Expr::StaticProperty(class, member, _) => self.member(class, b"::$", member),
            Expr::ClassText(class, _) => self.class_text(class),
            Expr::Post(head, accesses, _) => {
                self.open(b"post")?;
                self.expr(head.get())?;
                self.accesses(accesses.as_slice())
            }
            Expr::Chain(first, links, _) => {
                self.open(b"chain")?;
                self.expr(first.get())?;
                self.links(links.as_slice())
            }
            Expr::Print(operand, _) => self.one(b"print", operand.get()),
            Expr::Assign(place, op, value, _) => {
                self.open(assign_word(*op))?;
                self.expr(place.get())?;
                self.last(value.get())
            }
            Expr::AssignReference(left, right, _) => self.reference(*left, *right),
            Expr::Choice(first, branches, _) => {
                self.open(b"choice")?;
                self.expr(first.get())?;
                self.branches(branches.as_slice())
            }
            Expr::Coalesce(left, right, _) => {
                self.open(b"??")?;
                self.expr(left.get())?;
                self.last(right.get())
            }
            Expr::Compare(left, op, right, _) => {
                self.open(compare_word(*op))?;
                self.expr(left.get())?;
                self.last(right.get())
            }
            Expr::Unary(op, operand, _) => self.one(unary_word(*op), operand.get()),
            Expr::InstanceOf(operand, class, _) => self.instance_of(operand.get(), class),
            Expr::InstanceOfVar(operand, number, _) => self.instance_of_variable(
                operand.get(),
                *number,
            ),
            Expr::Step(op, place, _) => self.step(*op, place.get()),
            Expr::Clone(operand, _) => self.one(b"clone", operand.get()),
            Expr::Include(kind, operand, _) => self.one(include_word(*kind), operand.get()),
        }
    }

    /// Expressions, each behind a space.
    #[cycle(expr)]
    pub fn exprs(&mut self, exprs: &[Expr]) -> Result<(), AllocError> {
        for expr in exprs {
            self.space()?;
            self.expr(expr)?;
        }
        Ok(())
    }

    /// Expressions, each with a comma behind it, up to a closing parenthesis.
    pub fn listed(&mut self, exprs: &[Expr]) -> Result<(), AllocError> {
        for expr in exprs {
            self.expr(expr)?;
            self.put(b",")?;
        }
        self.close()
    }

    #[cycle(expr)]
    fn one(&mut self, word: &[u8], operand: &Expr) -> Result<(), AllocError> {
        self.put(b"(")?;
        self.put(word)?;
        self.space()?;
        self.expr(operand)?;
        self.close()
    }

    // What an operator begins with.
    fn open(&mut self, word: &[u8]) -> Result<(), AllocError> {
        self.put(b"(")?;
        self.put(word)?;
        self.space()
    }

    // The last operand.
    #[cycle(expr)]
    fn last(&mut self, operand: &Expr) -> Result<(), AllocError> {
        self.space()?;
        self.expr(operand)?;
        self.close()
    }

    #[cycle(expr)]
    fn several(&mut self, word: &[u8], exprs: &[Expr]) -> Result<(), AllocError> {
        self.put(b"(")?;
        self.put(word)?;
        self.exprs(exprs)?;
        self.close()
    }

    #[cycle(expr)]
    fn call(
        &mut self,
        word: &[u8],
        name: &[u8],
        line: u32,
        args: &[Expr],
    ) -> Result<(), AllocError> {
        self.put(b"(")?;
        self.put(word)?;
        self.space()?;
        self.name(name, line)?;
        self.exprs(args)?;
        self.close()
    }

    #[cycle(expr)]
    fn variable_call(&mut self, word: &[u8], number: u32, args: &[Expr]) -> Result<(), AllocError> {
        self.put(b"(")?;
        self.put(word)?;
        self.space()?;
        self.variable(number)?;
        self.exprs(args)?;
        self.close()
    }

    fn class_text(&mut self, class: &ClassName) -> Result<(), AllocError> {
        self.name(class.text.as_slice(), class.line)?;
        self.put(b"::class")
    }

    fn member(
        &mut self,
        class: &ClassName,
        sign: &[u8],
        member: &MemberName,
    ) -> Result<(), AllocError> {
        self.name(class.text.as_slice(), class.line)?;
        self.put(sign)?;
        self.name(member.text.as_slice(), member.line)
    }

    #[cycle(expr)]
    fn static_call(
        &mut self,
        class: &ClassName,
        member: &MemberName,
        args: &[Expr],
    ) -> Result<(), AllocError> {
        self.put(b"(call ")?;
        self.member(class, b"::", member)?;
        self.exprs(args)?;
        self.close()
    }

    fn reference(&mut self, left: u32, right: u32) -> Result<(), AllocError> {
        self.put(b"(=& ")?;
        self.variable(left)?;
        self.space()?;
        self.variable(right)?;
        self.close()
    }

    #[cycle(expr)]
    fn instance_of(&mut self, operand: &Expr, class: &ClassName) -> Result<(), AllocError> {
        self.put(b"(instanceof ")?;
        self.expr(operand)?;
        self.space()?;
        self.name(class.text.as_slice(), class.line)?;
        self.close()
    }

    #[cycle(expr)]
    fn instance_of_variable(&mut self, operand: &Expr, number: u32) -> Result<(), AllocError> {
        self.put(b"(instanceof ")?;
        self.expr(operand)?;
        self.space()?;
        self.variable(number)?;
        self.close()
    }

    #[cycle(expr)]
    fn step(&mut self, op: StepOp, place: &Expr) -> Result<(), AllocError> {
        let (before, after): (&[u8], &[u8]) = match op {
            StepOp::IncrementBefore => (b"(++ ", b")"),
            StepOp::DecrementBefore => (b"(-- ", b")"),
            StepOp::IncrementAfter => (b"(", b" ++)"),
            StepOp::DecrementAfter => (b"(", b" --)"),
        };
        self.put(before)?;
        self.expr(place)?;
        self.put(after)
    }

    #[cycle(expr)]
    fn links(&mut self, links: &[(ChainOp, Expr)]) -> Result<(), AllocError> {
        for (op, operand) in links {
            self.space()?;
            self.put(chain_word(*op))?;
            self.space()?;
            self.expr(operand)?;
        }
        self.close()
    }

    #[cycle(expr)]
    fn branches(&mut self, branches: &[Branch<Expr>]) -> Result<(), AllocError> {
        for branch in branches {
            match branch {
                Branch::Full(then, other) => {
                    self.put(b" ? ")?;
                    self.expr(then)?;
                    self.put(b" : ")?;
                    self.expr(other)?;
                }
                Branch::Short(other) => {
                    self.put(b" ?: ")?;
                    self.expr(other)?;
                }
            }
        }
        self.close()
    }

    // Items, each with a comma behind it.
    #[cycle(expr)]
    fn array(&mut self, items: &[Item<Expr>]) -> Result<(), AllocError> {
        self.put(b"[")?;
        for item in items {
            match item {
                Item::Value(value) => self.expr(value)?,
                Item::Pair(key, value) => {
                    self.expr(key)?;
                    self.put(b" => ")?;
                    self.expr(value)?;
                }
            }
            self.put(b",")?;
        }
        self.put(b"]")
    }

    #[cycle(expr)]
    fn accesses(&mut self, accesses: &[Access<Expr>]) -> Result<(), AllocError> {
        for access in accesses {
            self.space()?;
            match access {
                Access::Index(key) => {
                    self.put(b"[")?;
                    self.expr(key)?;
                    self.put(b"]")?;
                }
                Access::Append => self.put(b"[]")?,
                Access::Property(member) => self.arrow(member)?,
                Access::Method(member, args) => {
                    self.arrow(member)?;
                    self.put(b"(")?;
                    for argument in args.as_slice() {
                        self.expr(argument)?;
                        self.put(b",")?;
                    }
                    self.close()?;
                }
            }
        }
        self.close()
    }

    fn arrow(&mut self, member: &MemberName) -> Result<(), AllocError> {
        self.put(b"->")?;
        self.name(member.text.as_slice(), member.line)
    }

    #[cycle(expr)]
    fn quote(&mut self, parts: &[QuotePart<Expr>]) -> Result<(), AllocError> {
        self.put(b"(quote")?;
        for part in parts {
            self.space()?;
            match part {
                QuotePart::Bytes(text) => self.quoted(text.as_slice())?,
                QuotePart::Var(number) => self.variable(*number)?,
                QuotePart::Index(number, key) => self.index(*number, key)?,
                QuotePart::Property(number, member) => {
                    self.variable(*number)?;
                    self.arrow(member)?;
                }
                QuotePart::Embedded(expr) => {
                    self.put(b"{")?;
                    self.expr(expr)?;
                    self.put(b"}")?;
                }
            }
        }
        self.close()
    }

    fn index(&mut self, number: u32, key: &QuoteKey) -> Result<(), AllocError> {
        self.variable(number)?;
        self.put(b"[")?;
        self.key(key)?;
        self.put(b"]")
    }
}
