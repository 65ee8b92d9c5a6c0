//! Prints statements, functions and classes.

use crate::print::Print;
use crate::words::{class_word, visibility_word, word_if};
use php_tree::decl::{
    ClassConst, ClassDecl, FunDecl, Hint, Member, Modifiers, Param, PropertyDecl, Signature,
};
use php_tree::expr::Expr;
use php_tree::name::{ClassName, FunName};
use php_tree::stmt::{Catch, ConstDecl, IfArm, StaticVar, Stmt, SwitchArm};
use sqlite_items::{Boxed, Items};
use std::alloc::AllocError;

// ---- what encloses no statements

impl Print<'_> {
    fn one_expr(&mut self, word: &[u8], expr: &Expr) -> Result<(), AllocError> {
        self.put(word)?;
        self.expr(expr)?;
        self.close()
    }

    fn list(&mut self, word: &[u8], exprs: &[Expr]) -> Result<(), AllocError> {
        self.put(word)?;
        self.exprs(exprs)?;
        self.close()
    }

    fn for_head(&mut self, first: &[Expr], test: &[Expr], step: &[Expr]) -> Result<(), AllocError> {
        self.put(b"(for (")?;
        self.listed(first)?;
        self.put(b" (")?;
        self.listed(test)?;
        self.put(b" (")?;
        self.listed(step)?;
        self.space()
    }

    fn jump(&mut self, word: &[u8], levels: i64) -> Result<(), AllocError> {
        self.put(word)?;
        self.int(levels)?;
        self.close()
    }

    fn inline(&mut self, text: &[u8]) -> Result<(), AllocError> {
        self.put(b"(inline ")?;
        self.quoted(text)?;
        self.close()
    }

    fn evaluate(&mut self, expr: &Expr) -> Result<(), AllocError> {
        self.expr(expr)?;
        self.put(b";")
    }

    fn return_expr(&mut self, expr: &Option<Boxed<Expr>>) -> Result<(), AllocError> {
        match expr {
            Some(expr) => self.one_expr(b"(return ", expr.get()),
            None => self.put(b"(return)"),
        }
    }

    fn global(&mut self, numbers: &[u32]) -> Result<(), AllocError> {
        self.put(b"(global")?;
        self.variables(numbers)?;
        self.close()
    }

    fn default(&mut self, default: &Option<Boxed<Expr>>) -> Result<(), AllocError> {
        match default {
            Some(expr) => {
                self.put(b" = ")?;
                self.expr(expr.get())
            }
            None => Ok(()),
        }
    }

    fn static_variables(&mut self, variables: &[StaticVar]) -> Result<(), AllocError> {
        self.put(b"(static")?;
        for variable in variables {
            self.space()?;
            self.variable(variable.variable)?;
            self.default(&variable.default)?;
        }
        self.close()
    }

    fn constants(&mut self, constants: &[ConstDecl]) -> Result<(), AllocError> {
        self.put(b"(const")?;
        for constant in constants {
            self.space()?;
            self.put(constant.name.text.as_slice())?;
            self.put(b" = ")?;
            self.expr(constant.value.get())?;
        }
        self.close()
    }

    fn removed(
        &mut self,
        kind: &[u8],
        path: &[u8],
        name: &Option<Items<u8>>,
    ) -> Result<(), AllocError> {
        self.put(b"(removed ")?;
        self.quoted(kind)?;
        self.space()?;
        self.quoted(path)?;
        if let Some(name) = name {
            self.space()?;
            self.quoted(name.as_slice())?;
        }
        self.close()
    }

    fn class_names(&mut self, names: &[ClassName]) -> Result<(), AllocError> {
        for name in names {
            self.space()?;
            self.name(name.text.as_slice(), name.line)?;
        }
        Ok(())
    }

    fn hint(&mut self, hint: &Hint) -> Result<(), AllocError> {
        self.line(hint.line)?;
        self.put(word_if(hint.nullable, b"?"))?;
        self.name(hint.name.text.as_slice(), hint.name.line)
    }

    fn param(&mut self, param: &Param) -> Result<(), AllocError> {
        if let Some(hint) = &param.hint {
            self.hint(hint)?;
            self.space()?;
        }
        self.put(word_if(param.by_reference, b"&"))?;
        self.line(param.line)?;
        self.variable(param.variable)?;
        self.default(&param.default)?;
        self.put(b",")
    }

    // What a function begins with.
    fn head(
        &mut self,
        line: u32,
        name: &FunName,
        params: &[Param],
        gives: &Option<Hint>,
    ) -> Result<(), AllocError> {
        self.line(line)?;
        self.put(b"function ")?;
        self.name(name.text.as_slice(), name.line)?;
        self.put(b"(")?;
        for param in params {
            self.param(param)?;
        }
        self.put(b")")?;
        if let Some(hint) = gives {
            self.put(b": ")?;
            self.hint(hint)?;
        }
        Ok(())
    }

    fn bodiless(&mut self, signature: &Signature) -> Result<(), AllocError> {
        self.head(
            signature.line,
            &signature.name,
            signature.params.as_slice(),
            &signature.result,
        )?;
        self.put(b";")
    }

    fn class_constants(&mut self, constants: &[ClassConst]) -> Result<(), AllocError> {
        self.put(b"const")?;
        for constant in constants {
            self.space()?;
            self.name(constant.name.text.as_slice(), constant.name.line)?;
            self.put(b" = ")?;
            self.expr(constant.value.get())?;
        }
        self.put(b";")
    }

    fn properties(&mut self, properties: &[PropertyDecl]) -> Result<(), AllocError> {
        for property in properties {
            self.put(b"$")?;
            self.name(property.name.text.as_slice(), property.name.line)?;
            self.default(&property.default)?;
            self.put(b";")?;
        }
        Ok(())
    }

    fn modifiers(&mut self, modifiers: Modifiers) -> Result<(), AllocError> {
        self.put(visibility_word(modifiers))?;
        self.put(word_if(modifiers.is_static, b"static "))?;
        self.put(word_if(modifiers.is_abstract, b"abstract "))?;
        self.put(word_if(modifiers.is_final, b"final "))?;
        self.put(word_if(modifiers.is_var, b"var "))
    }

    // What a class begins with.
    fn class_head(&mut self, class: &ClassDecl) -> Result<(), AllocError> {
        self.put(class_word(class.kind))?;
        self.name(class.name.text.as_slice(), class.name.line)?;
        if let Some(parent) = &class.parent {
            self.put(b" extends ")?;
            self.name(parent.text.as_slice(), parent.line)?;
        }
        if class.interfaces.is_empty() {
            return Ok(());
        }
        self.put(b" from")?;
        self.class_names(class.interfaces.as_slice())
    }
}

// ---- what encloses statements

impl Print<'_> {
    #[cycle(stmt)]
    fn stmt(&mut self, stmt: &Stmt) -> Result<(), AllocError> {
        self.line(stmt.line())?;
        match stmt {
            Stmt::Inline(text, _) => self.inline(text.as_slice()),
            Stmt::Echo(exprs, _) => self.list(b"(echo", exprs.as_slice()),
            Stmt::Expr(expr, _) => self.evaluate(expr.get()),
            Stmt::Empty(_) => self.put(b";"),
            Stmt::Block(body, _) => self.body(body.as_slice()),
            Stmt::If(arms, last, _) => {
                self.put(b"(if")?;
                self.arms(arms.as_slice())?;
                self.otherwise(last.as_slice())
            }
            Stmt::While(test, body, _) => self.guarded(b"(while ", body.as_slice(), test.get()),
            Stmt::Do(body, test, _) => self.do_loop(body.as_slice(), test.get()),
            Stmt::For(first, test, step, body, _) => {
                self.for_head(first.as_slice(), test.as_slice(), step.as_slice())?;
                self.body(body.as_slice())?;
                self.close()
            }
            Stmt::Foreach(value, key, element, body, _) => {
                self.foreach_head(value.get(), *key, *element)?;
                self.body(body.as_slice())?;
                self.close()
            }
            Stmt::Switch(value, arms, _) => self.switch(arms.as_slice(), value.get()),
            Stmt::Break(levels, _) => self.jump(b"(break ", *levels),
            Stmt::Continue(levels, _) => self.jump(b"(continue ", *levels),
            Stmt::Return(expr, _) => self.return_expr(expr),
            Stmt::Global(numbers, _) => self.global(numbers.as_slice()),
            Stmt::Static(variables, _) => self.static_variables(variables.as_slice()),
            Stmt::Unset(places, _) => self.list(b"(unset", places.as_slice()),
            Stmt::Throw(expr, _) => self.one_expr(b"(throw ", expr.get()),
            Stmt::Try(body, clauses, _) => {
                self.put(b"(try ")?;
                self.body(body.as_slice())?;
                self.clauses(clauses.as_slice())
            }
            Stmt::Function(function, _) => self.function(function.get()),
            Stmt::Class(class, _) => self.class(class.get()),
            Stmt::Const(constants, _) => self.constants(constants.as_slice()),
            Stmt::Removed(kind, path, name, _) => self.removed(
                kind.as_slice(),
                path.as_slice(),
                name,
            ),
        }
    }

    /// Statements, with a space between two.
    #[cycle(stmt)]
    pub fn stmts(&mut self, stmts: &[Stmt]) -> Result<(), AllocError> {
        let mut between: &[u8] = b"";
        for stmt in stmts {
            self.put(between)?;
            self.stmt(stmt)?;
            between = b" ";
        }
        Ok(())
    }

    #[cycle(stmt)]
    fn body(&mut self, stmts: &[Stmt]) -> Result<(), AllocError> {
        self.put(b"{")?;
        self.stmts(stmts)?;
        self.put(b"}")
    }

    #[cycle(stmt)]
    fn guarded(&mut self, word: &[u8], body: &[Stmt], test: &Expr) -> Result<(), AllocError> {
        self.put(word)?;
        self.expr(test)?;
        self.space()?;
        self.body(body)?;
        self.close()
    }

    #[cycle(stmt)]
    fn arms(&mut self, arms: &[IfArm]) -> Result<(), AllocError> {
        for arm in arms {
            self.arm(arm)?;
        }
        Ok(())
    }

    // What stands after `else`, where there is something.
    #[cycle(stmt)]
    fn otherwise(&mut self, last: &[Stmt]) -> Result<(), AllocError> {
        if last.is_empty() {
            return self.close();
        }
        self.put(b" else ")?;
        self.body(last)?;
        self.close()
    }

    #[cycle(stmt)]
    fn arm(&mut self, arm: &IfArm) -> Result<(), AllocError> {
        match arm {
            IfArm::Arm(test, body) => {
                self.space()?;
                self.expr(test.get())?;
                self.space()?;
                self.body(body.as_slice())
            }
        }
    }

    #[cycle(stmt)]
    fn do_loop(&mut self, body: &[Stmt], test: &Expr) -> Result<(), AllocError> {
        self.put(b"(do ")?;
        self.body(body)?;
        self.space()?;
        self.expr(test)?;
        self.close()
    }

    fn foreach_head(
        &mut self,
        value: &Expr,
        key: Option<u32>,
        element: u32,
    ) -> Result<(), AllocError> {
        self.put(b"(foreach ")?;
        self.expr(value)?;
        self.put(b" as ")?;
        if let Some(key) = key {
            self.variable(key)?;
            self.put(b" => ")?;
        }
        self.variable(element)?;
        self.space()
    }

    #[cycle(stmt)]
    fn switch(&mut self, arms: &[SwitchArm], value: &Expr) -> Result<(), AllocError> {
        self.put(b"(switch ")?;
        self.expr(value)?;
        for arm in arms {
            self.space()?;
            self.case(arm)?;
        }
        self.close()
    }

    #[cycle(stmt)]
    fn case(&mut self, arm: &SwitchArm) -> Result<(), AllocError> {
        match arm {
            SwitchArm::Case(value, body) => self.guarded(b"(case ", body.as_slice(), value.get()),
            SwitchArm::Default(body) => {
                self.put(b"(default ")?;
                self.body(body.as_slice())?;
                self.close()
            }
        }
    }

    #[cycle(stmt)]
    fn clauses(&mut self, clauses: &[Catch]) -> Result<(), AllocError> {
        for clause in clauses {
            self.clause(clause)?;
        }
        self.close()
    }

    #[cycle(stmt)]
    fn clause(&mut self, clause: &Catch) -> Result<(), AllocError> {
        match clause {
            Catch::Clause(names, number, body) => {
                self.put(b" (catch")?;
                self.class_names(names.as_slice())?;
                self.space()?;
                self.variable(*number)?;
                self.space()?;
                self.body(body.as_slice())?;
                self.close()
            }
        }
    }

    #[cycle(stmt)]
    fn function(&mut self, function: &FunDecl) -> Result<(), AllocError> {
        self.put(b"(")?;
        self.head(
            function.line,
            &function.name,
            function.params.as_slice(),
            &function.result,
        )?;
        self.space()?;
        self.body(function.body.as_slice())?;
        self.close()
    }

    #[cycle(stmt)]
    fn class(&mut self, class: &ClassDecl) -> Result<(), AllocError> {
        self.put(b"(")?;
        self.class_head(class)?;
        for member in class.members.as_slice() {
            self.space()?;
            self.member_of_class(member)?;
        }
        self.close()
    }

    #[cycle(stmt)]
    fn member_of_class(&mut self, member: &Member) -> Result<(), AllocError> {
        match member {
            Member::Constants(constants, line) => {
                self.line(*line)?;
                self.class_constants(constants.as_slice())
            }
            Member::Properties(modifiers, properties, line) => {
                self.line(*line)?;
                self.modifiers(*modifiers)?;
                self.properties(properties.as_slice())
            }
            Member::Method(modifiers, function, line) => {
                self.line(*line)?;
                self.modifiers(*modifiers)?;
                self.function(function.get())
            }
            Member::Bodiless(modifiers, signature, line) => {
                self.line(*line)?;
                self.modifiers(*modifiers)?;
                self.bodiless(signature.get())
            }
        }
    }
}
