//! Statements: what a token makes of where one stands between and in them.

ghost use Rattle.std.specs.Prelude.{◌≡◌, ◌<◌, ◌++◌, ◌∷◌, [], Ok, Some, None, OnOk, IfOk, IsTrue, true, false};
ghost use Rattle.std.specs.List.{list_all};
ghost use Rattle.dts_parse.specs.Fronts.{is_opening, may_name};
ghost use Rattle.dts_parse.specs.Inner.Machine.{at_brace, at_child, at_close, at_deletion, at_end, at_flag, at_label, at_mark, at_opening, behind_name, complete, directive, in_body, is_bare, is_prop, named, place_now, refused};
ghost use Rattle.dts_parse.specs.Inner.Shown.{Leaves, shown};
ghost use Rattle.dts_parse.specs.Statements.{has_begun, is_early, is_empty, omits, takes_inner, takes_top, takes_version};
ghost use Rattle.dts_parse.specs.StmtData.{Open, Close, Label, Assign, DelProp, DelNode, Omit, stmt};
ghost use Rattle.dts_parse.specs.Texts.{target_of};
ghost use Rattle.dts_parse.specs.Token.{is_ascii, is_label_form, is_node_form, is_prop_form};
ghost use Rattle.dts_parse.specs.declared.mode.Mode.TheVariants as mode;
ghost use Rattle.dts_parse.specs.declared.mode.Wanted.TheVariants as wanted;
ghost use Rattle.dts_parse.specs.declared.script.Target.TheVariants as target;
ghost use Rattle.dts_parse.specs.declared.terminal.Terminal.TheVariants as terminal;

use crate::mode::{Breach, Mode, Stage, Wanted};
use crate::parser::{Name, Parser, Pending};
use crate::script::{Act, Stmt, Target};
use crate::stop::Stop;
use crate::targets::{omits, target_of, text_of};
use crate::terminal::{Form, Terminal};
use crate::token::Token;
use std::alloc::Global;

pub(crate) fn is_label_form(form: Form) -> bool
    ensures { result ≡ is_label_form form }
{
    matches!(form, Form::Label)
}

pub(crate) fn is_node_form(form: Form) -> bool
    ensures { result ≡ is_node_form form }
{
    !matches!(form, Form::Prop)
}

pub(crate) fn is_prop_form(form: Form) -> bool
    ensures { result ≡ is_prop_form form }
{
    !matches!(form, Form::Node)
}

impl<'a> Parser<'a> {
    /// No node is open.
    fn is_outside(&self) -> bool
        ensures { result ≡ is_empty (shown self.now).opened }
    {
        self.opened.is_empty()
    }

    fn has_begun(&self) -> bool
        ensures { result ≡ has_begun (shown self.now).stage }
    {
        match self.stage {
            Stage::First => false,
            Stage::Versions | Stage::Rest => true,
        }
    }

    fn is_early(&self) -> bool
        ensures { result ≡ is_early (shown self.now).stage }
    {
        match self.stage {
            Stage::First | Stage::Versions => true,
            Stage::Rest => false,
        }
    }

    pub(crate) fn takes_top(&self) -> bool
        ensures { result ≡ takes_top (place_now (shown self.now)) }
    {
        self.is_outside() && self.has_begun()
    }

    fn takes_inner(&self) -> bool
        ensures { result ≡ takes_inner (place_now (shown self.now)) }
    {
        !self.is_outside()
    }

    fn takes_version(&self) -> bool
        ensures { result ≡ takes_version (place_now (shown self.now)) }
    {
        self.is_outside() && self.is_early()
    }

    fn is_unmarked(&self) -> bool
        ensures { result ≡ is_empty (shown self.now).marks }
    {
        self.marks.is_empty()
    }

    /// No label and no mark stands before.
    pub(crate) fn is_bare(&self) -> bool
        ensures { result ≡ is_bare (shown self.now) }
    {
        self.labels.is_empty() && self.marks.is_empty()
    }

    fn may_name(&self, form: Form) -> bool
        ensures { result
            ≡ may_name (place_now (shown self.now)) (is_empty (shown self.now).marks) form }
    {
        (self.takes_inner() && (self.is_unmarked() || is_node_form(form)))
            || (self.takes_top() && is_label_form(form))
    }

    /// Where a statement may begin, or after labels and marks.
    pub(crate) fn in_body(&mut self, alloc: Global, token: &Token<'a>) -> Result<(), Stop>
        ensures { Leaves (shown self.new) result
            (in_body (shown self.old) token.now.spot token.now.terminal) }
    {
        match token.terminal {
            Terminal::Name(form) => self.at_name(token, form),
            Terminal::Slash => self.at_root(token),
            Terminal::Ref => self.at_ref_opening(alloc, token),
            Terminal::Omit => self.at_mark(token),
            Terminal::RightBrace => self.at_close(token),
            Terminal::Version => self.at_version(token),
            Terminal::Plugin => self.at_plugin(token),
            Terminal::Reserve => self.at_reserve(token),
            Terminal::DeleteNode => self.at_deletion(token),
            Terminal::DeleteProp => self.at_prop_deletion(token),
            _ => Err(Stop::Broken(Breach::S1, token.at)),
        }
    }

    fn at_name(&mut self, token: &Token<'a>, form: Form) -> Result<(), Stop>
        requires { token.now.terminal ≡ terminal.Name form }
        ensures { Leaves (shown self.new) result
            (in_body (shown self.old) token.now.spot (terminal.Name form)) }
    {
        if !self.may_name(form) {
            return Err(Stop::Broken(Breach::S1, token.at));
        }
        self.mode = Mode::Named(form);
        self.name = Some(Name {
            at: token.at,
            text: token.text,
        });
        Ok(())
    }

    fn at_root(&mut self, token: &Token<'a>) -> Result<(), Stop>
        ensures { Leaves (shown self.new) result
            (at_opening (shown self.old) token.now.spot
            (stmt token.now.spot.at (Open target.Root))) }
    {
        if !(self.takes_top() && self.is_unmarked()) {
            return Err(Stop::Broken(Breach::S1, token.at));
        }
        self.enter(Stmt {
            at: token.at,
            act: Act::Open(Target::Root),
        })
    }

    fn at_ref_opening(&mut self, alloc: Global, token: &Token<'a>) -> Result<(), Stop>
        requires { token.now.terminal ≡ terminal.Ref }
        ensures { Leaves (shown self.new) result
            (at_opening (shown self.old) token.now.spot
            (stmt token.now.spot.at (Open (target_of token.now.spot.text)))) }
    {
        if !(self.takes_top() && self.is_unmarked()) {
            return Err(Stop::Broken(Breach::S1, token.at));
        }
        let target = target_of(alloc, token)?;
        self.enter(Stmt {
            at: token.at,
            act: Act::Open(target),
        })
    }

    /// A root or a node by reference: its opening, and its labels after it.
    fn enter(&mut self, opening: Stmt) -> Result<(), Stop>
        ensures { Leaves (shown self.new) result
            (Ok (record (shown self.old) {
              mode = mode.Opening;
              labels = [];
              marks = [];
              out =
                  ((shown self.old).out ++ opening ∷ []) ++ (shown self.old).labels;
            })) }
    {
        self.mode = Mode::Opening;
        self.marks.clear();
        self.out.push(opening)?;
        self.out.append(&mut self.labels)?;
        Ok(())
    }

    fn at_mark(&mut self, token: &Token<'a>) -> Result<(), Stop>
        ensures { Leaves (shown self.new) result (at_mark (shown self.old) token.now.spot) }
    {
        if self.takes_inner() {
            self.marks.push(token.at)?;
            Ok(())
        } else if self.is_bare() && self.takes_top() {
            self.mode = Mode::Directive(Wanted::OmittedRef);
            self.begin = token.at;
            Ok(())
        } else {
            Err(Stop::Broken(Breach::S1, token.at))
        }
    }

    fn at_close(&mut self, token: &Token<'a>) -> Result<(), Stop>
        ensures { Leaves (shown self.new) result (at_close (shown self.old) token.now.spot) }
    {
        if !(self.is_bare() && self.takes_inner()) {
            return Err(Stop::Broken(Breach::S1, token.at));
        }
        self.mode = Mode::Ending;
        self.stage = Stage::Rest;
        self.depth = self.depth.saturating_sub(1);
        self.out.push(Stmt {
            at: token.at,
            act: Act::Close,
        })?;
        if let Some(mut pending) = self.opened.pop() {
            self.out.append(&mut pending.stmts)?;
        }
        Ok(())
    }

    fn at_version(&mut self, token: &Token<'a>) -> Result<(), Stop>
        ensures { Leaves (shown self.new) result
            (in_body (shown self.old) token.now.spot terminal.Version) }
    {
        if !(self.is_bare() && self.takes_version()) {
            return Err(Stop::Broken(Breach::S1, token.at));
        }
        self.mode = Mode::Ending;
        self.stage = Stage::Versions;
        Ok(())
    }

    fn at_plugin(&mut self, token: &Token<'a>) -> Result<(), Stop>
        ensures { Leaves (shown self.new) result
            (in_body (shown self.old) token.now.spot terminal.Plugin) }
    {
        if !(self.is_bare() && self.takes_top()) {
            return Err(Stop::Broken(Breach::S1, token.at));
        }
        self.mode = Mode::Ending;
        self.stage = Stage::Rest;
        Ok(())
    }

    fn at_reserve(&mut self, token: &Token<'a>) -> Result<(), Stop>
        ensures { Leaves (shown self.new) result
            (in_body (shown self.old) token.now.spot terminal.Reserve) }
    {
        if !(self.is_bare() && self.takes_top()) {
            return Err(Stop::Broken(Breach::S1, token.at));
        }
        self.mode = Mode::Directive(Wanted::FirstNumber);
        self.begin = token.at;
        Ok(())
    }

    fn at_deletion(&mut self, token: &Token<'a>) -> Result<(), Stop>
        ensures { Leaves (shown self.new) result (at_deletion (shown self.old) token.now.spot) }
    {
        let wanted = if self.is_bare() && self.takes_inner() {
            Wanted::DeletedChild
        } else if self.is_bare() && self.takes_top() {
            Wanted::DeletedRef
        } else {
            return Err(Stop::Broken(Breach::S1, token.at));
        };
        self.mode = Mode::Directive(wanted);
        self.begin = token.at;
        Ok(())
    }

    fn at_prop_deletion(&mut self, token: &Token<'a>) -> Result<(), Stop>
        ensures { Leaves (shown self.new) result
            (in_body (shown self.old) token.now.spot terminal.DeleteProp) }
    {
        if !(self.is_bare() && self.takes_inner()) {
            return Err(Stop::Broken(Breach::S1, token.at));
        }
        self.mode = Mode::Directive(Wanted::DeletedProp);
        self.begin = token.at;
        Ok(())
    }

    /// Behind `/` or a reference.
    pub(crate) fn at_brace(&mut self, alloc: Global, token: &Token<'a>) -> Result<(), Stop>
        requires { is_opening false token.now.terminal ≡ true → (shown self.old).depth < 64 }
        ensures { Leaves (shown self.new) result
            (at_brace (shown self.old) token.now.spot token.now.terminal) }
    {
        match token.terminal {
            Terminal::LeftBrace => {
                self.mode = Mode::Body;
                self.stage = Stage::Rest;
                self.depth += 1;
                self.opened.push(Pending {
                    stmts: Vec::new(alloc),
                })?;
                Ok(())
            }
            _ => Err(Stop::Broken(Breach::S1, token.at)),
        }
    }

    /// At the end of a statement.
    pub(crate) fn at_end(&mut self, token: &Token<'a>) -> Result<(), Stop>
        ensures { Leaves (shown self.new) result
            (at_end (shown self.old) token.now.spot token.now.terminal) }
    {
        match token.terminal {
            Terminal::Semicolon => {
                self.mode = Mode::Body;
                Ok(())
            }
            _ => Err(Stop::Broken(Breach::S1, token.at)),
        }
    }

    /// A property stands where no mark is.
    fn is_prop(&self, form: Form) -> bool
        ensures { result ≡ is_prop (shown self.now) form }
    {
        self.takes_inner() && self.is_unmarked() && is_prop_form(form)
    }

    /// The labels before a property name nothing.
    fn forget_lead(&mut self)
        ensures { shown self.new ≡ record (shown self.old) { labels = []; marks = [] } }
    {
        self.labels.clear();
        self.marks.clear();
    }

    /// Behind the name of a statement.
    pub(crate) fn named(&mut self, alloc: Global, form: Form, token: &Token<'a>) -> Result<(), Stop>
        requires { is_opening false token.now.terminal ≡ true → (shown self.old).depth < 64 }
        ensures { Leaves (shown self.new) result
            (named form (shown self.old) token.now.spot token.now.terminal) }
    {
        match token.terminal {
            Terminal::Colon => self.at_label(alloc, form, token),
            Terminal::Semicolon => self.at_flag(alloc, form, token),
            Terminal::Equal => self.at_equal(form, token),
            Terminal::LeftBrace => self.at_child(alloc, form, token),
            _ => Err(Stop::Broken(Breach::S1, token.at)),
        }
    }

    fn at_label(&mut self, alloc: Global, form: Form, token: &Token<'a>) -> Result<(), Stop>
        ensures { Leaves (shown self.new) result
            (named form (shown self.old) token.now.spot terminal.Colon) }
    {
        let Some(name) = &self.name else {
            return Err(Stop::Broken(Breach::S1, token.at));
        };
        if !is_label_form(form) {
            return Err(Stop::Broken(Breach::S1, token.at));
        }
        let label = Stmt {
            at: name.at,
            act: Act::Label(text_of(alloc, name.text)?),
        };
        self.mode = Mode::Body;
        self.name = None;
        self.labels.push(label)?;
        Ok(())
    }

    fn at_flag(&mut self, alloc: Global, form: Form, token: &Token<'a>) -> Result<(), Stop>
        ensures { Leaves (shown self.new) result
            (named form (shown self.old) token.now.spot terminal.Semicolon) }
    {
        let allowed = self.is_prop(form);
        let Some(name) = &self.name else {
            return Err(Stop::Broken(Breach::S1, token.at));
        };
        if !allowed {
            return Err(Stop::Broken(Breach::S1, token.at));
        }
        let flag = Stmt {
            at: name.at,
            act: Act::Assign(text_of(alloc, name.text)?, Vec::new(alloc)),
        };
        self.mode = Mode::Body;
        self.stage = Stage::Rest;
        self.name = None;
        self.forget_lead();
        self.out.push(flag)?;
        Ok(())
    }

    fn at_equal(&mut self, form: Form, token: &Token<'a>) -> Result<(), Stop>
        ensures { Leaves (shown self.new) result
            (named form (shown self.old) token.now.spot terminal.Equal) }
    {
        if self.name.is_none() || !self.is_prop(form) {
            return Err(Stop::Broken(Breach::S1, token.at));
        }
        self.mode = Mode::Value;
        self.forget_lead();
        Ok(())
    }

    fn at_child(&mut self, alloc: Global, form: Form, token: &Token<'a>) -> Result<(), Stop>
        requires { (shown self.old).depth < 64 }
        ensures { Leaves (shown self.new) result
            (named form (shown self.old) token.now.spot terminal.LeftBrace) }
    {
        let allowed = self.takes_inner() && is_node_form(form);
        let Some(name) = &self.name else {
            return Err(Stop::Broken(Breach::S1, token.at));
        };
        if !allowed {
            return Err(Stop::Broken(Breach::S1, token.at));
        }
        let opening = Stmt {
            at: name.at,
            act: Act::Open(Target::Child(text_of(alloc, name.text)?)),
        };
        let pending = Pending {
            stmts: omits(alloc, self.marks.as_slice(), name.text)?,
        };
        self.mode = Mode::Body;
        self.stage = Stage::Rest;
        self.depth += 1;
        self.name = None;
        self.marks.clear();
        self.opened.push(pending)?;
        self.out.push(opening)?;
        self.out.append(&mut self.labels)?;
        Ok(())
    }

    /// Behind a directive.
    pub(crate) fn directive(
        &mut self,
        alloc: Global,
        wanted: Wanted,
        token: &Token<'a>,
    ) -> Result<(), Stop>
        ensures { Leaves (shown self.new) result
            (directive wanted (shown self.old) token.now.spot token.now.terminal) }
    {
        match (wanted, token.terminal) {
            (Wanted::FirstNumber, Terminal::Number(_) | Terminal::Huge) => {
                self.mode = Mode::Directive(Wanted::SecondNumber);
                Ok(())
            }
            (Wanted::SecondNumber, Terminal::Number(_) | Terminal::Huge) => {
                self.complete();
                Ok(())
            }
            (Wanted::DeletedRef, Terminal::Ref) => self.at_deleted_ref(alloc, token),
            (Wanted::OmittedRef, Terminal::Ref) => self.at_omitted_ref(alloc, token),
            (Wanted::DeletedChild, Terminal::Name(form)) => self.at_deleted_child(
                alloc, form, token,
            ),
            (Wanted::DeletedProp, Terminal::Name(form)) => self.at_deleted_prop(alloc, form, token),
            _ => Err(Stop::Broken(Breach::S1, token.at)),
        }
    }

    /// The statement is read but for its semicolon.
    fn complete(&mut self)
        ensures { complete (shown self.old) (shown self.old).out ≡ Ok (shown self.new) }
    {
        self.mode = Mode::Ending;
        self.stage = Stage::Rest;
        self.begin = 0;
    }

    fn at_deleted_ref(&mut self, alloc: Global, token: &Token<'a>) -> Result<(), Stop>
        requires { token.now.terminal ≡ terminal.Ref }
        ensures { Leaves (shown self.new) result
            (directive wanted.DeletedRef (shown self.old) token.now.spot terminal.Ref) }
    {
        let target = target_of(alloc, token)?;
        self.complete();
        self.out.push(Stmt {
            at: token.at,
            act: Act::DelNode(target),
        })?;
        Ok(())
    }

    fn at_omitted_ref(&mut self, alloc: Global, token: &Token<'a>) -> Result<(), Stop>
        requires { token.now.terminal ≡ terminal.Ref }
        ensures { Leaves (shown self.new) result
            (directive wanted.OmittedRef (shown self.old) token.now.spot terminal.Ref) }
    {
        let target = target_of(alloc, token)?;
        self.complete();
        self.out.push(Stmt {
            at: token.at,
            act: Act::Omit(target),
        })?;
        Ok(())
    }

    fn at_deleted_child(&mut self, alloc: Global, form: Form, token: &Token<'a>) -> Result<(), Stop>
        requires { token.now.terminal ≡ terminal.Name form }
        ensures { Leaves (shown self.new) result
            (directive wanted.DeletedChild (shown self.old) token.now.spot (terminal.Name form)) }
    {
        if !is_node_form(form) {
            return Err(Stop::Broken(Breach::S1, token.at));
        }
        let at = self.begin;
        let name = text_of(alloc, token.text)?;
        self.complete();
        self.out.push(Stmt {
            at,
            act: Act::DelNode(Target::Child(name)),
        })?;
        Ok(())
    }

    fn at_deleted_prop(&mut self, alloc: Global, form: Form, token: &Token<'a>) -> Result<(), Stop>
        requires { token.now.terminal ≡ terminal.Name form }
        ensures { Leaves (shown self.new) result
            (directive wanted.DeletedProp (shown self.old) token.now.spot (terminal.Name form)) }
    {
        if !is_prop_form(form) {
            return Err(Stop::Broken(Breach::S1, token.at));
        }
        let at = self.begin;
        let name = text_of(alloc, token.text)?;
        self.complete();
        self.out.push(Stmt {
            at,
            act: Act::DelProp(name),
        })?;
        Ok(())
    }
}
