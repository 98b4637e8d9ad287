//! Instructions that hold no condition, and their arguments.
ghost use Rattle.std.specs.Prelude.{◌≤◌, ◌<◌, [], ◌∷◌, map, Ok, IfOk};
ghost use Rattle.sml_tree.specs.Form.{Literal as Literal', Arg as Arg', Every, Passed as Passed', ArgList, Waited as Waited', Block as Block'};
ghost use Rattle.sml_tree.specs.Content.{literal_content, arg_content, passed_content, waited_content, instr_content};
ghost use Rattle.sml_tree.specs.declared.token_kind.TokenKind.TheVariants as kinds;
ghost use Rattle.sml_read_parts.specs.Reads.{Reads, ReadsNext, ReadsFront, SeesKind};
ghost use Rattle.sml_read_parts.specs.Stands.{Lacks};
ghost use Rattle.sml_tree.specs.declared.limits.TheConstants.{MAX_ARGUMENTS, MAX_WAITED};

use crate::fault::{Fault, Stop};
use crate::make;
use crate::reader::Reader;
use sml_tree::{Arg, Instr, Literal, MAX_ARGUMENTS, MAX_WAITED, Passed, TokenKind, Waited};
use std::alloc::Allocator;

impl Reader<'_> {
    /// Reads a value that is written out.
    pub fn literal<A: Allocator + Clone>(&mut self, alloc: &A) -> Result<Literal<A>, Stop>
        ensures { Reads Literal' literal_content self.old self.new result }
    {
        if self.stands(TokenKind::Int) {
            return Ok(Literal::Int(self.take().int()));
        }
        if self.stands(TokenKind::Str) {
            return make::string_literal(alloc, self.take().bytes());
        }
        Err(self.refusal())
    }

    /// Reads a value, or the name of a parameter.
    fn arg<A: Allocator + Clone>(&mut self, alloc: &A) -> Result<Arg<A>, Stop>
        ensures { Reads Arg' arg_content self.old self.new result }
    {
        if self.stands(TokenKind::Name) {
            return Ok(Arg::Param(self.take().name()));
        }
        make::literal_arg(self.literal(alloc))
    }

    /// Whether `all_in` is here; if so, it is taken.
    fn every(&mut self) -> bool
        ensures { Reads Every (λ all. all) self.old self.new (Ok result) }
    {
        self.skip(TokenKind::AllIn)
    }

    /// Reads an argument; `before` arguments were read already.
    fn passed<A: Allocator + Clone>(&mut self, alloc: &A, before: usize) -> Result<Passed<A>, Stop>
        requires { before ≤ MAX_ARGUMENTS }
        ensures read { Reads (Passed' before) passed_content self.old self.new result }
        ensures room { IfOk result (λ p. before < MAX_ARGUMENTS) }
    {
        let name = self.limited(before, MAX_ARGUMENTS)?;
        self.sign(TokenKind::Equals)?;
        let value = self.arg(alloc)?;
        Ok(Passed { name, value })
    }

    /// Reads the arguments of a `do`, if a bracket is there.
    fn args<A: Allocator + Clone>(&mut self, alloc: &A) -> Result<Vec<Passed<A>, A>, Stop>
        ensures { Reads ArgList (λ v. map passed_content v.items) self.old self.new result }
    {
        if !self.skip(TokenKind::OpenBracket) {
            return make::empty_list(alloc);
        }
        let first = self.passed(alloc, 0)?;
        let mut args = make::one_item(alloc, first)?;
        'more: while self.skip(TokenKind::Comma) {
            let passed = self.passed(alloc, args.len());
            args = make::appended(args, passed)?;
        }
        self.closed(TokenKind::CloseBracket, args)
    }

    /// Reads a `do`, whose word is in front.
    fn send<A: Allocator + Clone>(&mut self, alloc: &A, depth: u32) -> Result<Instr<A>, Stop>
        requires { SeesKind kinds.Do self.old }
        ensures { ReadsFront (Block' depth) (Block' depth) (λ i v. instr_content i ∷ v) self.old self.new result }
    {
        self.take();
        let action = self.named()?;
        let args = self.args(alloc)?;
        let all = self.every();
        let target = self.named()?;
        Ok(make::send(action, args, all, target))
    }

    /// Reads a `set`, whose word is in front.
    fn assignment<A: Allocator + Clone>(&mut self, alloc: &A, depth: u32) -> Result<Instr<A>, Stop>
        requires { SeesKind kinds.Set self.old }
        ensures { ReadsFront (Block' depth) (Block' depth) (λ i v. instr_content i ∷ v) self.old self.new result }
    {
        self.take();
        let param = self.named()?;
        self.sign(TokenKind::Equals)?;
        let value = self.arg(alloc)?;
        Ok(make::set(param, value))
    }

    /// Reads a `move_to`, whose word is in front.
    fn movement<A: Allocator + Clone>(&mut self, depth: u32) -> Result<Instr<A>, Stop>
        requires { SeesKind kinds.MoveTo self.old }
        ensures { ReadsFront (Block' depth) (Block' depth) (λ i v. instr_content i ∷ v) self.old self.new result }
    {
        self.take();
        let state = self.named()?;
        Ok(make::move_to(state))
    }

    /// Reads a `terminate_action`, whose word is in front.
    fn termination<A: Allocator + Clone>(&mut self, depth: u32) -> Result<Instr<A>, Stop>
        requires { SeesKind kinds.TerminateAction self.old }
        ensures { ReadsFront (Block' depth) (Block' depth) (λ i v. instr_content i ∷ v) self.old self.new result }
    {
        self.take();
        self.sign(TokenKind::Slash)?;
        self.sign(TokenKind::State)?;
        self.sign(TokenKind::Equals)?;
        let state = self.named()?;
        Ok(make::terminate(state))
    }

    /// Reads a thing that a `wait` names, an object or a set behind `all_in`; `before` were read already.
    fn waited(&mut self, before: usize) -> Result<Waited, Stop>
        requires { before ≤ MAX_WAITED }
        ensures read { Reads (Waited' before) waited_content self.old self.new result }
        ensures room { IfOk result (λ w. before < MAX_WAITED) }
    {
        if self.stands(TokenKind::Name) {
            let name = self.limited(before, MAX_WAITED)?;
            return Ok(Waited { all: false, name });
        }
        if !self.stands(TokenKind::AllIn) {
            return Err(self.refusal());
        }
        let held = self.take();
        if before >= MAX_WAITED {
            return Err(Stop::Fault(Fault::TooMany(held.at())));
        }
        let name = self.named()?;
        Ok(Waited { all: true, name })
    }

    /// Reads a `wait`, whose word is in front.
    fn waiting<A: Allocator + Clone>(&mut self, alloc: &A, depth: u32) -> Result<Instr<A>, Stop>
        requires { SeesKind kinds.Wait self.old }
        ensures { ReadsFront (Block' depth) (Block' depth) (λ i v. instr_content i ∷ v) self.old self.new result }
    {
        self.take();
        self.sign(TokenKind::OpenBracket)?;
        let first = self.waited(0)?;
        let mut waited = make::one_item(alloc, first)?;
        'more: while self.skip(TokenKind::Comma) {
            let next = self.waited(waited.len());
            waited = make::appended(waited, next)?;
        }
        let waited = self.closed(TokenKind::CloseBracket, waited)?;
        Ok(make::wait(waited))
    }

    /// Reads an `insert`, whose word is in front.
    fn insertion<A: Allocator + Clone>(&mut self, depth: u32) -> Result<Instr<A>, Stop>
        requires { SeesKind kinds.Insert self.old }
        ensures { ReadsFront (Block' depth) (Block' depth) (λ i v. instr_content i ∷ v) self.old self.new result }
    {
        self.take();
        let member = self.named()?;
        self.sign(TokenKind::In)?;
        let set = self.named()?;
        Ok(make::insert(member, set))
    }

    /// Reads a `remove`, whose word is in front.
    fn removal<A: Allocator + Clone>(&mut self, depth: u32) -> Result<Instr<A>, Stop>
        requires { SeesKind kinds.Remove self.old }
        ensures { ReadsFront (Block' depth) (Block' depth) (λ i v. instr_content i ∷ v) self.old self.new result }
    {
        self.take();
        let member = self.named()?;
        self.sign(TokenKind::From)?;
        let set = self.named()?;
        Ok(make::remove(member, set))
    }

    /// Reads the next instruction of a block that is not an `if`, if there is one.
    pub fn plain<A: Allocator + Clone>(
        &mut self,
        alloc: &A,
        depth: u32,
    ) -> Result<Option<Instr<A>>, Stop>
        requires { Lacks kinds.If self.old }
        ensures { ReadsNext (Block' depth) (Block' depth) (λ i v. instr_content i ∷ v) [] self.old self.new result }
    {
        match self.peek() {
            Some(TokenKind::Do) => make::as_some(self.send(alloc, depth)),
            Some(TokenKind::Set) => make::as_some(self.assignment(alloc, depth)),
            Some(TokenKind::MoveTo) => make::as_some(self.movement(depth)),
            Some(TokenKind::TerminateAction) => make::as_some(self.termination(depth)),
            Some(TokenKind::Wait) => make::as_some(self.waiting(alloc, depth)),
            Some(TokenKind::Insert) => make::as_some(self.insertion(depth)),
            Some(TokenKind::Remove) => make::as_some(self.removal(depth)),
            _ => Ok(None),
        }
    }
}
