//! Tests of conditions.
ghost use Rattle.std.specs.Prelude.{◌≤◌, ◌<◌, IfOk, OnOk};
ghost use Rattle.sml_tree.specs.Form.{Sense, StateList, Names, Unit' as Operand};
ghost use Rattle.sml_tree.specs.Content.{cond_content};
ghost use Rattle.sml_read_parts.specs.Reads.{Reads, SeesKind};
ghost use Rattle.sml_read_parts.specs.Asks.{first_of, ReadsAsked};
ghost use Rattle.sml_read_parts.specs.Stands.{Lacks};
ghost use Rattle.sml_tree.specs.declared.token_kind.TokenKind.TheVariants as kinds;
ghost use Rattle.sml_tree.specs.declared.limits.TheConstants.{MAX_TESTS};

use crate::fault::{Fault, Stop};
use crate::make;
use crate::reader::Reader;
use sml_tree::{Cond, MAX_NAMES, MAX_TESTS, Name, Scope, TokenKind};
use std::alloc::Allocator;

impl Reader<'_> {
    /// Reads whether a test asks for being in no state of its list.
    fn sense(&mut self) -> Result<bool, Stop>
        ensures { Reads Sense (λ b. b) self.old self.new result }
    {
        match self.peek() {
            Some(TokenKind::InState) => {
                self.take();
                Ok(false)
            }
            Some(TokenKind::NotInState) => {
                self.take();
                Ok(true)
            }
            _ => Err(self.refusal()),
        }
    }

    /// Reads the states between braces.
    fn names<A: Allocator + Clone>(&mut self, alloc: &A) -> Result<Vec<Name, A>, Stop>
        ensures { Reads Names (λ v. v.items) self.old self.new result }
    {
        let first = self.expect(TokenKind::Name)?;
        let mut names = make::one_item(alloc, first.name())?;
        'more: while self.skip(TokenKind::Comma) {
            let state = self.limited(names.len(), MAX_NAMES);
            names = make::appended(names, state)?;
        }
        Ok(names)
    }

    /// Reads the states of a test: one, or some between braces.
    fn state_list<A: Allocator + Clone>(&mut self, alloc: &A) -> Result<Vec<Name, A>, Stop>
        ensures { Reads StateList (λ v. v.items) self.old self.new result }
    {
        if self.skip(TokenKind::OpenBrace) {
            let states = self.names(alloc)?;
            return self.closed(TokenKind::CloseBrace, states);
        }
        if !self.stands(TokenKind::Name) {
            return Err(self.refusal());
        }
        make::one_item(alloc, self.take().name())
    }

    /// Reads whom a test asks. Its first token is in front; `tests` tests were read already.
    fn asked(&mut self, scope: Scope, tests: u32) -> Result<Name, Stop>
        requires { SeesKind (first_of scope) self.old }
        ensures read { ReadsAsked scope tests self.old self.new result }
        ensures room { IfOk result (λ name. tests < MAX_TESTS) }
    {
        let held = self.take();
        if tests >= MAX_TESTS {
            return Err(Stop::Fault(Fault::TooMany(held.at())));
        }
        match scope {
            Scope::One => Ok(held.name()),
            Scope::All | Scope::Any => Ok(self.expect(TokenKind::Name)?.name()),
        }
    }

    /// Reads a test of one object, or of all or any of a set, whose first token is in front.
    fn test<A: Allocator + Clone>(
        &mut self,
        alloc: &A,
        scope: Scope,
        depth: u32,
        tests: &mut u32,
    ) -> Result<Cond<A>, Stop>
        requires at_test { SeesKind (first_of scope) self.old }
        requires tests { tests.old ≤ MAX_TESTS }
        ensures read { Reads (Operand depth tests.old)
            (λ c. record { formula = cond_content c; count = tests.new }) self.old self.new result }
        ensures room { OnOk result (tests.new ≤ MAX_TESTS) }
    {
        let name = self.asked(scope, *tests)?;
        let negated = self.sense()?;
        let states = self.state_list(alloc)?;
        *tests += 1;
        Ok(make::test(scope, name, negated, states))
    }

    /// Reads the test that is in front, where neither a `not` nor a bracket is.
    pub fn tested<A: Allocator + Clone>(
        &mut self,
        alloc: &A,
        depth: u32,
        tests: &mut u32,
    ) -> Result<Cond<A>, Stop>
        requires no_not { Lacks kinds.Not self.old }
        requires no_bracket { Lacks kinds.OpenBracket self.old }
        requires tests { tests.old ≤ MAX_TESTS }
        ensures read { Reads (Operand depth tests.old)
            (λ c. record { formula = cond_content c; count = tests.new }) self.old self.new result }
        ensures room { OnOk result (tests.new ≤ MAX_TESTS) }
    {
        match self.peek() {
            Some(TokenKind::Name) => self.test(alloc, Scope::One, depth, tests),
            Some(TokenKind::AllIn) => self.test(alloc, Scope::All, depth, tests),
            Some(TokenKind::AnyIn) => self.test(alloc, Scope::Any, depth, tests),
            _ => Err(self.refusal()),
        }
    }
}
