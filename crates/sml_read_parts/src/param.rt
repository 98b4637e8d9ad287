//! Parameters of classes and actions.
ghost use Rattle.std.specs.Prelude.{◌≤◌, ◌<◌, map, option_map, IfOk};
ghost use Rattle.sml_tree.specs.Form.{Sort, Default, ClassParam as ClassParam', ClassParamList, ActionParam as ActionParam', ActionParamList};
ghost use Rattle.sml_tree.specs.Content.{literal_content, class_param_content, action_param_content};
ghost use Rattle.sml_read_parts.specs.Reads.{Reads, SeesKind};
ghost use Rattle.sml_read_parts.specs.Asks.{word_of_kind};
ghost use Rattle.sml_tree.specs.declared.limits.TheConstants.{MAX_PARAMETERS};

use crate::fault::{Fault, Stop};
use crate::make;
use crate::reader::Reader;
use sml_tree::{ActionParam, ClassParam, Kind, Literal, MAX_PARAMETERS, TokenKind};
use std::alloc::Allocator;

impl Reader<'_> {
    /// Reads the kind of a parameter whose word is in front; `before` parameters were read already.
    fn sort_of(&mut self, kind: Kind, before: usize) -> Result<Kind, Stop>
        requires at_word { SeesKind (word_of_kind kind) self.old }
        requires before { before ≤ MAX_PARAMETERS }
        ensures read { Reads (Sort before) (λ kind. kind) self.old self.new result }
        ensures room { IfOk result (λ kind. before < MAX_PARAMETERS) }
    {
        let held = self.take();
        if before >= MAX_PARAMETERS {
            return Err(Stop::Fault(Fault::TooMany(held.at())));
        }
        Ok(kind)
    }

    /// Reads the kind of a parameter; `before` parameters were read already.
    fn sort(&mut self, before: usize) -> Result<Kind, Stop>
        requires { before ≤ MAX_PARAMETERS }
        ensures read { Reads (Sort before) (λ kind. kind) self.old self.new result }
        ensures room { IfOk result (λ kind. before < MAX_PARAMETERS) }
    {
        if self.stands(TokenKind::IntKind) {
            return self.sort_of(Kind::Int, before);
        }
        if self.stands(TokenKind::StringKind) {
            return self.sort_of(Kind::Str, before);
        }
        Err(self.refusal())
    }

    /// Reads a parameter of a class; `before` parameters were read already.
    fn class_param<A: Allocator + Clone>(
        &mut self,
        alloc: &A,
        before: usize,
    ) -> Result<ClassParam<A>, Stop>
        requires { before ≤ MAX_PARAMETERS }
        ensures read { Reads (ClassParam' before) class_param_content self.old self.new result }
        ensures room { IfOk result (λ p. before < MAX_PARAMETERS) }
    {
        let kind = self.sort(before)?;
        let name = self.named()?;
        self.sign(TokenKind::Equals)?;
        let value = self.literal(alloc)?;
        Ok(ClassParam { kind, name, value })
    }

    /// Reads the default of a parameter of an action, if it has one.
    fn default<A: Allocator + Clone>(&mut self, alloc: &A) -> Result<Option<Literal<A>>, Stop>
        ensures { Reads Default (λ o. option_map literal_content o) self.old self.new result }
    {
        if !self.skip(TokenKind::Equals) {
            return Ok(None);
        }
        make::as_some(self.literal(alloc))
    }

    /// Reads a parameter of an action; `before` parameters were read already.
    fn action_param<A: Allocator + Clone>(
        &mut self,
        alloc: &A,
        before: usize,
    ) -> Result<ActionParam<A>, Stop>
        requires { before ≤ MAX_PARAMETERS }
        ensures read { Reads (ActionParam' before) action_param_content self.old self.new result }
        ensures room { IfOk result (λ p. before < MAX_PARAMETERS) }
    {
        let kind = self.sort(before)?;
        let name = self.named()?;
        let default = self.default(alloc)?;
        Ok(ActionParam {
            kind,
            name,
            default,
        })
    }

    /// Reads the parameters of a class, if their word is there.
    pub fn class_params<A: Allocator + Clone>(
        &mut self,
        alloc: &A,
    ) -> Result<Vec<ClassParam<A>, A>, Stop>
        ensures { Reads ClassParamList (λ v. map class_param_content v.items) self.old self.new result }
    {
        if !self.skip(TokenKind::Parameters) {
            return make::empty_list(alloc);
        }
        self.sign(TokenKind::Colon)?;
        let first = self.class_param(alloc, 0)?;
        let mut params = make::one_item(alloc, first)?;
        'more: while self.skip(TokenKind::Comma) {
            let class_param = self.class_param(alloc, params.len());
            params = make::appended(params, class_param)?;
        }
        Ok(params)
    }

    /// Reads the parameters of an action, if a bracket is there.
    pub fn action_params<A: Allocator + Clone>(
        &mut self,
        alloc: &A,
    ) -> Result<Vec<ActionParam<A>, A>, Stop>
        ensures { Reads ActionParamList (λ v. map action_param_content v.items) self.old self.new result }
    {
        if !self.skip(TokenKind::OpenBracket) {
            return make::empty_list(alloc);
        }
        let first = self.action_param(alloc, 0)?;
        let mut params = make::one_item(alloc, first)?;
        'more: while self.skip(TokenKind::Comma) {
            let action_param = self.action_param(alloc, params.len());
            params = make::appended(params, action_param)?;
        }
        self.closed(TokenKind::CloseBracket, params)
    }
}
