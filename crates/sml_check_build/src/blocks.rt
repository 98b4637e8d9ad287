//! The blocks of a domain, each laid out behind those that it holds.
ghost use Rattle.std.specs.Prelude.{◌≡◌, ◌++◌, ◌∷◌, [], length, IfOk, OnOk, map};
ghost use Rattle.sml_domain.specs.Domain.{block_items};

use sml_domain::{BlockId, Instr};
use std::alloc::{AllocError, Global};
use std::marker::Model;

/// Blocks by their numbers.
#[derive(Drop)]
pub struct Blocks {
    blocks: Vec<Vec<Instr>>,
}

impl Model for Blocks {
    ghost use Rattle.std.specs.Prelude.{List, map};
    ghost use Rattle.std.specs.Coded.{codes};
    ghost use Rattle.sml_domain.specs.Codes.{formula_code};
    ghost use Rattle.sml_domain.specs.Program.{Instruction};
    ghost use Rattle.sml_domain.specs.Domain.{block_items};

    ghost Value = { List (List Instruction) };

    ghost coded = { Prim.hlevel (codes, formula_code) };

    ghost view = { λ b. map block_items b.blocks.items };
}

impl Blocks {
    /// Makes an empty list of blocks.
    pub fn new(alloc: Global) -> Blocks
        ensures { result ≡ [] }
    {
        Blocks {
            blocks: Vec::new(alloc),
        }
    }

    /// Puts a block behind the others, and returns its number.
    pub fn put(&mut self, block: Vec<Instr>) -> Result<BlockId, AllocError>
        ensures is { IfOk result (λ k. k ≡ length self.old) }
        ensures added { OnOk result (self.new ≡ self.old ++ block_items block ∷ []) }
    {
        let number = self.blocks.len();
        self.blocks.push(block)?;
        Ok(BlockId::new(number))
    }

    /// Returns the blocks by their numbers.
    pub fn into_vec(self) -> Vec<Vec<Instr>>
        ensures { map block_items result.items ≡ self }
    {
        self.blocks
    }
}
