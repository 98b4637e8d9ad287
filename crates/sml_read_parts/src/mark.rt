//! The marks of classes and states.
ghost use Rattle.sml_tree.specs.Form.{ClassMark, StateMark, FirstMark, InitialMark, DeadMark};
ghost use Rattle.sml_read_parts.specs.Reads.{Reads};

use crate::fault::Stop;
use crate::reader::Reader;
use sml_tree::TokenKind;

/// The marks of a state.
#[derive(Drop)]
pub struct Marks {
    pub initial: bool,
    pub dead: bool,
}

impl Reader<'_> {
    /// Whether a class is marked as associated.
    pub fn associated(&mut self) -> Result<bool, Stop>
        ensures { Reads ClassMark (λ b. b) self.old self.new result }
    {
        self.mark(TokenKind::Associated)
    }

    /// Whether the mark of an initial state follows.
    fn initial_mark(&mut self) -> Result<bool, Stop>
        ensures { Reads InitialMark (λ b. b) self.old self.new result }
    {
        self.mark(TokenKind::InitialState)
    }

    /// Whether the mark of a dead state follows.
    fn dead_mark(&mut self) -> Result<bool, Stop>
        ensures { Reads DeadMark (λ b. b) self.old self.new result }
    {
        self.mark(TokenKind::DeadState)
    }

    /// Reads what follows the first slash behind a state's name.
    fn first_mark(&mut self) -> Result<Marks, Stop>
        ensures { Reads FirstMark (λ m. record { initial = m.initial; dead = m.dead }) self.old self.new result }
    {
        match self.peek() {
            Some(TokenKind::InitialState) => {
                self.take();
                let dead = self.dead_mark()?;
                Ok(Marks {
                    initial: true,
                    dead,
                })
            }
            Some(TokenKind::DeadState) => {
                self.take();
                let initial = self.initial_mark()?;
                Ok(Marks {
                    initial,
                    dead: true,
                })
            }
            _ => Err(self.refusal()),
        }
    }

    /// Reads the marks of a state, if a slash is there.
    pub fn marks(&mut self) -> Result<Marks, Stop>
        ensures { Reads StateMark (λ m. record { initial = m.initial; dead = m.dead }) self.old self.new result }
    {
        match self.peek() {
            Some(TokenKind::Slash) => {
                self.take();
                self.first_mark()
            }
            _ => Ok(Marks {
                initial: false,
                dead: false,
            }),
        }
    }
}
