//! The walk over a text that finds its landmarks.

use crate::marks::{ActionMarks, ClassMarks, Landmarks, StateMarks};
use crate::tokens::{Piece, Tokens};
use sml_tree::TokenKind;
use std::alloc::{AllocError, Global};

// What the next name names.
#[derive(Clone, Copy)]
enum Named {
    Class,
    Object,
    Set,
    State,
    Action,
    Param,
    Other,
}

// A walk: what was found, and the class, the state and the action that are open.
#[derive(Drop)]
struct Walk {
    alloc: Global,
    marks: Landmarks,
    class: Option<ClassMarks>,
    state: Option<StateMarks>,
    action: Option<ActionMarks>,
    named: Named,
}

/// Finds the landmarks of a text. Of a text that is not well-formed it finds those before its first error, as far as
/// they can be told. The time and the memory grow with its length. The error is out of memory.
pub fn landmarks_of(alloc: Global, text: &[u8]) -> Result<Landmarks, AllocError> {
    let mut walk = Walk::new(alloc);
    let mut tokens = Tokens::new(text);
    let mut before = Piece::none();
    for _ in 0..text.len() {
        let Some(piece) = tokens.take() else {
            break;
        };
        walk.pass(before, piece)?;
        before = piece;
    }
    walk.finish()
}

impl Walk {
    // Nothing is found yet.
    fn new(alloc: Global) -> Walk {
        Walk {
            alloc,
            marks: Landmarks {
                classes: Vec::new(alloc),
                objects: Vec::new(alloc),
                sets: Vec::new(alloc),
            },
            class: None,
            state: None,
            action: None,
            named: Named::Other,
        }
    }

    // Passes over a token behind another.
    fn pass(&mut self, before: Piece, piece: Piece) -> Result<(), AllocError> {
        match piece.kind {
            TokenKind::Class => {
                self.close_class()?;
                self.named = Named::Class;
            }
            TokenKind::Object => {
                self.close_class()?;
                self.named = Named::Object;
            }
            TokenKind::ObjectSet => {
                self.close_class()?;
                self.named = Named::Set;
            }
            TokenKind::State if !matches!(before.kind, TokenKind::Slash) => {
                self.close_state()?;
                self.named = Named::State;
            }
            TokenKind::Action => {
                self.close_action()?;
                self.named = Named::Action;
            }
            TokenKind::IntKind | TokenKind::StringKind => self.named = Named::Param,
            TokenKind::Colon => {}
            TokenKind::Name => self.name(piece)?,
            kind => {
                self.named = Named::Other;
                if is_instruction(kind) {
                    self.instruct(piece.at)?;
                }
            }
        }
        self.reach(piece.end);
        Ok(())
    }

    // Notes a name.
    fn name(&mut self, piece: Piece) -> Result<(), AllocError> {
        let named = self.named;
        self.named = Named::Other;
        match named {
            Named::Class => self.open_class(piece.at),
            Named::Object => self.marks.objects.push(piece.at)?,
            Named::Set => self.marks.sets.push(piece.at)?,
            Named::State => self.open_state(piece.at),
            Named::Action => self.open_action(piece),
            Named::Param => self.note_param(piece.at)?,
            Named::Other => {}
        }
        Ok(())
    }

    // Opens a class.
    fn open_class(&mut self, at: usize) {
        self.class = Some(ClassMarks {
            at,
            params: Vec::new(self.alloc),
            states: Vec::new(self.alloc),
        });
    }

    // Opens a state.
    fn open_state(&mut self, at: usize) {
        self.state = Some(StateMarks {
            at,
            actions: Vec::new(self.alloc),
        });
    }

    // Opens an action.
    fn open_action(&mut self, piece: Piece) {
        self.action = Some(ActionMarks {
            at: piece.at,
            params: Vec::new(self.alloc),
            instructions: Vec::new(self.alloc),
            end: piece.end,
        });
    }

    // Notes a parameter: of the action that is open, or else of the class.
    fn note_param(&mut self, at: usize) -> Result<(), AllocError> {
        if let Some(action) = &mut self.action {
            action.params.push(at)?;
        } else if let Some(class) = &mut self.class {
            class.params.push(at)?;
        }
        Ok(())
    }

    // Notes an instruction of the action that is open.
    fn instruct(&mut self, at: usize) -> Result<(), AllocError> {
        if let Some(action) = &mut self.action {
            action.instructions.push(at)?;
        }
        Ok(())
    }

    // The action that is open reaches up to here.
    fn reach(&mut self, end: usize) {
        if let Some(action) = &mut self.action {
            action.end = end;
        }
    }

    // Puts the action that is open into its state.
    fn close_action(&mut self) -> Result<(), AllocError> {
        let Some(action) = self.action.take() else {
            return Ok(());
        };
        if let Some(state) = &mut self.state {
            state.actions.push(action)?;
        }
        Ok(())
    }

    // Puts the state that is open into its class.
    fn close_state(&mut self) -> Result<(), AllocError> {
        self.close_action()?;
        let Some(state) = self.state.take() else {
            return Ok(());
        };
        if let Some(class) = &mut self.class {
            class.states.push(state)?;
        }
        Ok(())
    }

    // Puts the class that is open to the others.
    fn close_class(&mut self) -> Result<(), AllocError> {
        self.close_state()?;
        if let Some(class) = self.class.take() {
            self.marks.classes.push(class)?;
        }
        Ok(())
    }

    // What was found.
    fn finish(self) -> Result<Landmarks, AllocError> {
        let mut walk = self;
        walk.close_class()?;
        let Walk { marks, .. } = walk;
        Ok(marks)
    }
}

// Whether a word begins an instruction.
fn is_instruction(kind: TokenKind) -> bool {
    matches!(
        kind,
        TokenKind::Do
            | TokenKind::If
            | TokenKind::Set
            | TokenKind::MoveTo
            | TokenKind::TerminateAction
            | TokenKind::Wait
            | TokenKind::Insert
            | TokenKind::Remove
    )
}
