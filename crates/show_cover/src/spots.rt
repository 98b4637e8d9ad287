//! Lines and columns of places that are asked for in the order of a text.

use explain_places::Position;

/// Places of a text, told in its order: so each byte is passed over once, however many places are asked for.
#[derive(Clone, Copy)]
pub(crate) struct Spots<'a> {
    text: &'a [u8],
    // What was passed over, and where that ends.
    passed: usize,
    position: Position,
}

impl<'a> Spots<'a> {
    // The places of a text, of which nothing was passed over.
    pub fn new(text: &'a [u8]) -> Spots<'a> {
        Spots {
            text,
            passed: 0,
            position: Position { line: 1, column: 1 },
        }
    }

    // The place of the byte at an offset, which counts from 0. One before the last that was asked for is looked for
    // from the beginning of the text on.
    pub fn place_of(&mut self, offset: usize) -> Position {
        if offset < self.passed {
            *self = Spots::new(self.text);
        }
        for byte in self.text.get(self.passed..offset).unwrap_or(&[]) {
            if *byte == b'\n' {
                self.position.line = self.position.line.saturating_add(1);
                self.position.column = 1;
            } else {
                self.position.column = self.position.column.saturating_add(1);
            }
        }
        self.passed = offset;
        self.position
    }
}
