//! What is known of the places of a text.

/// Where an action of a state stands. All places count the bytes before them.
#[derive(Drop)]
pub struct ActionMarks {
    /// Its name.
    pub at: usize,
    /// The names of its parameters, in their order.
    pub params: Vec<usize>,
    /// Its instructions in the order of the text, those within an `if` among them.
    pub instructions: Vec<usize>,
    /// The byte behind its last token.
    pub end: usize,
}

/// Where a state of a class stands.
#[derive(Drop)]
pub struct StateMarks {
    /// Its name.
    pub at: usize,
    /// Its actions, in the order of the text.
    pub actions: Vec<ActionMarks>,
}

/// Where a class stands.
#[derive(Drop)]
pub struct ClassMarks {
    /// Its name.
    pub at: usize,
    /// The names of its parameters, in their order.
    pub params: Vec<usize>,
    /// Its states, in the order of the text.
    pub states: Vec<StateMarks>,
}

/// Where the items of a text stand, each kind by itself in the order of the text. That is also the order of their
/// numbers in the text's domain.
#[derive(Drop)]
pub struct Landmarks {
    pub classes: Vec<ClassMarks>,
    /// The names of the objects.
    pub objects: Vec<usize>,
    /// The names of the sets.
    pub sets: Vec<usize>,
}

impl Landmarks {
    /// The action at a place in its state, which is at a place in its class, which is at a place among the classes.
    pub fn action(&self, class: usize, state: usize, action: usize) -> Option<&ActionMarks> {
        self.classes
            .get(class)?
            .states
            .get(state)?
            .actions
            .get(action)
    }
}
