//! The forms of lines, word by word, as docs/FORMATS.md has them.

/// Of which command the lines are: lines that begin alike differ among them.
#[derive(Clone, Copy)]
pub enum JsonKind {
    /// Those of `step`.
    Steps,
    /// The line of `audit`.
    Judgement,
    /// Those of `list`.
    Declarations,
    /// Those of the summary of `run`.
    Summary,
}

/// What stands at a place of a line, and which fields it gives. All but lists stand behind a blank.
#[derive(Clone, Copy)]
pub(crate) enum Part {
    /// A word: a string.
    Word(&'static str),
    /// A number without a sign.
    Count(&'static str),
    /// This word alone, which has no field.
    Only(&'static str),
    /// This word alone: its field is true.
    Mark(&'static str),
    /// This word or nothing: its field says which.
    MayBe(&'static str),
    /// A value: an int, or a string in quotes.
    Value,
    /// `NAME=VALUE`.
    Setting,
    /// All words that are left: a list of strings.
    Words(&'static str),
    /// All `OBJECT=STATE` that are left.
    Readings,
    /// Arguments in brackets, or nothing.
    Arguments,
    /// Parameters in brackets, or nothing.
    Parameters,
}

/// The first word of a line, and what is behind it.
#[derive(Clone, Copy)]
pub(crate) struct Form {
    pub word: &'static str,
    pub parts: &'static [Part],
}

const ACTION: Part = Part::Word("action");

const CLASS: Part = Part::Word("class");

const COUNT: Part = Part::Count("count");

const MEMBER: Part = Part::Word("member");

const NUMBER: Part = Part::Count("number");

const OBJECT: Part = Part::Word("object");

const OBJECTS: Part = Part::Words("objects");

const SENDER: Part = Part::Word("sender");

const SET: Part = Part::Word("set");

const STATE: Part = Part::Word("state");

const TARGET: Part = Part::Word("target");

// What steps write. Where two forms have the first word, the first that a line fits is taken.
const STEPS: &[Form] = &[
    Form {
        word: "accept",
        parts: &[SENDER, OBJECT, NUMBER, ACTION, Part::Arguments],
    },
    Form {
        word: "start",
        parts: &[OBJECT, SENDER, NUMBER, ACTION, Part::Arguments],
    },
    Form {
        word: "post",
        parts: &[OBJECT, TARGET, NUMBER, ACTION, Part::Arguments],
    },
    Form {
        word: "post",
        parts: &[
            OBJECT,
            TARGET,
            Part::Only("refused"),
            Part::Word("refused"),
            ACTION,
            Part::Arguments,
        ],
    },
    Form {
        word: "set",
        parts: &[OBJECT, Part::Setting],
    },
    Form {
        word: "wait",
        parts: &[OBJECT],
    },
    Form {
        word: "still",
        parts: &[OBJECT],
    },
    Form {
        word: "seen",
        parts: &[OBJECT, Part::Readings],
    },
    Form {
        word: "end",
        parts: &[OBJECT, Part::Mark("skipped")],
    },
    Form {
        word: "end",
        parts: &[OBJECT, STATE],
    },
    Form {
        word: "refused",
        parts: &[Part::Word("kind")],
    },
    Form {
        word: "empty",
        parts: &[OBJECT, SET],
    },
    Form {
        word: "insert",
        parts: &[OBJECT, MEMBER, SET],
    },
    Form {
        word: "remove",
        parts: &[OBJECT, MEMBER, SET],
    },
    Form {
        word: "kill",
        parts: &[OBJECT, Part::Word("by")],
    },
];

// What tells how all stands.
const STANDING: &[Form] = &[
    Form {
        word: "state",
        parts: &[OBJECT, STATE],
    },
    Form {
        word: "param",
        parts: &[OBJECT, Part::Setting],
    },
    Form {
        word: "open",
        parts: &[OBJECT, ACTION],
    },
    Form {
        word: "open",
        parts: &[OBJECT, ACTION, Part::Only("waits"), Part::Mark("device")],
    },
    Form {
        word: "open",
        parts: &[OBJECT, ACTION, Part::Only("waits"), Part::Words("waits")],
    },
    Form {
        word: "waiting",
        parts: &[OBJECT, COUNT],
    },
    Form {
        word: "member",
        parts: &[SET, OBJECTS],
    },
];

// What the judge says.
const JUDGEMENT: &[Form] = &[
    Form {
        word: "Legal",
        parts: &[],
    },
    Form {
        word: "Illegal",
        parts: &[Part::Count("at"), Part::Word("rule")],
    },
];

// What a domain declares.
const DECLARATIONS: &[Form] = &[
    Form {
        word: "class",
        parts: &[CLASS, Part::MayBe("associated")],
    },
    Form {
        word: "param",
        parts: &[CLASS, Part::Word("name"), Part::Word("kind"), Part::Value],
    },
    Form {
        word: "state",
        parts: &[CLASS, STATE, Part::MayBe("initial"), Part::MayBe("dead")],
    },
    Form {
        word: "action",
        parts: &[CLASS, STATE, ACTION, Part::Parameters],
    },
    Form {
        word: "object",
        parts: &[OBJECT, CLASS],
    },
    Form {
        word: "set",
        parts: &[SET, OBJECTS],
    },
];

// What the summary of a run has beside how all stands.
const SUMMARY: &[Form] = &[
    Form {
        word: "end",
        parts: &[Part::Word("end")],
    },
    Form {
        word: "stalled",
        parts: &[OBJECT],
    },
    Form {
        word: "accepted",
        parts: &[SENDER, OBJECT, COUNT],
    },
    Form {
        word: "left",
        parts: &[SENDER, OBJECT, COUNT],
    },
    Form {
        word: "refused",
        parts: &[SENDER, COUNT],
    },
];

/// The forms of lines of a kind, in two lists.
pub(crate) fn forms_of(of: JsonKind) -> (&'static [Form], &'static [Form]) {
    match of {
        JsonKind::Steps => (STEPS, STANDING),
        JsonKind::Judgement => (JUDGEMENT, &[]),
        JsonKind::Declarations => (DECLARATIONS, &[]),
        JsonKind::Summary => (SUMMARY, STANDING),
    }
}
