//! The domains whose journals are judged.

use test_domains::{CONTROL, COUNTER, EMPTY_SET, NOBODY, PAIR, PLANT, SUPPLIES, WAITS};

/// A domain, by its name here.
#[derive(Clone, Copy)]
pub enum Setting {
    /// Two supplies, and what switches them on.
    Supplies,
    /// A counter, which keeps a number and a string, and the sink to which it sends them.
    Counter,
    /// Two objects, each of which asks whether the other is in its state.
    Pair,
    /// An object that asks a set without members.
    Empty,
    /// An object that sends to a set without members.
    Nobody,
    /// A boss that sends to a lamp and waits for it.
    Waits,
    /// A control and a supply, as in the help of `step`.
    Control,
    /// The supplies with what switches them on, the counter with its sink, the two that ask one another, and
    /// a watch that switches off one supply and asks the other.
    Plant,
}

/// The text of a domain.
pub fn text_of(setting: Setting) -> &'static [u8] {
    match setting {
        Setting::Supplies => SUPPLIES,
        Setting::Counter => COUNTER,
        Setting::Pair => PAIR,
        Setting::Empty => EMPTY_SET,
        Setting::Nobody => NOBODY,
        Setting::Waits => WAITS,
        Setting::Control => CONTROL,
        Setting::Plant => PLANT,
    }
}
