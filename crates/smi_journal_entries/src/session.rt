//! The sessions of operators.
ghost use Rattle.std.specs.Prelude.{◌≡◌, ◌≤◌, ◌↔◌, IfSome, IsSome};

use std::marker::Model;

/// An operator's session: 1 to 8.
#[derive(Clone, Copy, Eq, PartialEq)]
pub struct SessionId(u8);

impl Model for SessionId {
    ghost use Rattle.std.specs.Prelude.{ℕ, ◌≤◌};

    ghost Value = { ℕ };

    ghost view = { λ s. s.0 };

    ghost invariant = { λ s. (1 ≤ s.0) × (s.0 ≤ 8) };

    ghost inverse = { λ n. record { 0 = n } };
}

impl SessionId {
    /// Returns the session with a number, or None if the number is outside 1 to 8.
    pub fn new(number: u8) -> Option<SessionId>
        ensures is { IfSome result (λ s. s ≡ number) }
        ensures some { IsSome result ↔ ((1 ≤ number) × (number ≤ 8)) }
    {
        if number < 1 || number > 8 {
            return None;
        }
        Some(SessionId(number))
    }

    /// Returns the number, 1 to 8.
    pub fn get(self) -> u8
        ensures is { result ≡ self }
        ensures least { 1 ≤ result }
        ensures most { result ≤ 8 }
    {
        self.0
    }
}
