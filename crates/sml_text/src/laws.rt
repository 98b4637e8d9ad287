//! The laws of tokens and of decimal texts.

ghost use Rattle.sml_text.specs.Laws.{SomeReading, OneReading, OneTokens, OneBad, TokensFrom, FromTokens, BadFrom, SomeDecimal, OneDecimal, SomeIntText, OneIntText};

/// What holds of the tokens of every text. It does nothing when called.
pub fn laws_of_tokens()
    ensures some { SomeReading }
    ensures one { OneReading }
    ensures one_tokens { OneTokens }
    ensures one_bad { OneBad }
    ensures tokens_from { TokensFrom }
    ensures from_tokens { FromTokens }
    ensures bad_from { BadFrom }
{}

/// What holds of the decimal texts of every number. It does nothing when called.
pub fn laws_of_decimals()
    ensures some { SomeDecimal }
    ensures one { OneDecimal }
    ensures some_int { SomeIntText }
    ensures one_int { OneIntText }
{}
