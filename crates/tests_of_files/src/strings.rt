//! Which bytes are those of a string, and the values of literals.

use sml_domain::{Text, TextError, Value, same_values};
use sml_tree::{Kind, Literal};
use std::alloc::{AllocError, Global};
use std::test::*;

#[test]
fn strings_keep_their_bytes(rt: HostRuntime) -> Result<(), Fail> {
    let good: [(&str, &[u8]); 4] = [
        ("letters", b"none"),
        ("nothing", b""),
        ("blanks and a sign", b"it is lit!"),
        ("the last sign, as often as may be", &[b'~'; 255]),
    ];
    for (name, bytes) in good {
        let text = Text::new(rt.alloc(), bytes)?;
        assert!(rt; text.as_bytes() == bytes && text.share()? == text, "{name}");
    }
    Ok(())
}

#[test]
fn other_strings_differ(rt: HostRuntime) -> Result<(), Fail> {
    let text = Text::new(rt.alloc(), b"it is lit!")?;
    assert!(rt; Text::new(rt.alloc(), b"")? != text);
    Ok(())
}

#[test]
fn bytes_of_no_string_are_refused(rt: HostRuntime) {
    let bad: [(&str, &[u8]); 8] = [
        ("a quote", b"\x22"),
        ("the byte before the blank", b"\x1f"),
        ("the byte behind the last sign", b"\x7f"),
        ("a byte beyond ASCII", b"\x80"),
        ("a line feed between letters", b"no\nne"),
        ("a line feed at the end", b"a\n"),
        ("a letter beyond ASCII", b"\xc3\xa4"),
        ("too many blanks", &[b' '; 256]),
    ];
    for (name, bytes) in bad {
        let refused = Text::new(rt.alloc(), bytes).err();
        assert!(rt; refused == Some(TextError::BadText), "{name}");
    }
}

// A string as trees have it.
fn string(alloc: Global, bytes: &[u8]) -> Result<Literal<Global>, AllocError> {
    Ok(Literal::Str(Vec::from_slice(alloc, bytes)?))
}

// Whether a literal is made this value, and of this kind.
fn is_made(alloc: Global, literal: &Literal<Global>, value: &Value, kind: Kind) -> bool {
    match Value::of_literal(alloc, literal) {
        Ok(made) => made == *value && made.kind() == kind,
        Err(_) => false,
    }
}

// Whether a literal is no value, since its bytes are those of no string.
fn is_bad(alloc: Global, literal: &Literal<Global>) -> bool {
    Value::of_literal(alloc, literal).err() == Some(TextError::BadText)
}

#[test]
fn makes_ints(rt: HostRuntime) {
    assert!(rt; is_made(rt.alloc(), &Literal::Int(-7), &Value::Int(-7), Kind::Int));
}

#[test]
fn makes_texts(rt: HostRuntime) -> Result<(), Fail> {
    let letter = Value::Text(Text::new(rt.alloc(), b"a")?);
    let literal = string(rt.alloc(), b"a")?;
    assert!(rt; is_made(rt.alloc(), &literal, &letter, Kind::Str));
    Ok(())
}

#[test]
fn makes_no_bad_texts(rt: HostRuntime) -> Result<(), Fail> {
    assert!(rt; is_bad(rt.alloc(), &string(rt.alloc(), b"\"")?));
    Ok(())
}

// An int and a text.
fn int_and_letter(alloc: Global) -> Result<Vec<Value>, Fail> {
    let letter = Value::Text(Text::new(alloc, b"a")?);
    Ok(vec![in alloc; Value::Int(-7), letter]?)
}

// The same values, which share their texts.
fn shared(alloc: Global, values: &[Value]) -> Result<Vec<Value>, Fail> {
    let mut shares = Vec::new(alloc);
    for value in values {
        shares.push(value.share()?)?;
    }
    Ok(shares)
}

#[test]
fn compares_values(rt: HostRuntime) -> Result<(), Fail> {
    let values = int_and_letter(rt.alloc())?;
    let others = shared(rt.alloc(), &values)?;
    assert!(rt; same_values(&values, &others));
    assert!(rt; matches!(others.get(..1), Some(front) if !same_values(&values, front)));
    Ok(())
}
