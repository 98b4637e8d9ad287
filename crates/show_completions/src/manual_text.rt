//! Texts of help as text of a manual page.

use std::alloc::AllocError;

/// Adds a line.
pub(crate) fn add_line(text: &mut String, line: &str) -> Result<(), AllocError> {
    if line.starts_with('.') {
        text.push_str("\\&")?;
    }
    for letter in line.chars() {
        match letter {
            '\\' => text.push_str("\\e")?,
            '-' => text.push_str("\\-")?,
            '\'' => text.push_str("\\(aq")?,
            '`' => text.push_str("\\(ga")?,
            '^' => text.push_str("\\(ha")?,
            '~' => text.push_str("\\(ti")?,
            _ => text.push(letter)?,
        }
    }
    text.push_str("\n")
}

/// Adds a text of several lines. Lines that begin with a blank stay as they are, and all others are filled; an empty
/// line begins a paragraph.
pub(crate) fn add_text(text: &mut String, lines: &str) -> Result<(), AllocError> {
    let mut is_kept = false;
    for line in lines.split('\n') {
        let keeps = line.starts_with(' ');
        if keeps && !is_kept {
            text.push_str(".nf\n")?;
        } else if is_kept && !keeps {
            text.push_str(".fi\n")?;
        }
        is_kept = keeps;
        if line.is_empty() {
            text.push_str(".PP\n")?;
        } else {
            add_line(text, line)?;
        }
    }
    if is_kept {
        text.push_str(".fi\n")?;
    }
    Ok(())
}
