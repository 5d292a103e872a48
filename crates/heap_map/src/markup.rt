//! Text within markup.
use std::alloc::AllocError;

/// Adds a text within markup: `&`, `<` and `>` by their names, and `?` for what is not printable ASCII.
pub fn escape(picture: &mut String, text: &str) -> Result<(), AllocError> {
    for c in text.chars() {
        match c {
            '&' => picture.push_str("&amp;")?,
            '<' => picture.push_str("&lt;")?,
            '>' => picture.push_str("&gt;")?,
            ' '..='~' => picture.push(c)?,
            _ => picture.push('?')?,
        }
    }
    Ok(())
}
