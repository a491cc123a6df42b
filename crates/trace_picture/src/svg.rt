//! The elements of a picture, written behind a text. What a trace says goes into it escaped.
ghost use Rattle.std.specs.Prelude.{◌≡◌, ◌++◌, OnOk, string_bytes, true};
ghost use Rattle.std.specs.List.{list_all};
ghost use Rattle.trace_picture.specs.Escapes.{entity, escaped, is_inert};

use std::alloc::AllocError;

/// A place in the picture.
#[derive(Clone, Copy, Debug, PartialEq, Eq)]
pub struct Point {
    pub x: u64,
    pub y: u64,
}

/// Writes bytes as text of an element or of an attribute: what is not printed in ASCII as a question mark.
pub(crate) fn push_text(out: &mut String, text: &[u8]) -> Result<(), AllocError>
    ensures written { OnOk result (string_bytes out.new ≡ string_bytes out.old ++ escaped text.now) }
    // It has no `<`, `>` or `"`.
    ensures inert { list_all is_inert (escaped text.now) ≡ true }
{
    for byte in text {
        push_byte(out, *byte)?;
    }
    Ok(())
}

fn push_byte(out: &mut String, byte: u8) -> Result<(), AllocError>
    ensures { OnOk result (string_bytes out.new ≡ string_bytes out.old ++ entity byte) }
{
    match byte {
        b'<' => out.push_str("&lt;"),
        b'>' => out.push_str("&gt;"),
        b'&' => out.push_str("&amp;"),
        b'"' => out.push_str("&quot;"),
        b'\n' | b' '..=b'~' => out.push(char::from(byte)),
        _ => out.push('?'),
    }
}

/// The hover text of the element that is open.
pub(crate) fn push_note(out: &mut String, note: &[u8]) -> Result<(), AllocError> {
    out.push_str("<title>")?;
    push_text(out, note)?;
    out.push_str("</title>")
}

/// Opens a group of this class, with a hover text.
pub(crate) fn open_group(out: &mut String, class: &str, note: &[u8]) -> Result<(), AllocError> {
    write!(out, "<g class=\"{class}\">")?;
    push_note(out, note)
}

pub(crate) fn close_group(out: &mut String) -> Result<(), AllocError> {
    out.push_str("</g>\n")
}

pub(crate) fn push_line(
    out: &mut String,
    class: &str,
    from: Point,
    to: Point,
) -> Result<(), AllocError> {
    let Point { x: x1, y: y1 } = from;
    let Point { x: x2, y: y2 } = to;
    write!(
        out,
        "<line class=\"{class}\" x1=\"{x1}\" y1=\"{y1}\" x2=\"{x2}\" y2=\"{y2}\"/>"
    )
}

/// A line that bends down by half of `bend` in its middle.
pub(crate) fn push_curve(
    out: &mut String,
    class: &str,
    from: Point,
    to: Point,
    bend: u64,
) -> Result<(), AllocError> {
    let Point { x: x1, y: y1 } = from;
    let Point { x: x2, y: y2 } = to;
    let x = (x1 / 2).saturating_add(x2 / 2);
    let y = (y1 / 2).saturating_add(y2 / 2).saturating_add(bend);
    write!(
        out,
        "<path class=\"{class}\" d=\"M{x1} {y1}Q{x} {y} {x2} {y2}\"/>"
    )
}

/// A rectangle from its upper left corner.
pub(crate) fn push_rect(
    out: &mut String,
    class: &str,
    corner: Point,
    width: u64,
    height: u64,
) -> Result<(), AllocError> {
    let Point { x, y } = corner;
    write!(
        out,
        "<rect class=\"{class}\" x=\"{x}\" y=\"{y}\" width=\"{width}\" height=\"{height}\"/>"
    )
}

pub(crate) fn push_circle(
    out: &mut String,
    class: &str,
    center: Point,
    radius: u64,
) -> Result<(), AllocError> {
    let Point { x, y } = center;
    write!(
        out,
        "<circle class=\"{class}\" cx=\"{x}\" cy=\"{y}\" r=\"{radius}\"/>"
    )
}

/// A symbol of the picture's definitions.
pub(crate) fn push_symbol(out: &mut String, name: &str, at: Point) -> Result<(), AllocError> {
    let Point { x, y } = at;
    write!(out, "<use href=\"#{name}\" x=\"{x}\" y=\"{y}\"/>")
}

/// A text whose line begins at a place.
pub(crate) fn push_label(
    out: &mut String,
    class: &str,
    at: Point,
    text: &[u8],
) -> Result<(), AllocError> {
    let Point { x, y } = at;
    write!(out, "<text class=\"{class}\" x=\"{x}\" y=\"{y}\">")?;
    push_text(out, text)?;
    out.push_str("</text>")
}
