//! A picture as an SVG text.

ghost use Rattle.std.specs.Prelude.{◌≡◌, ◌++◌, flat_map, IfOk, OnOk, Some, string_bytes};
ghost use Rattle.run_picture.specs.Texts.{escaped, escaped_byte, head_text, letters_text, names_text, opening_text, shape_text, svg_text};

use crate::shapes::{Picture, Shape};
use base_types::NoMemory;
use std::alloc::Global;
use std::fmt;

/// Prints a byte of a text between two tags.
#[derive(Clone, Copy)]
struct EscapedByte(u8);

impl fmt::Display for EscapedByte {
    ghost output = { λ t. Some (escaped_byte t.0) };

    fn fmt<W: fmt::Write>(&self, f: &mut fmt::Formatter<W>) -> fmt::Result {
        match self.0 {
            b'<' => write!(f, "&lt;"),
            b'>' => write!(f, "&gt;"),
            b'&' => write!(f, "&amp;"),
            byte if 32 <= byte && byte <= 126 => {
                let letter = char::from(byte);
                write!(f, "{letter}")
            }
            _ => write!(f, "?"),
        }
    }
}

/// Prints a text between two tags.
#[derive(Clone, Copy)]
struct Escaped<'a>(&'a str);

impl fmt::Display for Escaped<'_> {
    ghost output = { λ t. Some (escaped t.0.now) };

    fn fmt<W: fmt::Write>(&self, f: &mut fmt::Formatter<W>) -> fmt::Result {
        let bytes = self.0.as_bytes();
        for byte in bytes {
            let byte = EscapedByte(*byte);
            write!(f, "{byte}")?;
        }
        Ok(())
    }
}

fn head_text(to_left: bool) -> &'static str
    ensures { result.now ≡ head_text to_left }
{
    if to_left { "l8 -4 v8 z" } else { "l-8 -4 v8 z" }
}

/// Prints the element of a shape.
#[derive(Clone, Copy)]
struct ShapeText<'a>(&'a Shape);

impl fmt::Display for ShapeText<'_> {
    ghost output = { λ t. Some (shape_text t.0.now) };

    fn fmt<W: fmt::Write>(&self, f: &mut fmt::Formatter<W>) -> fmt::Result {
        match self.0 {
            Shape::Box {
                x,
                y,
                width,
                height,
                look,
            } => {
                let look = look.text();
                writeln!(
                    f,
                    "<rect x=\"{x}\" y=\"{y}\" width=\"{width}\" height=\"{height}\" {look}/>"
                )
            }
            Shape::Line {
                x,
                y,
                to_x,
                to_y,
                look,
            } => {
                let look = look.text();
                writeln!(
                    f,
                    "<line x1=\"{x}\" y1=\"{y}\" x2=\"{to_x}\" y2=\"{to_y}\" {look}/>"
                )
            }
            Shape::Tip {
                x,
                y,
                to_left,
                look,
            } => {
                let head = head_text(*to_left);
                let look = look.text();
                writeln!(f, "<path d=\"M{x} {y}{head}\" {look}/>")
            }
            Shape::Label { x, y, text, look } => {
                let look = look.text();
                let text = Escaped(text.as_str());
                writeln!(f, "<text x=\"{x}\" y=\"{y}\" {look}>{text}</text>")
            }
        }
    }
}

fn push_shape(text: &mut String, shape: &Shape) -> Result<(), NoMemory>
    ensures { OnOk result (string_bytes text.new ≡ string_bytes text.old ++ shape_text shape.now) }
{
    let shape = ShapeText(shape);
    write!(text, "{shape}")?;
    Ok(())
}

fn push_shapes(text: &mut String, shapes: &[Shape]) -> Result<(), NoMemory>
    ensures { OnOk result (string_bytes text.new ≡ string_bytes text.old ++ flat_map shape_text shapes.now) }
{
    for shape in shapes {
        push_shape(text, shape)?;
    }
    Ok(())
}

#[tactic(auto, unfolding(crate::specs::Texts::names_text))]
fn names_text() -> &'static str
    ensures { result.now ≡ names_text }
{
    "<svg xmlns=\"http://www.w3.org/2000/svg\""
}

#[tactic(auto, unfolding(crate::specs::Texts::letters_text))]
fn letters_text() -> &'static str
    ensures { result.now ≡ letters_text }
{
    "font-family=\"monospace\" font-size=\"11\" xml:space=\"preserve\""
}

fn push_opening(text: &mut String, width: u32, height: u32) -> Result<(), NoMemory>
    ensures { OnOk result (string_bytes text.new ≡ string_bytes text.old ++ opening_text width height) }
{
    let names = names_text();
    let letters = letters_text();
    writeln!(
        text,
        "{names} width=\"{width}\" height=\"{height}\" {letters}>"
    )?;
    Ok(())
}

/// A picture as an SVG text: one element, with an element for each shape.
///
/// # Errors
///
/// There is no memory for the text.
pub fn svg_text(alloc: Global, picture: &Picture) -> Result<String, NoMemory>
    ensures { IfOk result (λ text. string_bytes text ≡ svg_text picture.now) }
{
    let mut text = String::new(alloc);
    push_opening(&mut text, picture.width, picture.height)?;
    push_shapes(&mut text, picture.shapes.as_slice())?;
    text.push_str("</svg>\n")?;
    Ok(text)
}
