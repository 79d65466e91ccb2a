//! The shapes of a picture, each on a line of its own.
ghost use Rattle.std.specs.Prelude.{◌≡◌, IfOk};

use rv_markup::markup::Markup;
use rv_markup::tag::{
    Attribute, CIRCLE, CX, CY, FILL, FONT_WEIGHT, HEIGHT, LINE, Name, R, RECT, RX, STROKE,
    STROKE_WIDTH, TEXT, TEXT_ANCHOR, WIDTH, X, X1, X2, Y, Y1, Y2,
};
use rv_memory::store::NoMemory;
use rv_text::decimal::Decimal;

pub(crate) const WHITE: &[u8] = b"#ffffff";

/// A place in a picture, in pixels from its upper left corner.
#[derive(Drop)]
pub(crate) struct Point {
    x: Decimal,
    y: Decimal,
}

impl Point {
    pub(crate) fn new(x: u64, y: u64) -> Point {
        Point {
            x: Decimal::new(x),
            y: Decimal::new(y),
        }
    }
}

/// In pixels.
#[derive(Drop)]
pub(crate) struct Size {
    width: Decimal,
    height: Decimal,
}

impl Size {
    pub(crate) fn new(width: u64, height: u64) -> Size {
        Size {
            width: Decimal::new(width),
            height: Decimal::new(height),
        }
    }
}

/// How a text is set.
#[derive(Clone, Copy)]
pub(crate) enum Style {
    Plain,
    Bold,
    /// Around its place.
    Middle,
    /// In grey.
    Note,
}

pub(crate) fn attribute<'a>(name: Name, value: &'a [u8]) -> Attribute<'a> {
    Attribute { name, value }
}

pub(crate) fn draw_text(
    page: Markup,
    at: &Point,
    style: Style,
    text: &[u8],
) -> Result<Markup, NoMemory>
    ensures { IfOk result (λ more. more ≡ page) }
{
    let x = attribute(X, at.x.as_bytes());
    let y = attribute(Y, at.y.as_bytes());
    let page = match style {
        Style::Plain => page.begin(TEXT, &[x, y])?,
        Style::Bold => page.begin(TEXT, &[x, y, attribute(FONT_WEIGHT, b"bold")])?,
        Style::Middle => page.begin(TEXT, &[x, y, attribute(TEXT_ANCHOR, b"middle")])?,
        Style::Note => page.begin(TEXT, &[x, y, attribute(FILL, b"#595959")])?,
    };
    page.text(text)?.end()?.text(b"\n")
}

/// A hart's lane.
pub(crate) fn draw_lane(page: Markup, from: &Point, to: &Point) -> Result<Markup, NoMemory>
    ensures { IfOk result (λ more. more ≡ page) }
{
    let page = page.empty(
        LINE,
        &[
            attribute(X1, from.x.as_bytes()),
            attribute(Y1, from.y.as_bytes()),
            attribute(X2, to.x.as_bytes()),
            attribute(Y2, to.y.as_bytes()),
            attribute(STROKE, b"#b8b8b8"),
        ],
    )?;
    page.text(b"\n")
}

/// An access, from its hart's lane into another.
pub(crate) fn draw_access(page: Markup, from: &Point, to: &Point) -> Result<Markup, NoMemory>
    ensures { IfOk result (λ more. more ≡ page) }
{
    let page = page.empty(
        LINE,
        &[
            attribute(X1, from.x.as_bytes()),
            attribute(Y1, from.y.as_bytes()),
            attribute(X2, to.x.as_bytes()),
            attribute(Y2, to.y.as_bytes()),
            attribute(STROKE, b"#b3001b"),
            attribute(STROKE_WIDTH, b"2"),
        ],
    )?;
    page.text(b"\n")
}

/// A rectangle with its upper left corner at a place.
pub(crate) fn draw_rect(
    page: Markup,
    corner: &Point,
    size: &Size,
    colour: &[u8],
) -> Result<Markup, NoMemory>
    ensures { IfOk result (λ more. more ≡ page) }
{
    let page = page.empty(
        RECT,
        &[
            attribute(X, corner.x.as_bytes()),
            attribute(Y, corner.y.as_bytes()),
            attribute(WIDTH, size.width.as_bytes()),
            attribute(HEIGHT, size.height.as_bytes()),
            attribute(FILL, colour),
        ],
    )?;
    page.text(b"\n")
}

/// A pause.
pub(crate) fn draw_bar(page: Markup, corner: &Point, size: &Size) -> Result<Markup, NoMemory>
    ensures { IfOk result (λ more. more ≡ page) }
{
    let page = page.empty(
        RECT,
        &[
            attribute(X, corner.x.as_bytes()),
            attribute(Y, corner.y.as_bytes()),
            attribute(WIDTH, size.width.as_bytes()),
            attribute(HEIGHT, size.height.as_bytes()),
            attribute(RX, b"8"),
            attribute(FILL, b"#fbe3b3"),
            attribute(STROKE, b"#a86a00"),
        ],
    )?;
    page.text(b"\n")
}

/// A hart is paused or resumed.
pub(crate) fn draw_ring(page: Markup, at: &Point) -> Result<Markup, NoMemory>
    ensures { IfOk result (λ more. more ≡ page) }
{
    let page = page.empty(
        CIRCLE,
        &[
            attribute(CX, at.x.as_bytes()),
            attribute(CY, at.y.as_bytes()),
            attribute(R, b"4"),
            attribute(FILL, WHITE),
            attribute(STROKE, b"#a86a00"),
            attribute(STROKE_WIDTH, b"2"),
        ],
    )?;
    page.text(b"\n")
}

/// A step that stores nothing.
pub(crate) fn draw_dot(page: Markup, at: &Point, colour: &[u8]) -> Result<Markup, NoMemory>
    ensures { IfOk result (λ more. more ≡ page) }
{
    let page = page.empty(
        CIRCLE,
        &[
            attribute(CX, at.x.as_bytes()),
            attribute(CY, at.y.as_bytes()),
            attribute(R, b"4"),
            attribute(FILL, colour),
        ],
    )?;
    page.text(b"\n")
}
