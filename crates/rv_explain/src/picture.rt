//! The picture of a race, an SVG: the lines of its block as texts, and beside those of entries a lane for each hart, in which time
//! goes downwards. All lengths are in pixels.
ghost use Rattle.std.specs.Prelude.{◌≡◌, [], IfOk};
ghost use Rattle.rv_markup.specs.Markup.{IsDocument};

mod frame;
mod report;
mod shapes;

use crate::block::Block;
use crate::blocks::block_lines;
use crate::names::{Names, PICTURE_NAME};
use crate::picture::frame::{Frame, LEGEND, frame_of, lane_x, small};
use crate::picture::report::{draw_bands, draw_report};
use crate::picture::shapes::{
    Point, Size, Style, WHITE, attribute, draw_dot, draw_lane, draw_rect, draw_ring, draw_text,
};
use crate::row::{Row, Shown};
use rv_collide::entry::Entry;
use rv_markup::markup::Markup;
use rv_markup::tag::{
    FILL, FONT_FAMILY, FONT_SIZE, HEIGHT, RECT, SPACE, SVG, VIEW_BOX, WIDTH, XMLNS,
};
use rv_memory::store::NoMemory;
use rv_symbols::symbol_table::SymbolTable;
use rv_text::decimal::Decimal;
use std::alloc::Global;

/// Each hart's number and its lane, from the first entry to the last.
fn draw_lanes(page: Markup, frame: &Frame) -> Result<Markup, NoMemory>
    ensures { IfOk result (λ more. more ≡ page) }
{
    let mut page = page;
    for hart in 0..frame.lanes {
        let x = lane_x(hart);
        let number = Decimal::new(u64::from(hart));
        let above = Point::new(x, frame.numbers());
        page = draw_text(page, &above, Style::Middle, number.as_bytes())?;
        let top = Point::new(x, frame.lanes_top());
        page = draw_lane(page, &top, &Point::new(x, frame.lanes_end()))?;
    }
    Ok(page)
}

/// A dot, or a square where the step stores. That of the second access is red.
fn draw_step(page: Markup, x: u64, y: u64, second: u32, row: &Row) -> Result<Markup, NoMemory>
    ensures { IfOk result (λ more. more ≡ page) }
{
    let is_second = row.place == second;
    let colour: &[u8] = if is_second { b"#b3001b" } else { b"#1a1a1a" };
    match row.access {
        Some(access) if access.write => {
            let corner = Point::new(x.saturating_sub(4), y.saturating_sub(4));
            draw_rect(page, &corner, &Size::new(8, 8), colour)
        }
        _ => draw_dot(page, &Point::new(x, y), colour),
    }
}

/// The shape of a line among the entries, where the second access was made at a place. Entries that are left out break the
/// lanes.
fn draw_row(
    page: Markup,
    frame: &Frame,
    second: u32,
    n: u32,
    shown: &Shown,
) -> Result<Markup, NoMemory>
    ensures { IfOk result (λ more. more ≡ page) }
{
    let y = frame.middle(n);
    let Shown::Row(row) = shown else {
        let size = Size::new(24 * u64::from(frame.lanes), 6);
        return draw_rect(page, &Point::new(16, y - 3), &size, WHITE);
    };
    match row.entry {
        Entry::Stepped(hart) => draw_step(page, lane_x(u32::from(hart)), y, second, row),
        Entry::Paused(hart, _) | Entry::Resumed(hart) => {
            draw_ring(page, &Point::new(lane_x(u32::from(hart)), y))
        }
        Entry::Armed(_) | Entry::Disarmed(_) => Ok(page),
    }
}

fn draw_rows(page: Markup, frame: &Frame, block: &Block) -> Result<Markup, NoMemory>
    ensures { IfOk result (λ more. more ≡ page) }
{
    let mut page = page;
    for (n, shown) in block.lines.iter().enumerate() {
        page = draw_row(page, frame, block.second, small(n)?, shown)?;
    }
    Ok(page)
}

/// The lines of the block, the first of them bold.
fn draw_lines(page: Markup, frame: &Frame, lines: &[Vec<u8>]) -> Result<Markup, NoMemory>
    ensures { IfOk result (λ more. more ≡ page) }
{
    let mut page = page;
    for (n, line) in lines.iter().enumerate() {
        let style = if n == 0 { Style::Bold } else { Style::Plain };
        page = draw_text(page, &frame.line(small(n)?), style, line)?;
    }
    Ok(page)
}

/// What the picture shows, from back to front.
fn draw_inside(
    page: Markup,
    frame: &Frame,
    lines: &[Vec<u8>],
    block: &Block,
) -> Result<Markup, NoMemory>
    ensures { IfOk result (λ more. more ≡ page) }
{
    let page = page.empty(
        RECT,
        &[
            attribute(WIDTH, b"100%"),
            attribute(HEIGHT, b"100%"),
            attribute(FILL, WHITE),
        ],
    )?;
    let page = draw_bands(page.text(b"\n")?, frame, block)?;
    let page = draw_lanes(page, frame)?;
    let page = draw_report(page, frame, block)?;
    let page = draw_rows(page, frame, block)?;
    let page = draw_lines(page, frame, lines)?;
    draw_text(page, &frame.legend(), Style::Note, LEGEND)
}

fn draw_framed(
    page: Markup,
    alloc: Global,
    frame: &Frame,
    lines: &[Vec<u8>],
    block: &Block,
) -> Result<Markup, NoMemory>
    ensures { IfOk result (λ more. more ≡ page) }
{
    let (width, height) = (frame.width(), frame.height());
    let all = format!(in alloc; "0 0 {width} {height}")?;
    let (width, height) = (Decimal::new(width), Decimal::new(height));
    let page = page.begin(
        SVG,
        &[
            attribute(XMLNS, b"http://www.w3.org/2000/svg"),
            attribute(WIDTH, width.as_bytes()),
            attribute(HEIGHT, height.as_bytes()),
            attribute(VIEW_BOX, all.as_bytes()),
            attribute(FONT_FAMILY, b"ui-monospace, DejaVu Sans Mono, monospace"),
            attribute(FONT_SIZE, b"13"),
            attribute(SPACE, b"preserve"),
        ],
    )?;
    let page = draw_inside(page.text(b"\n")?, frame, lines, block)?;
    page.end()?.text(b"\n")
}

/// Adds the picture of race K of the symbols' image to a page.
pub fn draw_picture(
    page: Markup,
    alloc: Global,
    symbols: &SymbolTable,
    race: u64,
    block: &Block,
) -> Result<Markup, NoMemory>
    ensures { IfOk result (λ more. more ≡ page) }
{
    let most = PICTURE_NAME;
    let lines = block_lines(alloc, &Names { symbols, most }, b"", race, block, &[])?;
    let frame = frame_of(&lines, block)?;
    draw_framed(page, alloc, &frame, &lines, block)
}

/// The picture of race K of the symbols' image, as a file of its own.
pub fn picture_text(
    alloc: Global,
    symbols: &SymbolTable,
    race: u64,
    block: &Block,
) -> Result<Vec<u8>, NoMemory>
    ensures { IfOk result (λ text. IsDocument text.items []) }
{
    let page = draw_picture(Markup::new(alloc), alloc, symbols, race, block)?;
    Ok(page.finish())
}
