//! What a picture shows of the report: bands behind its rows, the pause, and the second access that comes into it.
ghost use Rattle.std.specs.Prelude.{◌≡◌, IfOk};

use crate::block::Block;
use crate::picture::frame::{Frame, lane_x};
use crate::picture::shapes::{Point, Size, draw_access, draw_bar, draw_rect};
use crate::row::Shown;
use rv_markup::markup::Markup;
use rv_memory::store::NoMemory;

const PAUSE: &[u8] = b"#fdf1d8";

const SECOND: &[u8] = b"#f6d5d8";

fn shows(place: u32, shown: &Shown) -> bool {
    match shown {
        Shown::Row(row) => row.place == place,
        Shown::Gap { .. } => false,
    }
}

/// The row of an entry, where it is shown.
fn row_at(block: &Block, place: u32) -> Option<u32> {
    let row = block.lines.iter().position(|shown| shows(place, shown))?;
    u32::try_from(row).ok()
}

fn draw_band(
    page: Markup,
    frame: &Frame,
    row: Option<u32>,
    colour: &[u8],
) -> Result<Markup, NoMemory>
    ensures { IfOk result (λ more. more ≡ page) }
{
    let Some(row) = row else {
        return Ok(page);
    };
    let corner = Point::new(16, frame.middle(row) - 10);
    draw_rect(page, &corner, &Size::new(frame.width() - 32, 20), colour)
}

/// Bands behind the rows of the pause, its end and the second access.
pub(crate) fn draw_bands(page: Markup, frame: &Frame, block: &Block) -> Result<Markup, NoMemory>
    ensures { IfOk result (λ more. more ≡ page) }
{
    let page = draw_band(page, frame, row_at(block, block.ending.paused_at), PAUSE)?;
    let page = draw_band(page, frame, row_at(block, block.ending.resumed_at), PAUSE)?;
    draw_band(page, frame, row_at(block, block.second), SECOND)
}

/// The pause, from its row to that of its end, where both are there.
fn draw_pause(page: Markup, frame: &Frame, block: &Block) -> Result<Markup, NoMemory>
    ensures { IfOk result (λ more. more ≡ page) }
{
    let first = row_at(block, block.ending.paused_at);
    let last = row_at(block, block.ending.resumed_at);
    let (Some(first), Some(last)) = (first, last) else {
        return Ok(page);
    };
    let x = lane_x(u32::from(block.paused.hart)) - 8;
    let corner = Point::new(x, frame.middle(first) - 8);
    let height = 20 * u64::from(last.saturating_sub(first)) + 16;
    draw_bar(page, &corner, &Size::new(16, height))
}

/// The pause, and the second access from its hart's lane into that of the paused one.
pub(crate) fn draw_report(page: Markup, frame: &Frame, block: &Block) -> Result<Markup, NoMemory>
    ensures { IfOk result (λ more. more ≡ page) }
{
    let page = draw_pause(page, frame, block)?;
    let Some(row) = row_at(block, block.second) else {
        return Ok(page);
    };
    let y = frame.middle(row);
    let from = Point::new(lane_x(u32::from(block.other.hart)), y);
    let into = Point::new(lane_x(u32::from(block.paused.hart)), y);
    draw_access(page, &from, &into)
}
