// The chart, in SVG: a bar a task in parts by heading, and the idle ticks beside them, in greys and hatchings with outlines.
use crate::bars::{BASE, FIRST_BAR, Frame, put_bars, put_box};
use crate::headings::LEGEND;
use paper::COUNTS;
use shares::all_ticks;
use std::io;
use std::io::Write;

// The legend: where its boxes stand, how far apart, how large they are, and where their names stand.
const LEGEND_TOP: u64 = 56;

const LEGEND_PITCH: u64 = 150;

const BOX_WIDTH: u64 = 26;

const BOX_HEIGHT: u64 = 16;

const NAME_LEFT: u64 = 34;

const NAME_BASE: u64 = 69;

// Puts the start: the size, a white ground, and the hatchings.
fn put_start<W: Write>(page: &mut W) -> io::Result<()> {
    page.write_all(
        b"<?xml version=\"1.0\" encoding=\"UTF-8\"?>\n<svg xmlns=\"http://www.w3.org/2000/svg\" version=\"1.1\" width=\"1180\" height=\"560\" viewBox=\"0 0 1180 560\" font-family=\"sans-serif\" font-size=\"12\">\n",
    )?;
    page.write_all(
        b"<defs>\n<pattern id=\"slanted\" width=\"6\" height=\"6\" patternUnits=\"userSpaceOnUse\"><rect width=\"6\" height=\"6\" fill=\"white\"/><path d=\"M-1 1L1 -1M0 6L6 0M5 7L7 5\" stroke=\"black\"/></pattern>\n",
    )?;
    page.write_all(
        b"<pattern id=\"crossed\" width=\"6\" height=\"6\" patternUnits=\"userSpaceOnUse\"><rect width=\"6\" height=\"6\" fill=\"white\"/><path d=\"M0 0L6 6M0 6L6 0\" stroke=\"black\"/></pattern>\n",
    )?;
    page.write_all(
        b"<pattern id=\"level\" width=\"6\" height=\"6\" patternUnits=\"userSpaceOnUse\"><rect width=\"6\" height=\"6\" fill=\"white\"/><path d=\"M0 3L6 3\" stroke=\"black\"/></pattern>\n</defs>\n",
    )?;
    page.write_all(
        b"<rect width=\"1180\" height=\"560\" fill=\"white\"/>\n<text x=\"70\" y=\"32\" font-size=\"18\">Ticks of each task by heading, and idle ticks</text>\n",
    )
}

// Puts the legend, the idle ticks last.
fn put_legend<W: Write>(page: &mut W) -> io::Result<()> {
    for (k, heading) in LEGEND.iter().enumerate() {
        let x = FIRST_BAR + LEGEND_PITCH * k as u64;
        put_box(
            page,
            heading.fill,
            Frame {
                x,
                y: LEGEND_TOP,
                width: BOX_WIDTH,
                height: BOX_HEIGHT,
            },
        )?;
        writeln!(
            page,
            r#"<text x="{}" y="{NAME_BASE}">{:>12}</text>"#,
            x + NAME_LEFT,
            heading.name
        )?;
    }
    Ok(())
}

// Puts the line that bars stand on, what stands under it, and that no ticks were counted, where so.
fn put_ground<W: Write>(page: &mut W, counts: &[u32; COUNTS]) -> io::Result<()> {
    writeln!(page, r#"<path d="M60 {BASE}H1160" stroke="black"/>"#)?;
    page.write_all(
        b"<text x=\"20\" y=\"508\">task</text>\n<text x=\"20\" y=\"526\">ticks</text>\n<text x=\"20\" y=\"544\">share</text>\n",
    )?;
    if all_ticks(counts) == 0 {
        page.write_all(
            b"<text x=\"70\" y=\"300\" font-size=\"18\">No ticks were counted.</text>\n",
        )?;
    }
    Ok(())
}

// Puts the chart of so many tasks.
pub fn put_chart<W: Write>(page: &mut W, counts: &[u32; COUNTS], tasks: usize) -> io::Result<()> {
    put_start(page)?;
    put_legend(page)?;
    put_ground(page, counts)?;
    put_bars(page, counts, tasks)?;
    page.write_all(b"</svg>\n")
}
