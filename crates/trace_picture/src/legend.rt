//! The style of a picture, its symbols, and the legend.

use crate::svg::{Point, push_circle, push_label, push_line, push_rect, push_symbol};
use std::alloc::AllocError;

/// How everything looks.
pub const STYLE: &'static str = "<style>
text{font:11px ui-monospace,SFMono-Regular,Menlo,Consolas,'DejaVu Sans Mono',monospace;fill:#1e293b}
.title{font:600 18px system-ui,'Segoe UI',Helvetica,Arial,sans-serif}
.heading,.caption{font:11px system-ui,'Segoe UI',Helvetica,Arial,sans-serif;fill:#64748b}
.caption{fill:#334155}
.ground{fill:#ffffff}.stripe{fill:#f8fafc}
.lane{stroke:#94a3b8;stroke-width:2}.leads{fill:#fde68a;stroke:#d97706;stroke-width:1}
.halted{stroke:#dc2626;stroke-width:2;stroke-dasharray:2 4}
.name{fill:#1e293b;rx:5px}.lane-name{fill:#ffffff;font-weight:600;text-anchor:middle}
.number{text-anchor:end;font-weight:600;fill:#64748b}.refused .what{fill:#b91c1c}
.arrow{stroke-width:1.4;fill:none}
.askvote .arrow{stroke:#7c3aed;marker-end:url(#h-askvote)}.granted .arrow{stroke:#16a34a;marker-end:url(#h-granted)}
.denied .arrow{stroke:#be185d;marker-end:url(#h-denied)}.append .arrow{stroke:#2563eb;marker-end:url(#h-append)}
.heartbeat .arrow{stroke:#93b4e8;marker-end:url(#h-heartbeat)}.accepted .arrow{stroke:#0d9488;marker-end:url(#h-accepted)}
.rejected .arrow{stroke:#ea580c;marker-end:url(#h-rejected)}.part .arrow{stroke:#78716c;marker-end:url(#h-part)}
.repeat .arrow{stroke-dasharray:6 4}.lost .arrow{marker-end:none}
.waiting .arrow{marker-end:none;stroke-dasharray:2 3}.open{fill:#ffffff;stroke:#64748b}
.message:hover .arrow,.repeat:hover .arrow{stroke-width:3}.loss{fill:#b91c1c;font-size:10px}
.disc{fill:#475569;stroke:#ffffff}.leader .disc{fill:#b45309}.stopped .disc{fill:#dc2626}.down .disc{fill:#cbd5e1}
.timer{fill:none;stroke:#7c3aed;stroke-width:1.5;stroke-dasharray:3 2}
.id{fill:#ffffff;font-size:9px;font-weight:700;text-anchor:middle}
.chip{fill:#f1f5f9;stroke:#cbd5e1;rx:3px}.sign{font-size:10px}
.mark.lead .chip{fill:#fde68a;stroke:#d97706}.mark.term .chip{fill:#ffffff;stroke:#94a3b8}
.mark.promise .chip{fill:#dbeafe;stroke:#60a5fa}.mark.commit .chip{fill:#bbf7d0;stroke:#16a34a}
.mark.members .chip{fill:#ede9fe;stroke:#8b5cf6}.mark.halt .chip{fill:#dc2626;stroke:#991b1b}.mark.halt .sign{fill:#ffffff}
.mark.taken .chip{fill:#ccfbf1;stroke:#14b8a6}.mark.crash .chip,.mark.rolled .chip{fill:#fee2e2;stroke:#ef4444}
.mark.again .chip{fill:#ffffff;stroke:#64748b;stroke-dasharray:3 2}
.answer .remark{fill:#475569}.report .remark{fill:#065f46;font-weight:700}
</style>
";

/// Heads of arrows, and symbols.
pub const DEFINITIONS: &'static str = "<defs>
<marker id=\"h-askvote\" viewBox=\"0 0 8 8\" refX=\"7\" refY=\"4\" markerWidth=\"8\" markerHeight=\"8\" markerUnits=\"userSpaceOnUse\" orient=\"auto\"><path d=\"M0 0L8 4L0 8z\" fill=\"#7c3aed\"/></marker>
<marker id=\"h-granted\" viewBox=\"0 0 8 8\" refX=\"7\" refY=\"4\" markerWidth=\"8\" markerHeight=\"8\" markerUnits=\"userSpaceOnUse\" orient=\"auto\"><path d=\"M0 0L8 4L0 8z\" fill=\"#16a34a\"/></marker>
<marker id=\"h-denied\" viewBox=\"0 0 8 8\" refX=\"7\" refY=\"4\" markerWidth=\"8\" markerHeight=\"8\" markerUnits=\"userSpaceOnUse\" orient=\"auto\"><path d=\"M0 0L8 4L0 8z\" fill=\"#be185d\"/></marker>
<marker id=\"h-append\" viewBox=\"0 0 8 8\" refX=\"7\" refY=\"4\" markerWidth=\"8\" markerHeight=\"8\" markerUnits=\"userSpaceOnUse\" orient=\"auto\"><path d=\"M0 0L8 4L0 8z\" fill=\"#2563eb\"/></marker>
<marker id=\"h-heartbeat\" viewBox=\"0 0 8 8\" refX=\"7\" refY=\"4\" markerWidth=\"8\" markerHeight=\"8\" markerUnits=\"userSpaceOnUse\" orient=\"auto\"><path d=\"M0 0L8 4L0 8z\" fill=\"#93b4e8\"/></marker>
<marker id=\"h-accepted\" viewBox=\"0 0 8 8\" refX=\"7\" refY=\"4\" markerWidth=\"8\" markerHeight=\"8\" markerUnits=\"userSpaceOnUse\" orient=\"auto\"><path d=\"M0 0L8 4L0 8z\" fill=\"#0d9488\"/></marker>
<marker id=\"h-rejected\" viewBox=\"0 0 8 8\" refX=\"7\" refY=\"4\" markerWidth=\"8\" markerHeight=\"8\" markerUnits=\"userSpaceOnUse\" orient=\"auto\"><path d=\"M0 0L8 4L0 8z\" fill=\"#ea580c\"/></marker>
<marker id=\"h-part\" viewBox=\"0 0 8 8\" refX=\"7\" refY=\"4\" markerWidth=\"8\" markerHeight=\"8\" markerUnits=\"userSpaceOnUse\" orient=\"auto\"><path d=\"M0 0L8 4L0 8z\" fill=\"#78716c\"/></marker>
<g id=\"s-cross\"><path d=\"M-5 -5L5 5M-5 5L5 -5\" stroke=\"#dc2626\" stroke-width=\"2.5\"/></g>
<g id=\"s-halt\"><path d=\"M-3 -8L3 -8L8 -3L8 3L3 8L-3 8L-8 3L-8 -3z\" fill=\"#dc2626\" stroke=\"#7f1d1d\"/><path d=\"M-4 0L4 0\" stroke=\"#ffffff\" stroke-width=\"2.5\"/></g>
<g id=\"s-crash\"><path d=\"M-6 -6L6 6M-6 6L6 -6\" stroke=\"#0f172a\" stroke-width=\"2.5\"/></g>
<g id=\"s-save\"><path d=\"M-6 -6L4 -6L6 -4L6 6L-6 6z\" fill=\"#e0f2fe\" stroke=\"#0369a1\"/><path d=\"M-3 -6L-3 -2L3 -2L3 -6M-3 6L-3 1L3 1L3 6\" fill=\"none\" stroke=\"#0369a1\"/></g>
<g id=\"s-roll\"><path d=\"M5 -3A6 6 0 1 0 6 2\" fill=\"none\" stroke=\"#b91c1c\" stroke-width=\"2\"/><path d=\"M7 -7L6 0L0 -4z\" fill=\"#b91c1c\"/></g>
</defs>
";

/// The class of a lost message in the legend.
const LOST: &'static str = "lost append";

/// The arrows of the legend: class and caption.
const ARROWS: [(&'static str, &'static str); 11] = [
    ("askvote", "askvote: a candidate asks"),
    ("granted", "vote, granted"),
    ("denied", "vote, denied"),
    ("append", "append with entries"),
    ("heartbeat", "append without entries"),
    ("accepted", "accepted"),
    ("rejected", "rejected"),
    ("part", "part of a table, part taken"),
    ("repeat append", "delivered again (any kind)"),
    (LOST, "lost, with its number"),
    ("waiting append", "not delivered by the last row"),
];

/// The marks of the legend: class, sign and caption.
const MARKS: [(&'static str, &'static str, &'static str); 8] = [
    ("mark lead", "leads t2", "leads from here on, in term 2"),
    ("mark term", "t2", "takes term 2"),
    ("mark promise", "p5", "promises up to index 5"),
    ("mark commit", "c5/t2", "commits index 5, of term 2"),
    ("mark members", "members", "members: index, margin, voters"),
    ("mark taken", "table 5", "has taken a table at index 5"),
    ("mark again", "again", "a message comes again"),
    ("mark start", "start", "a learner starts"),
];

/// The symbols of the legend.
const SYMBOLS: [(&'static str, &'static str); 4] = [
    ("s-halt", "halts"),
    ("s-crash", "crashes: its lane is empty"),
    ("s-save", "state is saved"),
    ("s-roll", "saved state is put back"),
];

/// Where an entry of the legend stands: four columns.
fn spot(top: u64, place: usize) -> Point {
    let place = place.min(1_000) as u64;
    Point {
        x: 20 + place % 4 * 280,
        y: top.saturating_add(place / 4 * 20),
    }
}

fn right(at: Point, by: u64) -> Point {
    Point {
        x: at.x.saturating_add(by),
        y: at.y,
    }
}

fn caption(out: &mut String, at: Point, text: &str) -> Result<(), AllocError> {
    let below = Point {
        x: at.x,
        y: at.y.saturating_add(4),
    };
    push_label(out, "caption", below, text.as_bytes())?;
    out.push_str("\n")
}

/// What the arrows, marks and symbols mean, from this height on.
pub(crate) fn draw_legend(out: &mut String, top: u64) -> Result<(), AllocError> {
    out.push_str("<g class=\"legend\">\n")?;
    for (place, (class, text)) in ARROWS.iter().enumerate() {
        draw_arrow(out, spot(top, place), class, text)?;
    }
    for (place, (class, sign, text)) in MARKS.iter().enumerate() {
        draw_mark(out, spot(top, place.saturating_add(12)), class, sign, text)?;
    }
    for (place, (symbol, text)) in SYMBOLS.iter().enumerate() {
        let at = spot(top, place.saturating_add(20));
        push_symbol(out, symbol, right(at, 20))?;
        caption(out, right(at, 40), text)?;
    }
    draw_lanes(out, top.saturating_add(120))?;
    out.push_str("</g>\n")
}

fn draw_arrow(out: &mut String, at: Point, class: &str, text: &str) -> Result<(), AllocError> {
    write!(out, "<g class=\"{class}\">")?;
    push_line(out, "arrow", at, right(at, 40))?;
    if class == LOST {
        push_symbol(out, "s-cross", right(at, 40))?;
    }
    out.push_str("</g>")?;
    caption(out, right(at, 50), text)
}

fn draw_mark(
    out: &mut String,
    at: Point,
    class: &str,
    sign: &str,
    text: &str,
) -> Result<(), AllocError> {
    let corner = Point {
        x: at.x,
        y: at.y.saturating_sub(7),
    };
    let inner = Point {
        x: at.x.saturating_add(4),
        y: at.y.saturating_add(4),
    };
    write!(out, "<g class=\"{class}\">")?;
    push_rect(out, "chip", corner, 56, 14)?;
    push_label(out, "sign", inner, sign.as_bytes())?;
    out.push_str("</g>")?;
    caption(out, right(at, 64), text)
}

/// What the lanes and their dots mean.
fn draw_lanes(out: &mut String, y: u64) -> Result<(), AllocError> {
    let bar = Point {
        x: 20,
        y: y.saturating_sub(6),
    };
    push_rect(out, "leads", bar, 40, 12)?;
    caption(out, Point { x: 70, y }, "leads")?;
    push_line(out, "lane", Point { x: 300, y }, Point { x: 340, y })?;
    caption(out, Point { x: 350, y }, "runs")?;
    push_line(out, "halted", Point { x: 580, y }, Point { x: 620, y })?;
    caption(out, Point { x: 630, y }, "has halted")?;
    push_circle(out, "timer", Point { x: 880, y }, 9)?;
    caption(out, Point { x: 900, y }, "its timer has run out")
}
