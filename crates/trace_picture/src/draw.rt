//! The picture is drawn.

use crate::grid::{Grid, LANE_STEP, LINE_HEIGHT, Spot, mark_width, toward};
use crate::legend::{DEFINITIONS, STYLE, draw_legend};
use crate::messages::is_drawn;
use crate::parts::{Fate, Kind, Lane, Mark, Message, Picture, Remark, Repeat, Row, Sign, State};
use crate::signs::{class_of, symbol_of, text_of};
use crate::svg::{
    Point, close_group, open_group, push_circle, push_curve, push_label, push_line, push_rect,
    push_symbol, push_text,
};
use std::alloc::{AllocError, Global};

/// How far an arrow stays away from the middle of its lanes.
const GAP: u64 = 10;

/// How far an arrow over other lanes is bent.
const BEND: u64 = 26;

/// How far a mark's symbol stands to the left of its lane.
const SYMBOL_LEFT: u64 = 36;

/// The most letters of a row's text.
const MOST_LETTERS: usize = 66;

/// The most letters of a remark.
const MOST_REMARK: usize = 72;

/// How to read the picture.
const HELP: &'static str =
    "Time runs downward. Hover over an arrow, a dot, a mark or a text to see its line of the trace.";

/// Draws a picture.
pub(crate) fn draw(alloc: Global, picture: &Picture) -> Result<String, AllocError> {
    let grid = Grid::new(alloc, picture)?;
    let mut out = String::new(alloc);
    draw_head(&mut out, &grid, picture)?;
    draw_stripes(&mut out, &grid, picture)?;
    for (place, lane) in picture.lanes.as_slice().iter().enumerate() {
        draw_lane(&mut out, &grid, place, lane)?;
    }
    for message in picture.messages.as_slice() {
        draw_message(&mut out, &grid, message)?;
    }
    for repeat in picture.repeats.as_slice() {
        draw_repeat(&mut out, &grid, picture, *repeat)?;
    }
    for (place, row) in picture.rows.as_slice().iter().enumerate() {
        draw_row(&mut out, &grid, picture, place, row)?;
    }
    for (place, lane) in picture.lanes.as_slice().iter().enumerate() {
        draw_name(&mut out, grid.lane_x(place), 78, lane)?;
        draw_name(
            &mut out,
            grid.lane_x(place),
            grid.bottom().saturating_add(8),
            lane,
        )?;
    }
    draw_foot(&mut out, &grid, picture)?;
    out.push_str("</svg>\n")?;
    Ok(out)
}

/// The size, the definitions, and what is drawn.
fn draw_head(out: &mut String, grid: &Grid, picture: &Picture) -> Result<(), AllocError> {
    let (width, height) = (grid.width(), grid.height());
    write!(
        out,
        "<svg xmlns=\"http://www.w3.org/2000/svg\" width=\"{width}\" height=\"{height}\" viewBox=\"0 0 {width} {height}\">\n"
    )?;
    out.push_str(STYLE)?;
    out.push_str(DEFINITIONS)?;
    push_rect(out, "ground", Point { x: 0, y: 0 }, width, height)?;
    out.push_str("<text class=\"title\" x=\"20\" y=\"34\">")?;
    draw_title(out, picture)?;
    out.push_str("</text>\n")?;
    push_label(out, "heading", Point { x: 20, y: 56 }, HELP.as_bytes())?;
    push_label(out, "heading", Point { x: 20, y: 94 }, b"event")?;
    push_label(
        out,
        "heading",
        Point { x: 68, y: 94 },
        b"record of the schedule: message or refusal",
    )?;
    push_label(
        out,
        "heading",
        Point {
            x: grid.side_x(),
            y: 94,
        },
        b"answers and reports",
    )
}

/// Which events are drawn, and where others are left out that they are.
fn draw_title(out: &mut String, picture: &Picture) -> Result<(), AllocError> {
    let (from, all) = (picture.view.from, picture.events);
    let to = picture.view.to.min(all);
    let drawn = picture.rows.len();
    if from > all {
        return write!(out, "No event is drawn: the trace has {all}");
    }
    if from == 1 && to == all {
        return write!(out, "A trace of {all} events");
    }
    if from == 1 {
        return write!(
            out,
            "The first {drawn} events of {all}; --from and --to draw others"
        );
    }
    write!(
        out,
        "Events {from} to {to} of {all}; --from and --to draw others"
    )
}

/// Every other row has a tinted ground.
fn draw_stripes(out: &mut String, grid: &Grid, picture: &Picture) -> Result<(), AllocError> {
    let width = grid.width();
    for (place, _row) in picture.rows.as_slice().iter().enumerate() {
        if place % 2 == 0 {
            let y = grid.row_top(place);
            let end = grid.row_top(place.saturating_add(1));
            push_rect(
                out,
                "stripe",
                Point { x: 0, y },
                width,
                end.saturating_sub(y),
            )?;
        }
    }
    Ok(())
}

/// The stretches of a lane.
fn draw_lane(out: &mut String, grid: &Grid, place: usize, lane: &Lane) -> Result<(), AllocError> {
    let x = grid.lane_x(place);
    for span in lane.spans.as_slice() {
        let top = span_top(grid, span.from);
        draw_span(out, span.state, x, top, grid.row_y(span.to))?;
    }
    let top = span_top(grid, lane.since);
    draw_span(out, lane.state, x, top, grid.bottom())
}

/// Where a stretch begins: one from the first row at the top, whether it began there or before.
fn span_top(grid: &Grid, row: usize) -> u64 {
    if row == 0 {
        grid.top()
    } else {
        grid.row_y(row)
    }
}

fn draw_span(out: &mut String, state: State, x: u64, top: u64, end: u64) -> Result<(), AllocError> {
    let height = end.saturating_sub(top);
    let corner = Point {
        x: x.saturating_sub(6),
        y: top,
    };
    match state {
        State::Absent => Ok(()),
        State::Follows => push_line(out, "lane", Point { x, y: top }, Point { x, y: end }),
        State::Leads => push_rect(out, "leads", corner, 12, height),
        State::Halted => push_line(out, "halted", Point { x, y: top }, Point { x, y: end }),
    }
}

fn kind_class(kind: Kind) -> &'static str {
    match kind {
        Kind::AskVote => "askvote",
        Kind::Granted => "granted",
        Kind::Denied => "denied",
        Kind::Append => "append",
        Kind::Heartbeat => "heartbeat",
        Kind::Accepted => "accepted",
        Kind::Rejected => "rejected",
        Kind::Part | Kind::PartTaken => "part",
    }
}

fn fate_class(fate: Fate) -> &'static str {
    match fate {
        Fate::Waiting | Fate::Before => "waiting",
        Fate::Delivered { .. } => "delivered",
        Fate::Lost { .. } => "lost",
    }
}

/// Where a message was sent; at the top where that was before the first row.
fn sending(grid: &Grid, message: &Message) -> Point {
    match message.sent {
        Some(row) => grid.at(message.from, row),
        None => Point {
            x: grid.lane_x(message.from),
            y: grid.top(),
        },
    }
}

/// One group for a message that falls into the picture.
fn draw_message(out: &mut String, grid: &Grid, message: &Message) -> Result<(), AllocError> {
    if !is_drawn(message) {
        return Ok(());
    }
    let (kind, fate) = (kind_class(message.kind), fate_class(message.fate));
    write!(out, "<g class=\"message {kind} {fate}\"><title>")?;
    push_text(out, message.note.as_slice())?;
    out.push_str("</title>")?;
    let from = sending(grid, message);
    let to = grid.lane_x(message.to);
    match message.fate {
        Fate::Delivered { row } => draw_arrow(out, from, grid.at(message.to, row))?,
        Fate::Lost { row } => draw_loss(out, from, to, grid.row_y(row), message.number)?,
        Fate::Waiting | Fate::Before => draw_waiting(out, from, to)?,
    }
    close_group(out)
}

/// An arrow; one over a lane between is bent, so that it does not run through the dots there.
fn draw_arrow(out: &mut String, from: Point, to: Point) -> Result<(), AllocError> {
    let start = Point {
        x: toward(from.x, to.x, GAP),
        y: from.y,
    };
    let end = Point {
        x: toward(to.x, from.x, GAP + 1),
        y: to.y,
    };
    let bend = if from.x.abs_diff(to.x) > LANE_STEP {
        BEND
    } else {
        0
    };
    push_curve(out, "arrow", start, end, bend)
}

/// A line that ends with a cross half way to the lane at `to`.
fn draw_loss(
    out: &mut String,
    from: Point,
    to: u64,
    y: u64,
    number: u64,
) -> Result<(), AllocError> {
    let end = Point {
        x: toward(from.x, to, 84),
        y,
    };
    let start = Point {
        x: toward(from.x, to, GAP),
        y: from.y,
    };
    push_line(out, "arrow", start, end)?;
    push_symbol(out, "s-cross", end)?;
    let (x, y) = (end.x.saturating_add(8), end.y.saturating_add(4));
    write!(
        out,
        "<text class=\"loss\" x=\"{x}\" y=\"{y}\">{number} lost</text>"
    )
}

/// A short line toward the lane at `to`, with an open end.
fn draw_waiting(out: &mut String, from: Point, to: u64) -> Result<(), AllocError> {
    let end = Point {
        x: toward(from.x, to, 46),
        y: from.y.saturating_add(11),
    };
    let start = Point {
        x: toward(from.x, to, GAP),
        y: from.y,
    };
    push_line(out, "arrow", start, end)?;
    push_circle(out, "open", end, 3)
}

/// A message that comes again.
fn draw_repeat(
    out: &mut String,
    grid: &Grid,
    picture: &Picture,
    repeat: Repeat,
) -> Result<(), AllocError> {
    let Some(message) = picture.messages.as_slice().get(repeat.message) else {
        return Ok(());
    };
    let kind = kind_class(message.kind);
    write!(out, "<g class=\"repeat {kind}\"><title>again: ")?;
    push_text(out, message.note.as_slice())?;
    out.push_str("</title>")?;
    draw_arrow(out, sending(grid, message), grid.at(message.to, repeat.row))?;
    close_group(out)
}

/// What the replica of a lane does at a row.
fn state_at(lane: &Lane, row: usize) -> State {
    for span in lane.spans.as_slice() {
        if span.from <= row && row < span.to {
            return span.state;
        }
    }
    lane.state
}

fn dot_class(state: State) -> &'static str {
    match state {
        State::Absent => "dot down",
        State::Follows => "dot",
        State::Leads => "dot leader",
        State::Halted => "dot stopped",
    }
}

/// An event: its number and text, who acts, marks and remarks.
fn draw_row(
    out: &mut String,
    grid: &Grid,
    picture: &Picture,
    place: usize,
    row: &Row,
) -> Result<(), AllocError> {
    let alloc = *out.allocator();
    draw_event(out, alloc, grid.row_y(place), row)?;
    if let Some(lane) = row.lane {
        draw_actor(out, grid, picture, lane, place, row)?;
    }
    let mut spot = Spot::first();
    for mark in row.marks.as_slice() {
        let text = text_of(alloc, mark)?;
        let width = mark_width(text.len());
        spot = spot.fit(width);
        draw_mark(
            out,
            grid.at(mark.lane, place),
            spot,
            mark,
            row,
            text.as_slice(),
        )?;
        spot = spot.after(width);
    }
    for (line, remark) in row.remarks.as_slice().iter().enumerate() {
        let y = grid
            .row_y(place)
            .saturating_add((line as u64).saturating_mul(LINE_HEIGHT));
        draw_remark(
            out,
            Point {
                x: grid.side_x(),
                y,
            },
            remark,
        )?;
    }
    Ok(())
}

/// The first letters of a text, and two dots where there are more.
fn cut_text(text: &mut Vec<u8>, most: usize) -> Result<(), AllocError> {
    if text.len() > most {
        text.truncate(most);
        text.extend_from_slice(b"..")?;
    }
    Ok(())
}

fn draw_event(out: &mut String, alloc: Global, y: u64, row: &Row) -> Result<(), AllocError> {
    let mut text = Vec::from_slice(alloc, row.text.as_slice())?;
    if !row.detail.is_empty() {
        text.extend_from_slice(b": ")?;
        text.extend_from_slice(row.detail.as_slice())?;
    }
    cut_text(&mut text, MOST_LETTERS)?;
    let class = if row.is_refused {
        "event refused"
    } else {
        "event"
    };
    open_group(out, class, row.note.as_slice())?;
    let (number, y) = (row.event, y.saturating_add(4));
    write!(
        out,
        "<text class=\"number\" x=\"56\" y=\"{y}\">{number}</text>"
    )?;
    push_label(out, "what", Point { x: 68, y }, text.as_slice())?;
    close_group(out)
}

/// A dot with the replica's id on the lane of who acts.
fn draw_actor(
    out: &mut String,
    grid: &Grid,
    picture: &Picture,
    place: usize,
    row: usize,
    event: &Row,
) -> Result<(), AllocError> {
    let Some(lane) = picture.lanes.as_slice().get(place) else {
        return Ok(());
    };
    let at = grid.at(place, row);
    open_group(out, dot_class(state_at(lane, row)), event.note.as_slice())?;
    if event.is_timer {
        push_circle(out, "timer", at, 12)?;
    }
    push_circle(out, "disc", at, 9)?;
    let (x, y, replica) = (at.x, at.y.saturating_add(4), lane.replica);
    write!(
        out,
        "<text class=\"id\" x=\"{x}\" y=\"{y}\">{replica}</text>"
    )?;
    close_group(out)
}

/// A mark beside a lane, and its symbol on the other side.
fn draw_mark(
    out: &mut String,
    at: Point,
    spot: Spot,
    mark: &Mark,
    row: &Row,
    text: &[u8],
) -> Result<(), AllocError> {
    let note = if mark.note.is_empty() {
        row.note.as_slice()
    } else {
        mark.note.as_slice()
    };
    let class = class_of(mark.sign);
    write!(out, "<g class=\"mark {class}\"><title>")?;
    push_text(out, note)?;
    out.push_str("</title>")?;
    let x = at.x.saturating_add(spot.right);
    let y = at.y.saturating_add(spot.line.saturating_mul(LINE_HEIGHT));
    let corner = Point {
        x,
        y: y.saturating_sub(7),
    };
    push_rect(out, "chip", corner, mark_width(text.len()), 14)?;
    let inner = Point {
        x: x.saturating_add(4),
        y: y.saturating_add(4),
    };
    push_label(out, "sign", inner, text)?;
    if let Some(name) = symbol_of(mark.sign) {
        push_symbol(
            out,
            name,
            Point {
                x: at.x.saturating_sub(SYMBOL_LEFT),
                y: at.y,
            },
        )?;
    }
    close_group(out)
}

fn draw_remark(out: &mut String, at: Point, remark: &Remark) -> Result<(), AllocError> {
    let alloc = *out.allocator();
    let mut text = Vec::from_slice(alloc, remark.text.as_slice())?;
    cut_text(&mut text, MOST_REMARK)?;
    let class = if remark.is_report { "report" } else { "answer" };
    open_group(out, class, remark.note.as_slice())?;
    let y = at.y.saturating_add(4);
    push_label(out, "remark", Point { x: at.x, y }, text.as_slice())?;
    close_group(out)
}

/// The name of a lane.
fn draw_name(out: &mut String, x: u64, y: u64, lane: &Lane) -> Result<(), AllocError> {
    let corner = Point {
        x: x.saturating_sub(42),
        y,
    };
    push_rect(out, "name", corner, 84, 22)?;
    let (y, replica) = (y.saturating_add(15), lane.replica);
    write!(
        out,
        "<text class=\"lane-name\" x=\"{x}\" y=\"{y}\">replica {replica}</text>\n"
    )
}

/// The closing lines, and the legend.
fn draw_foot(out: &mut String, grid: &Grid, picture: &Picture) -> Result<(), AllocError> {
    let y = grid.bottom().saturating_add(54);
    if !picture.closing.is_empty() {
        push_label(
            out,
            "closing",
            Point { x: 20, y },
            picture.closing.as_slice(),
        )?;
    }
    draw_legend(out, y.saturating_add(30))
}
