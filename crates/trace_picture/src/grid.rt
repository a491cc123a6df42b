//! The places of a picture: where a lane runs, where a row stands, how large the picture is.
ghost use Rattle.std.specs.Prelude.{◌≡◌, ◌≤◌};
ghost use Rattle.trace_picture.specs.Places.{width_of};

use crate::parts::{Picture, Row};
use crate::signs::text_of;
use crate::svg::Point;
use std::alloc::{AllocError, Global};

/// Where the lanes begin, and how far they stand from one another.
const LANES_LEFT: u64 = 500;

pub const LANE_STEP: u64 = 180;

/// The most lanes that have a place of their own: there are no more ids.
const MOST_LANES: u64 = 65_535;

/// The room to the right of the lanes, for remarks.
const SIDE_WIDTH: u64 = 470;

/// How far the rows stand below the picture's top.
const ROWS_TOP: u64 = 110;

/// The height of a line of a row, and what a row has besides.
pub const LINE_HEIGHT: u64 = 17;

const ROW_PADDING: u64 = 13;

/// The height of the legend and of the closing lines.
const FOOT_HEIGHT: u64 = 220;

/// The width of a letter of a mark, and of its border.
const LETTER: u64 = 6;

const BORDER: u64 = 8;

/// How far to the right of its lane the first mark stands, and the last one may reach.
const MARKS_LEFT: u64 = 25;

const MARKS_RIGHT: u64 = LANE_STEP - 30;

/// The places of a picture's rows and lanes.
#[derive(Debug, Drop)]
pub struct Grid {
    lanes: u64,
    /// Where each row begins.
    tops: Vec<u64>,
    /// Where the last row ends.
    bottom: u64,
}

/// The width of a mark of so many letters.
pub(crate) fn mark_width(letters: usize) -> u64 {
    (letters.min(1_000) as u64) * LETTER + BORDER
}

/// Where a mark of a row goes: how far to the right of its lane, and on which line of the row.
#[derive(Clone, Copy, Debug, PartialEq, Eq)]
pub struct Spot {
    pub right: u64,
    pub line: u64,
}

impl Spot {
    /// Where the first mark goes.
    pub(crate) fn first() -> Spot {
        Spot {
            right: MARKS_LEFT,
            line: 0,
        }
    }

    /// Where a mark of this width goes that comes to this spot: on the next line where there is no room for it.
    pub(crate) fn fit(self, width: u64) -> Spot {
        if self.right > MARKS_LEFT && self.right.saturating_add(width) > MARKS_RIGHT {
            return Spot {
                right: MARKS_LEFT,
                line: self.line.saturating_add(1),
            };
        }
        self
    }

    /// The spot behind a mark of this width.
    pub(crate) fn after(self, width: u64) -> Spot {
        Spot {
            right: self.right.saturating_add(width).saturating_add(3),
            line: self.line,
        }
    }
}

/// How many lines a row has.
fn lines_of(alloc: Global, row: &Row) -> Result<u64, AllocError> {
    let mut spot = Spot::first();
    for mark in row.marks.as_slice() {
        let width = mark_width(text_of(alloc, mark)?.len());
        spot = spot.fit(width).after(width);
    }
    Ok(spot.line.saturating_add(1).max(row.remarks.len() as u64))
}

/// A place from `from` toward `to`, at most so far.
pub(crate) fn toward(from: u64, to: u64, by: u64) -> u64
    ensures rises { from ≤ to → (from ≤ result) × (result ≤ to) }
    ensures falls { to ≤ from → (to ≤ result) × (result ≤ from) }
{
    if from < to {
        from.saturating_add(by).min(to)
    } else {
        from.saturating_sub(by).max(to)
    }
}

impl Grid {
    /// The places of this picture.
    pub(crate) fn new(alloc: Global, picture: &Picture) -> Result<Grid, AllocError> {
        let mut tops = Vec::new(alloc);
        let mut bottom = ROWS_TOP;
        for row in picture.rows.as_slice() {
            tops.push(bottom)?;
            let height = lines_of(alloc, row)?.saturating_mul(LINE_HEIGHT);
            bottom = bottom.saturating_add(height).saturating_add(ROW_PADDING);
        }
        Ok(Grid {
            lanes: (picture.lanes.len() as u64).min(MOST_LANES),
            tops,
            bottom,
        })
    }

    pub(crate) fn width(&self) -> u64
        ensures { result ≡ width_of self.now }
    {
        LANES_LEFT + LANE_STEP * self.lanes.min(MOST_LANES) + SIDE_WIDTH
    }

    pub(crate) fn height(&self) -> u64
        ensures { self.now.bottom ≤ result }
    {
        self.bottom.saturating_add(FOOT_HEIGHT)
    }

    /// Where the first row begins.
    pub(crate) fn top(&self) -> u64 {
        ROWS_TOP
    }

    /// Where the last row ends.
    pub(crate) fn bottom(&self) -> u64 {
        self.bottom
    }

    /// Where a lane runs.
    pub(crate) fn lane_x(&self, lane: usize) -> u64
        ensures { result ≤ width_of self.now }
    {
        LANES_LEFT + LANE_STEP * (lane as u64).min(self.lanes.min(MOST_LANES)) + 20
    }

    /// Where the remarks begin.
    pub(crate) fn side_x(&self) -> u64 {
        LANES_LEFT + LANE_STEP * self.lanes.min(MOST_LANES)
    }

    /// Where a row begins.
    pub(crate) fn row_top(&self, row: usize) -> u64
        ensures { result ≤ self.now.bottom }
    {
        match self.tops.get(row) {
            Some(top) => (*top).min(self.bottom),
            None => self.bottom,
        }
    }

    /// Where the first line of a row stands.
    pub(crate) fn row_y(&self, row: usize) -> u64
        ensures { result ≤ self.now.bottom }
    {
        self.row_top(row).saturating_add(15).min(self.bottom)
    }

    /// A lane at a row: within the picture.
    pub(crate) fn at(&self, lane: usize, row: usize) -> Point
        ensures across { result.x ≤ width_of self.now }
        ensures down { result.y ≤ self.now.bottom }
    {
        Point {
            x: self.lane_x(lane),
            y: self.row_y(row),
        }
    }
}
