//! The words of the command line.

use clap::error::ErrorKind;
use clap::{Arg, Command};
use schedule_text::number_of;
use std::alloc::Global;
use trace_picture::{View, view_of};
use values::Memory;

/// The number that an option's value says, where the option stands. `Err` where it is none from 1 on.
fn number_said(text: Option<&str>) -> Result<Option<u64>, ()> {
    let Some(text) = text else {
        return Ok(None);
    };
    match number_of(text.as_bytes(), 0, 1, u64::MAX) {
        Ok(number) => Ok(Some(number)),
        Err(_) => Err(()),
    }
}

/// The view that the options' values say.
fn view_said(from: Option<&str>, to: Option<&str>) -> Option<View> {
    match (number_said(from), number_said(to)) {
        (Ok(from), Ok(to)) => view_of(from, to),
        _ => None,
    }
}

/// The events that the words ask for by `--from` and `--to`; none where they are no view.
pub fn read_options(alloc: Global, words: &[String]) -> Result<Option<View>, Memory> {
    let from = Arg::new(alloc, "from").long("from");
    let to = Arg::new(alloc, "to").long("to");
    let chart = Command::new(alloc, "chart").arg(from)?.arg(to)?;
    match chart.try_get_matches_from(words) {
        Ok(matches) => Ok(view_said(matches.get_str("from"), matches.get_str("to"))),
        Err(error) if error.kind() == ErrorKind::OutOfMemory => Err(Memory),
        Err(_) => Ok(None),
    }
}
