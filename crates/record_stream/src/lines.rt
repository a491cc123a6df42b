//! Bytes come in any pieces; each line is played as soon as it is whole.
ghost use Rattle.std.specs.Prelude.{◌≡◌, ◌∷◌, ◌++◌, ◌+◌, ◌*◌, ◌<◌, ◌≤◌, ◌^◌, [], IfOk, OnOk, drop, length};
ghost use Rattle.byte_streams.specs.Causes.{HasCauseAt};
ghost use Rattle.csv.specs.Records.{fields_of};
ghost use Rattle.record_stream.specs.Course.{PlaysTo};
ghost use Rattle.record_cutting.specs.Lines as spec;
ghost use Rattle.record_stream.specs.Plain as plain;

use crate::cutter::{Cut, Cutter};
use crate::ends::{body_of, feed_from};
use crate::player::{Player, Stop};
use csv::{ByteRecord, ReaderBuilder};
use std::alloc::{AllocError, Global};

/// The fields of a record that a reader read.
fn lend(alloc: Global, row: &ByteRecord) -> Result<Vec<&[u8]>, AllocError>
    ensures { IfOk result (λ fields. spec.record_of fields.items ≡ fields_of row.now) }
{
    let mut fields = Vec::new(alloc);
    for field in row {
        fields.push(field)?;
    }
    Ok(fields)
}

/// Plays a record that a reader read, and appends its lines.
fn play_row<P: Player>(
    alloc: Global,
    player: &mut P,
    row: &ByteRecord,
    lines: &mut Vec<u8>,
) -> Result<(), Stop<P::Reason>>
    requires count { P.count player.old < 2 ^ 62 }
    requires live { P.live player.old }
    ensures plays { PlaysTo P.gains P.takes P.course P.step player.old (fields_of row.now ∷ []) player.new lines.old.items lines.new.items result }
    ensures counted { OnOk result (P.count player.new ≡ P.count player.old + 1) }
    ensures own_cause { HasCauseAt Stop.Failed (P.own_faults player.old) (P.own_faults player.new) result }
    ensures live { OnOk result (P.live player.new) }
{
    let Ok(fields) = lend(alloc, row) else {
        return Err(Stop::Memory);
    };
    player.play(fields.as_slice(), lines)
}

/// Plays the records that a fresh reader reads of a line.
fn read_line<P: Player>(
    alloc: Global,
    player: &mut P,
    line: &[u8],
    lines: &mut Vec<u8>,
) -> Result<(), Stop<P::Reason>>
    requires count { P.count player.old + length line.now + 1 < 2 ^ 62 }
    requires live { P.live player.old }
    ensures plays { PlaysTo P.gains P.takes P.course P.step player.old (spec.line_records line.now) player.new lines.old.items lines.new.items result }
    ensures counted { OnOk result (P.count player.new ≤ P.count player.old + length line.now + 1) }
    ensures own_cause { HasCauseAt Stop.Failed (P.own_faults player.old) (P.own_faults player.new) result }
    ensures live { OnOk result (P.live player.new) }
{
    let reader = ReaderBuilder::new()
        .has_headers(false)
        .flexible(true)
        .from_reader(alloc, line);
    for row in reader.into_byte_records() {
        let Ok(row) = row else {
            return Err(Stop::Memory);
        };
        play_row(alloc, player, &row, lines)?;
    }
    Ok(())
}

/// Plays the record of a plain line that was cut at its commas, if it is not empty.
fn play_cut<P: Player>(
    player: &mut P,
    body: &[u8],
    fields: &[&[u8]],
    lines: &mut Vec<u8>,
) -> Result<(), Stop<P::Reason>>
    requires count { P.count player.old < 2 ^ 62 }
    requires live { P.live player.old }
    requires cut { spec.record_of fields.now ≡ plain.cells [] body.now }
    ensures plays { PlaysTo P.gains P.takes P.course P.step player.old (plain.plain_records body.now) player.new lines.old.items lines.new.items result }
    ensures counted { OnOk result (P.count player.new ≤ P.count player.old + 1) }
    ensures own_cause { HasCauseAt Stop.Failed (P.own_faults player.old) (P.own_faults player.new) result }
    ensures live { OnOk result (P.live player.new) }
{
    if body.is_empty() {
        return Ok(());
    }
    player.play(fields, lines)
}

/// Plays the records of a line. One whose bytes mean nothing else to a reader than themselves and commas is cut, which
/// costs far less than a reader. Its fields are put where those of the line before it stood.
fn play_line<'p, P: Player>(
    alloc: Global,
    player: &mut P,
    fields: &mut Vec<&'p [u8]>,
    line: &'p [u8],
    lines: &mut Vec<u8>,
) -> Result<(), Stop<P::Reason>>
    requires count { P.count player.old + length line.now + 1 < 2 ^ 62 }
    requires live { P.live player.old }
    ensures plays { PlaysTo P.gains P.takes P.course P.step player.old (spec.line_records line.now) player.new lines.old.items lines.new.items result }
    ensures counted { OnOk result (P.count player.new ≤ P.count player.old + length line.now + 1) }
    ensures own_cause { HasCauseAt Stop.Failed (P.own_faults player.old) (P.own_faults player.new) result }
    ensures live { OnOk result (P.live player.new) }
{
    let body = body_of(line);
    match Cutter::new(body, 0).cut_line(fields) {
        Ok(Cut::Partial) => play_cut(player, body, fields.as_slice(), lines),
        Ok(_) => read_line(alloc, player, line, lines),
        Err(AllocError) => Err(Stop::Memory),
    }
}

/// Plays the records of one line alone.
pub fn play_alone<P: Player>(
    alloc: Global,
    player: &mut P,
    line: &[u8],
    lines: &mut Vec<u8>,
) -> Result<(), Stop<P::Reason>>
    requires count { P.count player.old + length line.now + 1 < 2 ^ 62 }
    requires live { P.live player.old }
    ensures plays { PlaysTo P.gains P.takes P.course P.step player.old (spec.line_records line.now) player.new lines.old.items lines.new.items result }
    ensures counted { OnOk result (P.count player.new ≤ P.count player.old + length line.now + 1) }
    ensures own_cause { HasCauseAt Stop.Failed (P.own_faults player.old) (P.own_faults player.new) result }
    ensures live { OnOk result (P.live player.new) }
{
    let mut fields = Vec::new(alloc);
    play_line(alloc, player, &mut fields, line, lines)
}

/// Plays the whole lines of a piece, which is walked once, and answers where the rest begins.
fn play_whole<P: Player>(
    alloc: Global,
    player: &mut P,
    piece: &[u8],
    lines: &mut Vec<u8>,
) -> Result<usize, Stop<P::Reason>>
    requires count { P.count player.old + 2 * length piece.now < 2 ^ 61 }
    requires live { P.live player.old }
    ensures plays { PlaysTo P.gains P.takes P.course P.step player.old (spec.whole_records piece.now) player.new lines.old.items lines.new.items result }
    ensures rest { IfOk result (λ at. drop at piece.now ≡ spec.last_part [] piece.now) }
    ensures within { IfOk result (λ at. at ≤ length piece.now) }
    ensures counted { IfOk result (λ at. P.count player.new ≤ P.count player.old + 2 * at) }
    ensures own_cause { HasCauseAt Stop.Failed (P.own_faults player.old) (P.own_faults player.new) result }
    ensures live { OnOk result (P.live player.new) }
{
    let mut fields = Vec::new(alloc);
    let mut cutter = Cutter::new(piece, 0);
    loop {
        let start = cutter.from;
        let Ok(cut) = cutter.cut_line(&mut fields) else {
            return Err(Stop::Memory);
        };
        match cut {
            Cut::Whole(end) => play_cut(player, &piece[start..end], fields.as_slice(), lines)?,
            Cut::Partial => return Ok(start),
            Cut::Marked => {
                let Some(end) = feed_from(piece, start) else {
                    return Ok(start);
                };
                play_line(alloc, player, &mut fields, &piece[start..=end], lines)?;
                cutter = Cutter::new(piece, end + 1);
            }
        }
    }
}

/// Takes a piece at whose start no line has begun, plays its whole lines, and keeps the rest in `pending`.
fn play_piece<P: Player>(
    alloc: Global,
    player: &mut P,
    pending: &mut Vec<u8>,
    piece: &[u8],
    lines: &mut Vec<u8>,
) -> Result<(), Stop<P::Reason>>
    requires count { P.count player.old + 2 * length piece.now < 2 ^ 61 }
    requires live { P.live player.old }
    requires none { pending.old.items ≡ [] }
    ensures plays { PlaysTo P.gains P.takes P.course P.step player.old (spec.whole_records piece.now) player.new lines.old.items lines.new.items result }
    ensures rest { OnOk result (pending.new.items ≡ spec.last_part [] piece.now) }
    ensures counted { OnOk result (P.count player.new + 2 * length pending.new.items ≤ P.count player.old + 2 * length piece.now) }
    ensures own_cause { HasCauseAt Stop.Failed (P.own_faults player.old) (P.own_faults player.new) result }
    ensures live { OnOk result (P.live player.new) }
{
    let start = play_whole(alloc, player, piece, lines)?;
    let Ok(()) = pending.extend_from_slice(&piece[start..]) else {
        return Err(Stop::Memory);
    };
    Ok(())
}

/// Plays the line that has begun and ends with these bytes.
fn end_line<P: Player>(
    alloc: Global,
    player: &mut P,
    pending: &mut Vec<u8>,
    end: &[u8],
    lines: &mut Vec<u8>,
) -> Result<(), Stop<P::Reason>>
    requires count { P.count player.old + length pending.old.items + length end.now + 1 < 2 ^ 62 }
    requires live { P.live player.old }
    ensures plays { PlaysTo P.gains P.takes P.course P.step player.old (spec.line_records (pending.old.items ++ end.now)) player.new lines.old.items lines.new.items result }
    ensures rest { OnOk result (pending.new.items ≡ []) }
    ensures counted { OnOk result (P.count player.new ≤ P.count player.old + length pending.old.items + length end.now + 1) }
    ensures own_cause { HasCauseAt Stop.Failed (P.own_faults player.old) (P.own_faults player.new) result }
    ensures live { OnOk result (P.live player.new) }
{
    let Ok(()) = pending.extend_from_slice(end) else {
        return Err(Stop::Memory);
    };
    play_alone(alloc, player, pending.as_slice(), lines)?;
    pending.clear();
    Ok(())
}

/// Takes a piece, plays each line that is whole now, and keeps the rest in `pending`.
pub fn take_piece<P: Player>(
    alloc: Global,
    player: &mut P,
    pending: &mut Vec<u8>,
    piece: &[u8],
    lines: &mut Vec<u8>,
) -> Result<(), Stop<P::Reason>>
    requires count { P.count player.old + 2 * (length pending.old.items + length piece.now) < 2 ^ 61 }
    requires live { P.live player.old }
    ensures plays { PlaysTo P.gains P.takes P.course P.step player.old (spec.records_after pending.old.items piece.now) player.new lines.old.items lines.new.items result }
    ensures rest { OnOk result (pending.new.items ≡ spec.last_part pending.old.items piece.now) }
    ensures counted { OnOk result (P.count player.new + 2 * length pending.new.items ≤ P.count player.old + 2 * (length pending.old.items + length piece.now)) }
    ensures own_cause { HasCauseAt Stop.Failed (P.own_faults player.old) (P.own_faults player.new) result }
    ensures live { OnOk result (P.live player.new) }
{
    if pending.is_empty() {
        return play_piece(alloc, player, pending, piece, lines);
    }
    match feed_from(piece, 0) {
        Some(end) => {
            end_line(alloc, player, pending, &piece[..=end], lines)?;
            play_piece(alloc, player, pending, &piece[end + 1..], lines)
        }
        None => match pending.extend_from_slice(piece) {
            Ok(()) => Ok(()),
            Err(AllocError) => Err(Stop::Memory),
        },
    }
}
