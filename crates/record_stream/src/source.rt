//! The source is read in pieces, and each is played before the next is read.
ghost use Rattle.std.specs.Prelude.{◌≡◌, ◌≢◌, ◌+◌, ◌<◌, ◌≤◌, ◌^◌, ℕ, List, [], length, IfSome, OnOk};
ghost use Rattle.std.specs.Io.KnownBytes.{Appends, Consumes};
ghost use Rattle.byte_streams.specs.Causes.{HasCauseAt, Rose};
ghost use Rattle.record_stream.specs.Course.{PlaysTo};
ghost use Rattle.record_cutting.specs.Lines.{last_records};
ghost use Rattle.record_stream.specs.Ends.{PlayedOver};
ghost use Rattle.record_stream.specs.Steps as spec;

use crate::lines::{play_alone, take_piece};
use crate::player::{Player, Stop};
use byte_streams::PIECE;
use std::alloc::Global;
use svr_base::{MAX_SOURCE, Sink, Source, write_all};

/// How the playing of a source ended.
#[derive(Clone, Copy, Debug, PartialEq, Eq)]
pub enum Ended<R> {
    /// The source was read to its end, and everything was written.
    Done,
    /// A record stopped the player for this reason.
    Stopped(R),
    /// Memory ran out.
    Memory,
    /// The source failed.
    ReadFault,
    /// The sink failed.
    WriteFault,
    /// The source holds more than [`MAX_SOURCE`] bytes.
    Limit,
    /// What the player asked for itself failed.
    Failed,
}

/// What a player's stop makes of the whole.
fn ended_by<R>(stop: Stop<R>) -> Ended<R>
    ensures { result ≡ spec.ended_by stop }
{
    match stop {
        Stop::Memory => Ended::Memory,
        Stop::Stopped(why) => Ended::Stopped(why),
        Stop::Failed => Ended::Failed,
    }
}

/// Plays what follows the last line feed, which is a line where it is not empty.
fn play_last<P: Player>(
    alloc: Global,
    player: &mut P,
    rest: &[u8],
    lines: &mut Vec<u8>,
) -> Result<(), Stop<P::Reason>>
    requires count { P.count player.old + length rest.now + 1 < 2 ^ 62 }
    requires live { P.live player.old }
    ensures plays { PlaysTo P.gains P.takes P.course P.step player.old (last_records rest.now) player.new lines.old.items lines.new.items result }
    ensures own_cause { HasCauseAt Stop.Failed (P.own_faults player.old) (P.own_faults player.new) result }
    ensures live { OnOk result (P.live player.new) }
{
    if rest.is_empty() {
        return Ok(());
    }
    play_alone(alloc, player, rest, lines)
}

/// Gathers what follows the last line feed says, and the closing lines.
fn last_lines<P: Player>(
    alloc: Global,
    player: &mut P,
    rest: &[u8],
    lines: &mut Vec<u8>,
) -> Result<(), Stop<P::Reason>>
    requires count { P.count player.old + length rest.now + 1 < 2 ^ 62 }
    requires live { P.live player.old }
    requires none { lines.old.items ≡ [] }
    ensures last { spec.LastFrom P.gains P.takes P.course P.step player.old (last_records rest.now) player.new lines.new.items result }
    ensures own_cause { HasCauseAt Stop.Failed (P.own_faults player.old) (P.own_faults player.new) result }
{
    play_last(alloc, player, rest, lines)?;
    player.close(lines)?;
    Ok(())
}

/// Plays what follows the last line feed, and writes its lines and the closing ones, however they end.
fn finish<P: Player, K: Sink>(
    alloc: Global,
    player: &mut P,
    rest: &[u8],
    lines: &mut Vec<u8>,
    sink: &mut K,
) -> Ended<P::Reason>
    requires count { P.count player.old + length rest.now + 1 < 2 ^ 62 }
    requires live { P.live player.old }
    requires none { lines.old.items ≡ [] }
    ensures ends { spec.FinishesFrom P.gains P.takes P.course P.step player.old (last_records rest.now) player.new (K.taken sink.old) (K.taken sink.new) result }
    ensures gathered { result ≢ Ended.WriteFault → Appends (K.taken sink.old) (K.taken sink.new) lines.new.items }
    ensures own_later { P.own_faults player.old ≤ P.own_faults player.new }
    ensures own_cause { result ≡ Ended.Failed → Rose (P.own_faults player.old) (P.own_faults player.new) }
    ensures later { K.faults sink.old ≤ K.faults sink.new }
    ensures cause { result ≡ Ended.WriteFault → Rose (K.faults sink.old) (K.faults sink.new) }
{
    let played = last_lines(alloc, player, rest, lines);
    let Ok(()) = write_all(sink, lines.as_slice()) else {
        return Ended::WriteFault;
    };
    match played {
        Ok(()) => Ended::Done,
        Err(stop) => ended_by(stop),
    }
}

/// Plays all that the source holds, piece by piece. The room of the lines is kept from piece to piece.
fn play_pieces<P: Player, S: Source, K: Sink>(
    alloc: Global,
    player: &mut P,
    source: &mut S,
    sink: &mut K,
) -> Ended<P::Reason>
    requires count { P.count player.old ≡ 0 }
    requires live { P.live player.old }
    ensures ends { (read : List ℕ) × Consumes (S.left source.old) (S.left source.new) read
        × spec.EndsFrom P.gains P.takes P.course P.step player.old player.new read (S.left source.new) (K.taken sink.old) (K.taken sink.new) result }
    ensures own_later { P.own_faults player.old ≤ P.own_faults player.new }
    ensures own_cause { result ≡ Ended.Failed → Rose (P.own_faults player.old) (P.own_faults player.new) }
    ensures read_later { S.faults source.old ≤ S.faults source.new }
    ensures write_later { K.faults sink.old ≤ K.faults sink.new }
    ensures read_cause { result ≡ Ended.ReadFault → Rose (S.faults source.old) (S.faults source.new) }
    ensures write_cause { result ≡ Ended.WriteFault → Rose (K.faults sink.old) (K.faults sink.new) }
{
    let Ok(mut buffer) = vec![in alloc; 0u8; PIECE] else {
        return Ended::Memory;
    };
    let mut pending = Vec::new(alloc);
    let mut lines = Vec::new(alloc);
    let mut room = MAX_SOURCE;
    loop {
        let Ok(count) = source.read(buffer.as_mut_slice()) else {
            return Ended::ReadFault;
        };
        lines.clear();
        if count == 0 {
            return finish(alloc, player, pending.as_slice(), &mut lines, sink);
        }
        let piece = &buffer[..count.min(room)];
        let played = take_piece(alloc, player, &mut pending, piece, &mut lines);
        let Ok(()) = write_all(sink, lines.as_slice()) else {
            return Ended::WriteFault;
        };
        if let Err(stop) = played {
            return ended_by(stop);
        }
        if count > room {
            return Ended::Limit;
        }
        room -= count;
    }
}

/// Plays all that the source holds: the records of each whole line before the source is read again, and then what
/// follows the last line feed and the closing lines. The lines of all records that one read ends are written
/// together before the next read, and before the end, however it comes.
///
/// Reads at most 65,536 bytes at once and plays at most 67,108,864. Want of memory is the one free end.
pub fn play_source<P: Player, S: Source, K: Sink>(
    alloc: Global,
    player: &mut P,
    source: &mut S,
    sink: &mut K,
) -> Ended<P::Reason>
    requires count { P.count player.old ≡ 0 }
    requires live { P.live player.old }

    // How it ended over a source that tells.
    ensures ends { IfSome (S.left source.old) (λ all.
        PlayedOver P.gains P.takes P.course P.step player.old player.new all (S.left source.new) (K.taken sink.old) (K.taken sink.new) result) }

    // A fault has its cause, and no count falls.
    ensures read_cause { result ≡ Ended.ReadFault → Rose (S.faults source.old) (S.faults source.new) }
    ensures write_cause { result ≡ Ended.WriteFault → Rose (K.faults sink.old) (K.faults sink.new) }
    ensures read_later { S.faults source.old ≤ S.faults source.new }
    ensures write_later { K.faults sink.old ≤ K.faults sink.new }
    ensures own_later { P.own_faults player.old ≤ P.own_faults player.new }
    ensures own_cause { result ≡ Ended.Failed → Rose (P.own_faults player.old) (P.own_faults player.new) }
{
    play_pieces(alloc, player, source, sink)
}
