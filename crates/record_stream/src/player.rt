//! What plays records.
ghost use Rattle.std.specs.Prelude.{◌≡◌, ◌∷◌, ◌+◌, ◌<◌, ◌≤◌, ◌^◌, ℕ, Bool, List, [], true, false, None, OnOk};
ghost use Rattle.byte_streams.specs.Causes.{HasCauseAt};
ghost use Rattle.record_stream.specs.Course.{Adds, Closes, Course, IsHistory, Outlook, PlaysTo};
ghost use Rattle.record_cutting.specs.Lines.{Record, record_of};
ghost use Rattle.record_stream.specs.declared.player.Stop.TheVariants as stop;

use std::alloc::AllocError;
use svr_base::Memory;

/// Why playing ended before the records did.
#[derive(Clone, Copy, Debug, PartialEq, Eq)]
pub enum Stop<R> {
    /// Memory ran out.
    Memory,
    /// A record stops the player for this reason, and what is to be said of it was appended.
    Stopped(R),
    /// What the player asked for itself failed.
    Failed,
}

impl<R> From<AllocError> for Stop<R> {
    ghost from_gives = { λ _ s. s ≡ stop.Memory };

    fn from(_error: AllocError) -> Stop<R> {
        Stop::Memory
    }
}

impl<R> From<Memory> for Stop<R> {
    ghost from_gives = { λ _ s. s ≡ stop.Memory };

    fn from(_error: Memory) -> Stop<R> {
        Stop::Memory
    }
}

/// A state that plays records. It appends what they say to lines, which are written for it.
///
/// After an error it is not asked again. What stands then is what it appended and what it was answered.
pub trait Player {
    /// Why a record stops it.
    type Reason: Drop;

    // What it is answered where it asks for something itself.
    ghost Given: { Type 0 };

    // The ways that it may take from some state on.
    ghost Way: { Type 0 };

    // What it writes on each, whatever records follow of which its course holds.
    ghost course: { Way → Course Self.Reason };

    // The way that goes on after a record.
    ghost step: { Way → Record → Way };

    // Which of them it may take from here on, by what it is then answered.
    ghost takes: { Self → Outlook Way Given };

    // What it was answered between two states.
    ghost gains: { Self → Self → List Given → Type 0 };

    // That it may be asked: it has not answered an error yet.
    ghost live: { Self → Type 0 };

    /// How many faults there were in what it asked for itself.
    ghost own_faults: { Self → ℕ };

    /// How many records it has played.
    ghost count: { Self → ℕ };

    /// Plays the record of these fields and appends what it says.
    ///
    /// Where memory ran out, only some first bytes of that were appended; after any other error all of it was.
    fn play(&mut self, fields: &[&[u8]], lines: &mut Vec<u8>) -> Result<(), Stop<Self::Reason>>
        requires live { live self.old }
        requires count { count self.old < 2 ^ 62 }
        ensures plays { PlaysTo gains takes course step self.old (record_of fields.now ∷ []) self.new lines.old.items lines.new.items result }
        ensures counted { OnOk result (count self.new ≡ count self.old + 1) }
        ensures own_cause { HasCauseAt Stop.Failed (own_faults self.old) (own_faults self.new) result }
        ensures live { OnOk result (live self.new) };

    /// Appends the closing lines, after the last record. After an error some first bytes of them were appended.
    fn close(&mut self, lines: &mut Vec<u8>) -> Result<(), Memory>
        requires live { live self.old }
        ensures adds { (text : List ℕ) × Closes gains takes course step self.old text × Adds text lines.old.items lines.new.items result }
        ensures gained { gains self.old self.new [] }
        ensures stays { OnOk result ((w : Way) → takes self.old false [] w → takes self.new false [] w) }
        ensures own_cause { own_faults self.old ≤ own_faults self.new };

    /// No records and no closing lines: nothing is written.
    ghost nothing: { (p : Self) (fails : Bool) (given : List Given) (w : Way) → takes p fails given w → (course w).text false [] ≡ [] };

    /// No records: none of them stops it.
    ghost unstopped: { (p : Self) (fails : Bool) (given : List Given) (w : Way) → takes p fails given w → (course w).reason [] ≡ None };

    /// No records and no answers: all are asked for.
    ghost spent: { (p : Self) (w : Way) → takes p false [] w → (course w).holds [] → (course w).takes_all [] ≡ true };

    /// What it was answered makes one history.
    ghost history: { IsHistory gains };
}
