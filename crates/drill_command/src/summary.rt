//! The lines of a summary.
ghost use Rattle.std.specs.Prelude.{◌≡◌, ◌++◌, ◌∷◌, [], map, codes, decimal, IfOk, OnOk, OnErr};
ghost use Rattle.schedule_model.specs.Lines as spec;
ghost use Rattle.trace_model.specs.Summary.{number_line};
ghost use Rattle.drill_command.specs.Tallies.{named_line, tally_lines};

use crate::tally::Tally;
use schedule_text::{lines_are_joined, push_field, push_hex, push_number};
use std::alloc::Global;
use values::Memory;

/// Appends the lines of what the drill of this seed and number of clients came to. After `Memory` the text is as before.
pub fn write_summary(
    tally: &Tally,
    seed: u64,
    clients: u32,
    out: &mut Vec<u8>,
) -> Result<(), Memory>
    ensures ok { OnOk result (out.new.items ≡ out.old.items ++ spec.lines_text (tally_lines seed clients tally.now)) }
    ensures err { OnErr result (out.new.items ≡ out.old.items) }
{
    let text = summary_text(*out.allocator(), tally, seed, clients)?;
    out.extend_from_slice(text.as_slice())?;
    Ok(())
}

fn summary_text(alloc: Global, tally: &Tally, seed: u64, clients: u32) -> Result<Vec<u8>, Memory>
    ensures { IfOk result (λ text. text.items ≡ spec.lines_text (tally_lines seed clients tally.now)) }
{
    let numbers = [
        ("events", tally.events),
        ("messages", tally.messages),
        ("answers", tally.answers),
        ("stored", tally.stored),
        ("recovered", tally.recovered),
        ("wrongpin", tally.wrongpin),
        ("deleted", tally.deleted),
        ("halts", tally.halts),
        ("log", tally.log),
    ];
    let mut text = Vec::new(alloc);
    push_drill(&mut text, seed, clients)?;
    push_numbers(&mut text, &numbers)?;
    push_bound(&mut text, tally.within)?;
    push_trace(&mut text, &tally.trace.0)?;
    Ok(text)
}

/// Appends a number behind a comma.
fn push_behind(text: &mut Vec<u8>, number: u64) -> Result<(), Memory>
    ensures { OnOk result (text.new.items ≡ text.old.items ++ 44 ∷ decimal number) }
{
    text.push(b',')?;
    push_number(text, number)?;
    Ok(())
}

/// Appends the line that names the drill.
fn push_drill(text: &mut Vec<u8>, seed: u64, clients: u32) -> Result<(), Memory>
    ensures { OnOk result (text.new.items ≡ text.old.items ++ spec.line_text (codes "drill" ∷ decimal seed ∷ decimal clients ∷ [])) }
{
    lines_are_joined();
    text.extend_from_slice(b"drill")?;
    push_behind(text, seed)?;
    push_behind(text, u64::from(clients))?;
    text.push(b'\n')?;
    Ok(())
}

/// Appends a line for each word and number.
fn push_numbers(text: &mut Vec<u8>, numbers: &[(&str, u64)]) -> Result<(), Memory>
    ensures { OnOk result (text.new.items ≡ text.old.items ++ spec.lines_text (map named_line numbers.now)) }
{
    for (word, number) in numbers {
        push_number_line(text, word, *number)?;
    }
    Ok(())
}

/// Appends the line of a word and a number.
fn push_number_line(text: &mut Vec<u8>, word: &str, number: u64) -> Result<(), Memory>
    ensures { OnOk result (text.new.items ≡ text.old.items ++ spec.line_text (number_line word.now number)) }
{
    lines_are_joined();
    text.extend_from_slice(word.as_bytes())?;
    push_behind(text, number)?;
    text.push(b'\n')?;
    Ok(())
}

/// Appends whether the bound on rollbacks was kept, as a line.
fn push_bound(text: &mut Vec<u8>, within: bool) -> Result<(), Memory>
    ensures { OnOk result (text.new.items ≡ text.old.items ++ spec.line_text (codes "rollbacks" ∷ spec.bound_word within ∷ [])) }
{
    lines_are_joined();
    text.extend_from_slice(b"rollbacks")?;
    push_field(text, if within { b"within" } else { b"exceeded" })?;
    text.push(b'\n')?;
    Ok(())
}

/// Appends the line of the hash of the trace.
fn push_trace(text: &mut Vec<u8>, hash: &[u8]) -> Result<(), Memory>
    ensures { OnOk result (text.new.items ≡ text.old.items ++ spec.line_text (codes "trace" ∷ spec.hex hash.now ∷ [])) }
{
    lines_are_joined();
    text.extend_from_slice(b"trace")?;
    push_hex(text, hash)?;
    text.push(b'\n')?;
    Ok(())
}
