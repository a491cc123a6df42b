//! What is written is read again.

ghost use Rattle.std.specs.Prelude.{ℕ};
ghost use Rattle.values.specs.declared.batch.Batch.{Batch};
ghost use Rattle.host_msgs.specs.Again.{IsInGrammar, IsReadAgain};
ghost use Rattle.host_msgs.specs.Batches.{batch_in};
ghost use Rattle.host_msgs.specs.Contents.{batch_bytes};
ghost use Rattle.host_msgs.specs.Grammar.{ItemsAreReadAgain};
ghost use Rattle.host_msgs.specs.Needs.{AreShort};

use client_msgs::responses_are_read_again;

/// Each item of the grammar is read again from the content that is written of it.
pub fn items_are_read_again()
    ensures { ItemsAreReadAgain }
{
    responses_are_read_again();
}

/// A batch whose items are those of the grammar, and short enough for their lengths, is read again, whole, from the bytes
/// that are written of it.
pub fn batches_are_read_again()
    ensures { (me : ℕ) (batch : Batch) → IsInGrammar me batch → AreShort me batch → IsReadAgain me batch (batch_in (batch_bytes me batch)) }
{
    items_are_read_again();
}
