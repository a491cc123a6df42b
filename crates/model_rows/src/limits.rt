//! The numbers that definitions cite, each with its literal.

ghost use Rattle.std.specs.Prelude.{◌≡◌, ◌^◌};
ghost use Rattle.group_quorum.specs.declared.TheConstants.{MAX_ID, MAX_MARGIN, MAX_VOTERS};
ghost use Rattle.values.specs.declared.limits.TheConstants.{MAX_ANSWERS, MAX_BATCH, MAX_CLIENTS, MAX_CONTENT, MAX_ENTRIES, MAX_EVENTS, MAX_FRAMES, MAX_MESSAGES, MAX_PARTS, MAX_REPLICAS, MAX_REQUEST, MAX_SETTLED, MAX_SOURCE, MAX_STATES, MOST_ROWS, ROWS_PER_PART, TOP};
ghost use Rattle.record_rules.specs.declared.status.TheConstants.{ERROR, MISSING, OK, PIN_MISMATCH};
ghost use Rattle.replica_model.specs.declared.TheConstants.{KEPT_BELOW, MAX_LEARNERS, MAX_OPEN};
ghost use Rattle.trace_model.specs.Driver.{max_turns};
ghost use Rattle.trace_model.specs.TraceLines.{max_line};

/// Which replicas there may be, and how many vote.
pub fn group_limits()
    ensures ids { MAX_ID ≡ 65535 }
    ensures voters { MAX_VOTERS ≡ 31 }
    ensures margin { MAX_MARGIN ≡ 15 }
    ensures learners { MAX_LEARNERS ≡ 31 }
{}

/// What a log, an append and a table hold.
pub fn replica_limits()
    ensures top { TOP ≡ 2 ^ 62 }
    ensures busy { MAX_OPEN ≡ 1024 }
    ensures kept { KEPT_BELOW ≡ 4096 }
    ensures entries { MAX_ENTRIES ≡ 16 }
    ensures rows { MOST_ROWS ≡ 20000 }
    ensures part { ROWS_PER_PART ≡ 32 }
    ensures parts { MAX_PARTS ≡ 625 }
{}

/// What the table says of a request.
pub fn statuses()
    ensures ok { OK ≡ 1 }
    ensures missing { MISSING ≡ 2 }
    ensures mismatch { PIN_MISMATCH ≡ 3 }
    ensures error { ERROR ≡ 2 }
{}

/// What a run may have.
pub fn run_limits()
    ensures events { MAX_EVENTS ≡ 1000000 }
    ensures messages { MAX_MESSAGES ≡ 200000 }
    ensures answers { MAX_ANSWERS ≡ 1000000 }
    ensures replicas { MAX_REPLICAS ≡ 64 }
    ensures states { MAX_STATES ≡ 64 }
    ensures clients { MAX_CLIENTS ≡ 20000 }
    ensures turns { max_turns ≡ 16 }
{}

/// How long what is read may be.
pub fn size_limits()
    ensures source { MAX_SOURCE ≡ 67108864 }
    ensures request { MAX_REQUEST ≡ 65536 }
    ensures settled { MAX_SETTLED ≡ 1000000 }
    ensures content { MAX_CONTENT ≡ 1048576 }
    ensures batch { MAX_BATCH ≡ 67108864 }
    ensures frames { MAX_FRAMES ≡ 10000000 }
    ensures line { max_line ≡ 68000000 }
{}
