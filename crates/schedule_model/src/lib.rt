//! The records of a schedule, the lines of a trace, and the core of a client. Definitions alone.
#![tactic(auto)]
