//! How bytes are cut into lines, and lines into records. Definitions alone.
#![tactic(auto)]
