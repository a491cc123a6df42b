//! The text of a schedule of requests to one record table. Definitions alone.
#![tactic(auto)]
