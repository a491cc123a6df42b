//! A group of replicas over a network that loses, repeats and reorders, and what holds of every run. Definitions alone.
#![tactic(auto)]
