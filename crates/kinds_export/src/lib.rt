//! The closing and the calls of both kinds of clock sets, for foreign code to link. An export asks nothing of its caller: where a
//! proved call has a condition, the export tests it and says so in its answer. Each call stands once for each kind, since C code links
//! no generic function.

#![tactic(auto)]

mod answer;
mod closing;
mod orders;
mod zones;
