// The clocked machine: the scalars of its record in code, and its definitions.
// Paper: "Clock by clock", the record, its phases, the clock, the run; "Where calls are turned down".
// `record`: the scalars. specs/ defines what they mean; read specs/Clock.antt first.
#![tactic(auto)]

pub mod record;
