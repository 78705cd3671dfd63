// The modulo 16 flow window (document 01, "The two counters"): its sending end and its receiving
// end. specs/History.antt states what holds over any history of calls at one end, and
// specs/BothEnds.antt what holds of both ends together.
#![tactic(auto)]

pub mod receiver;
pub mod sender;
