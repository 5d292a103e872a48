//! What a client of a crew can conclude, which works by handles as a runtime in C does. Its calls meet what they ask, a
//! mutator of another crew is refused, and where each call is done, what comes out follows from some lawful cycle. It
//! does not say what that cycle wrote: this client writes nothing, and no clause ties the cycle to it. A client whose
//! writes are found again is in proved_clients.
#![tactic(auto)]

mod calls;
mod lives;
mod mixed;
#[cfg(test)]
mod worked;
