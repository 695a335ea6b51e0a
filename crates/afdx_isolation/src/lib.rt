//! Isolation and bounds at one output port: what leaves for a virtual link, and when, whatever the other links send.
//!
//! If the links that lead to a port ask no more of it than it can give, no copy is refused by its buffer, none is discarded for
//! its age, each has left within the port's bound for its priority, and what leaves for a link is what the link's policing
//! passes of its own frames. The module `laws` says so, over the definitions of the accounts and of the port; nothing here
//! runs. Policing is by any terms whose prices pay for line time: no account is named.
#![tactic(auto)]

pub mod laws;
