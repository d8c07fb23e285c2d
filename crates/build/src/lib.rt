// The core of both builds: tokens entered in lent columns, their children linked in lent work places, laid out as trie parts.
#![tactic(auto)]

pub mod checked;
mod lay;
mod links;
pub mod steps;
pub mod tokens;
mod vocabulary;
pub mod zero;
