//! Definitions about texts that the other crates share: characters, places, and the pieces between separators.
#![tactic(auto)]
