//! Tests for what no table covers: walks over a folder that is removed meanwhile, printed texts, and the callers that
//! the pages quote.
mod disk_walks;
mod examples;
mod printing;
mod readme;
