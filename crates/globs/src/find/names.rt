//! Names in a directory of the disk, for lines about words. No clause speaks of them.
use crate::find::places::{Place, Places};
use crate::foreign::near::is_near;
use glob_tree::{Entry, Tree};
use std::alloc::Allocator;

/// Which names are looked for.
#[derive(Clone, Copy)]
pub enum Wanted<'a> {
    /// Those that begin with this text.
    Beginning(&'a str),
    /// Those that differ from this text only in the case of ASCII letters.
    AnyCase(&'a str),
    /// Those that differ from this text by one byte, or by the order of two neighbours.
    Near(&'a str),
}

impl Wanted<'_> {
    /// Whether a name is looked for.
    fn is(self, name: &str) -> bool {
        match self {
            Wanted::Beginning(start) => name.starts_with(start),
            Wanted::AnyCase(text) => name.eq_ignore_ascii_case(text),
            Wanted::Near(text) => is_near(name.as_bytes(), text.as_bytes()),
        }
    }
}

/// Of the names in this directory that fit, the first in byte order.
pub fn least_name<P: Places>(
    alloc: P::Alloc,
    places: &P,
    path: &str,
    wanted: Wanted<'_>,
) -> Option<String<P::Alloc>> {
    let place = Place {
        path,
        lead: "",
        follows: false,
        is_utf8_only: true,
        rules: "",
    };
    let mut tree = places.tree(place).ok()?;
    let entries = tree.list_names(".").ok()?;
    let mut least: Option<usize> = None;
    for (number, entry) in entries.iter().enumerate() {
        let name = entry.name.as_str();
        if wanted.is(name) && is_before(name, entries.as_slice(), least) {
            least = Some(number);
        }
    }
    let entry = entries.get(least?)?;
    String::from_str(alloc, entry.name.as_str()).ok()
}

/// Whether a name comes before that of this entry; true if there is no entry yet.
fn is_before<A: Allocator>(name: &str, entries: &[Entry<A>], number: Option<usize>) -> bool {
    match number {
        Some(number) => entries
            .get(number)
            .is_some_and(|entry| name < entry.name.as_str()),
        None => true,
    }
}
