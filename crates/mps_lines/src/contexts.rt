//! How a line is to be read, by the lines before it.
ghost use Rattle.std.specs.Prelude.{◌≡◌, []};
ghost use Rattle.std.specs.Option.{option_map};
ghost use Rattle.mps_lines.specs.Contexts.{context_of, first_or, is_used};
ghost use Rattle.mps_lines.specs.Said.{context_shown};

use crate::sections::Section;

/// How the next line is to be read: the section in which it stands, whether columns that are new in it are whole, and
/// for the sections with sets the first set that was named.
#[derive(Clone, Copy)]
pub struct Context<'a> {
    pub section: Section,
    pub marked: bool,
    pub sides: Option<&'a [u8]>,
    pub ranges: Option<&'a [u8]>,
    pub bounds: Option<&'a [u8]>,
}

impl<'a> Context<'a> {
    /// That of the first line.
    pub fn start() -> Context<'a>
        ensures { context_shown result ≡ context_of [] }
    {
        Context {
            section: Section::Start,
            marked: false,
            sides: None,
            ranges: None,
            bounds: None,
        }
    }
}

/// The first set, where a line names one more.
pub(crate) fn first_set<'a>(first: Option<&'a [u8]>, next: Option<&'a [u8]>) -> Option<&'a [u8]>
    ensures { option_map (λ s. s.now) result ≡ first_or (option_map (λ s. s.now) first.entry) (option_map (λ s. s.now) next.entry) }
{
    match first {
        Some(_) => first,
        None => next,
    }
}

/// Whether a line of a set is used.
pub(crate) fn is_set_used(first: Option<&[u8]>, set: Option<&[u8]>) -> bool
    ensures { result ≡ is_used (option_map (λ s. s.now) first.entry) (option_map (λ s. s.now) set.entry) }
{
    let Some(name) = set else {
        return true;
    };
    let Some(used) = first else {
        return true;
    };
    used == name
}
