//! Sets of bits in words, and sets of members, beside the places that are to be in them.
ghost use Rattle.std.specs.Prelude.{◌≡◌, ◌<◌, ◌^◌, IfOk, length};
ghost use Rattle.std.specs.Int.{div_ceil};
ghost use Rattle.certs.specs.Checks.{IsSetOf};

use lane_scan::{count, first_bit, has_bit, meets, put_bit, subset};
use lp_model::{Column, MemberSet, Model, Row, Terms};
use std::alloc::{AllocError, Global};
use std::test::Fail;

// How many places a set has, about the ends of words and of four words.
const SIZES: [u16; 10] = [0, 1, 63, 64, 65, 127, 128, 255, 256, 257];

// Rows and columns for so many places but one: a row has two, a column three.
const SHAPES: [(u16, u16); 9] = [
    (0, 0),
    (30, 1),
    (32, 0),
    (31, 1),
    (62, 1),
    (64, 0),
    (126, 1),
    (128, 0),
    (127, 1),
];

// Which places are to be in a set: all, none, the first, the last, or every third.
#[derive(Clone, Copy)]
enum Places {
    All,
    None,
    First,
    Last,
    Thirds,
}

const EACH: [Places; 5] = [
    Places::All,
    Places::None,
    Places::First,
    Places::Last,
    Places::Thirds,
];

// Whether a place is one of them.
fn is_in(places: Places, place: usize, size: usize) -> bool {
    match places {
        Places::All => true,
        Places::None => false,
        Places::First => place == 0,
        Places::Last => size.saturating_sub(1) == place,
        Places::Thirds => place % 3 == 0,
    }
}

// What the answers to questions to a set and another one are to be.
#[derive(Drop)]
struct Expected {
    within: bool,
    meets: bool,
    count: u64,
}

impl Expected {
    // The answers before the first place.
    fn new() -> Expected {
        Expected {
            within: true,
            meets: false,
            count: 0,
        }
    }

    // Goes on by a place, which the one set and the other have or not.
    fn pass(&mut self, first: bool, second: bool) {
        self.within = self.within && (!first || second);
        self.meets = self.meets || first && second;
        self.count = self.count.saturating_add(u64::from(first));
    }
}

// Words with the bits at these places.
fn words_of(alloc: Global, places: Places, size: usize) -> Result<Vec<u64>, AllocError>
    requires { size < 2 ^ 16 }
    ensures { IfOk result (λ words. length words.items ≡ div_ceil size 64) }
{
    let mut words = vec![in alloc; 0; size.div_ceil(64)]?;
    for place in 0..size {
        put_bit(words.as_mut_slice(), place, is_in(places, place, size));
    }
    Ok(words)
}

// Whether the answers of words with these places are those expected.
fn do_words_agree(a: &[u64], b: &[u64], first: Places, second: Places, size: usize) -> bool
    requires few { size < 2 ^ 16 }
    requires a { length a.now ≡ div_ceil size 64 }
    requires b { length b.now ≡ div_ceil size 64 }
{
    let mut expected = Expected::new();
    let mut next = first_bit(a, 0);
    for place in 0..size {
        let is_first = is_in(first, place, size);
        if has_bit(a, place) != is_first || (next == place) != is_first {
            return false;
        }
        if is_first {
            next = first_bit(a, place + 1);
        }
        expected.pass(is_first, is_in(second, place, size));
    }
    next >= size
        && count(a) == expected.count
        && subset(a, b) == expected.within
        && meets(a, b) == expected.meets
}

// The same of each two kinds of places.
fn do_all_words_agree(alloc: Global, size: usize) -> Result<bool, AllocError>
    requires { size < 2 ^ 16 }
{
    for first in EACH {
        let a = words_of(alloc, first, size)?;
        for second in EACH {
            let b = words_of(alloc, second, size)?;
            if !do_words_agree(a.as_slice(), b.as_slice(), first, second, size) {
                return Ok(false);
            }
        }
    }
    Ok(true)
}

// A program with so many rows and columns, none of which asks for anything.
fn program_of(alloc: Global, rows: u16, columns: u16) -> Option<Model> {
    let mut model = Model::new(alloc, false);
    for index in 0..columns {
        let column = Column::new(None, None, false);
        model.add_column(alloc, &index.to_be_bytes(), column).ok()?;
    }
    for index in 0..rows {
        let terms = Terms::new(Vec::new(alloc));
        let row = Row::new(terms, None, None);
        model.add_row(alloc, &index.to_be_bytes(), row).ok()?;
    }
    Some(model)
}

// The set of the members at these places.
fn members_of(
    alloc: Global,
    model: &Model,
    places: Places,
    size: usize,
) -> Result<MemberSet, AllocError>
    ensures { IfOk result (IsSetOf model.now) }
{
    let mut set = MemberSet::empty(alloc, model)?;
    let mut place: usize = 0;
    for member in model.possible_members() {
        if is_in(places, place, size) {
            set.insert(member);
        }
        place = place.saturating_add(1);
    }
    Ok(set)
}

// Whether the answers of sets with the members at these places are those expected.
fn do_members_agree(
    model: &Model,
    a: &MemberSet,
    b: &MemberSet,
    first: Places,
    second: Places,
    size: usize,
) -> bool
    requires a { IsSetOf model.now a.now }
    requires b { IsSetOf model.now b.now }
{
    let mut expected = Expected::new();
    let mut members = a.iter();
    let mut place: usize = 0;
    for member in model.possible_members() {
        let is_first = is_in(first, place, size);
        if is_first && members.next() != Some(member) {
            return false;
        }
        expected.pass(is_first, is_in(second, place, size));
        place = place.saturating_add(1);
    }
    place == size
        && members.next().is_none()
        && a.count() == expected.count
        && a.within(b) == expected.within
        && a.meets(b) == expected.meets
}

// The same of sets that are made of these places.
fn do_made_agree(
    alloc: Global,
    model: &Model,
    first: Places,
    second: Places,
    size: usize,
) -> Result<bool, AllocError> {
    let a = members_of(alloc, model, first, size)?;
    let b = members_of(alloc, model, second, size)?;
    Ok(do_members_agree(model, &a, &b, first, second, size))
}

// The same of each two kinds of places.
fn do_all_members_agree(alloc: Global, rows: u16, columns: u16) -> Option<bool> {
    let model = program_of(alloc, rows, columns)?;
    let size = 2 * usize::from(rows) + 3 * usize::from(columns);
    for first in EACH {
        for second in EACH {
            if !do_made_agree(alloc, &model, first, second, size).ok()? {
                return Some(false);
            }
        }
    }
    Some(true)
}

#[test]
fn words(rt: HostRuntime) -> Result<(), Fail> {
    for size in SIZES {
        assert!(rt; do_all_words_agree(rt.alloc(), usize::from(size))?);
    }
    Ok(())
}

#[test]
fn members(rt: HostRuntime) -> Result<(), Fail> {
    for (rows, columns) in SHAPES {
        assert!(rt; do_all_members_agree(rt.alloc(), rows, columns) == Some(true));
    }
    Ok(())
}
