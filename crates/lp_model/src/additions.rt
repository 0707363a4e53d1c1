//! A new name, where it may be added; and names with copies of their values.
ghost use Rattle.std.specs.Prelude.{◌≡◌, ◌<◌, ◌^◌, ◌++◌, ◌∷◌, [], length, MatchResult, IfOk, OnErr};
ghost use Rattle.name_map.specs.Names.{names_of};
ghost use Rattle.lp_model.specs.Shown.{CanAdd};
ghost use Rattle.lp_model.specs.Refusals.{IsAddRefusal};

use crate::limits::LONGEST_NAME;
use crate::models::ModelStop;
use name_map::NameMap;
use std::alloc::{AllocError, Global};

/// Puts a name last with its value, where it is new, there are fewer than `most`, and it is not too long.
pub(crate) fn add_named<V: Drop>(
    map: &mut NameMap<V>,
    alloc: Global,
    name: &[u8],
    value: V,
    most: u32,
) -> Result<u32, ModelStop>
    ensures answer { MatchResult result
        (λ i. CanAdd (names_of map.old) most name.now × (i ≡ length map.old) × (map.new ≡ map.old ++ (name.now, value) ∷ []))
        (λ stop. IsAddRefusal (names_of map.old) most name.now stop) }
    ensures unchanged { OnErr result (map.new ≡ map.old) }
{
    if map.contains(name) {
        return Err(ModelStop::DuplicateName);
    }
    let count = map.len();
    if count >= most as usize || name.len() > LONGEST_NAME {
        return Err(ModelStop::Limit);
    }
    match map.push(alloc, name, value) {
        Ok(()) => Ok(count as u32),
        Err(AllocError) => Err(ModelStop::Memory),
    }
}

/// The same names, with copies of their values.
pub(crate) fn copied<V: Clone>(map: &NameMap<V>, alloc: Global) -> Result<NameMap<V>, AllocError>
    requires { (value copy : V) → V.is_clone value copy → copy ≡ value }
    ensures { IfOk result (λ copy. copy ≡ map.now) }
{
    let mut copy = NameMap::new(alloc);
    for index in 0..map.len() {
        let value = map.value(index).clone()?;
        copy.push(alloc, map.name(index), value)?;
    }
    Ok(copy)
}
