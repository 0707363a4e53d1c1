//! Points and rays that take little memory where most of their values are 0.
ghost use Rattle.std.specs.Prelude.{◌≡◌, ◌<◌, ◌≤◌, ◌^◌, ◌-◌, ◌++◌, ◌∷◌, [], IfOk, OnOk, All, length, replicate};
ghost use Rattle.rational.specs.Rational.{zero_ℚ};
ghost use Rattle.certs.specs.Packed.{HasNonzeros};

use crate::evidence::{Point, Ray, Values};
use frac128::Frac;
use std::alloc::{AllocError, Global};
use std::marker::Model;

/// A value, and how many zeros stand before it.
#[derive(Clone, Copy)]
struct Entry {
    zeros: usize,
    value: Frac,
}

/// Values, kept by those that are not 0, with as many zeros behind the last. Contracts see the list.
#[derive(Drop)]
pub struct PackedValues {
    entries: Vec<Entry>,
    rest: usize,
    count: usize,
}

impl Model for PackedValues {
    ghost use Rattle.std.specs.Prelude.{◌≡◌, ◌≤◌, List, length};
    ghost use Rattle.rational.specs.Rational.{ℚ};
    ghost use Rattle.certs.specs.Packed.{unpacked};

    ghost Value = { List ℚ };

    ghost view = { λ v. unpacked v.entries.items v.rest };

    ghost invariant = { λ v. (v.count ≡ length (unpacked v.entries.items v.rest)) × (v.rest ≤ v.count) };
}

impl PackedValues {
    /// No values.
    pub fn new(alloc: Global) -> PackedValues
        ensures { result ≡ [] }
    {
        PackedValues {
            entries: Vec::new(alloc),
            rest: 0,
            count: 0,
        }
    }

    /// What is kept of values.
    pub fn of(alloc: Global, values: &[Frac]) -> Result<PackedValues, AllocError>
        ensures { IfOk result (λ packed. packed ≡ values.now) }
    {
        let mut packed = PackedValues::new(alloc);
        for value in values {
            packed.push(*value)?;
        }
        Ok(packed)
    }

    /// How many values there are, those that are 0 too.
    pub fn len(&self) -> usize
        ensures { result ≡ length self.now }
    {
        self.count
    }

    /// Appends a value.
    pub fn push(&mut self, value: Frac) -> Result<(), AllocError>
        requires { length self.old < 2 ^ 63 }
        ensures { OnOk result (self.new ≡ self.old ++ value ∷ []) }
    {
        if value == Frac::whole(0) {
            self.rest += 1;
        } else {
            self.entries.push(Entry {
                zeros: self.rest,
                value,
            })?;
            self.rest = 0;
        }
        self.count += 1;
        Ok(())
    }

    /// Appends zeros, up to so many values. It takes no memory.
    pub fn fill(&mut self, count: usize)
        requires { length self.old ≤ count }
        ensures { self.new ≡ self.old ++ replicate (count - length self.old) zero_ℚ }
    {
        self.rest += count - self.count;
        self.count = count;
    }

    /// The whole list.
    pub fn unpacked(&self, alloc: Global) -> Result<Values, AllocError>
        ensures { IfOk result (λ values. values ≡ self.now) }
    {
        let mut values = Vec::new(alloc);
        for entry in self.entries.as_slice() {
            push_zeros(entry.zeros, &mut values)?;
            values.push(entry.value)?;
        }
        push_zeros(self.rest, &mut values)?;
        Ok(Values::new(values))
    }

    /// Puts the values in the place of zeros, and gives the columns whose values are not 0.
    pub fn spread(&self, alloc: Global, values: &mut [Frac]) -> Result<Vec<u32>, AllocError>
        requires few { length self.now < 2 ^ 32 }
        requires zeros { values.old ≡ replicate (length self.now) zero_ℚ }
        ensures values { OnOk result (values.new ≡ self.now) }
        ensures columns { IfOk result (λ columns. HasNonzeros self.now columns.items) }
        ensures within { IfOk result (λ columns. All (λ j. j < length self.now) columns.items) }
    {
        let mut columns = Vec::new(alloc);
        let mut at = 0;
        for entry in self.entries.as_slice() {
            at += entry.zeros;
            values[at] = entry.value;
            columns.push(at as u32)?;
            at += 1;
        }
        Ok(columns)
    }
}

/// A point, kept by its values that are not 0. Contracts see the point.
#[derive(Drop)]
pub struct PackedPoint {
    pub values: PackedValues,
}

impl Model for PackedPoint {
    ghost use Rattle.certs.specs.declared.evidence.Point.{Point};

    ghost Value = { Point };

    ghost view = { λ p. record { values = p.values } };
}

impl PackedPoint {
    /// What is kept of a point.
    pub fn of(alloc: Global, point: &Point) -> Result<PackedPoint, AllocError>
        ensures { IfOk result (λ packed. packed ≡ point.now) }
    {
        Ok(PackedPoint {
            values: PackedValues::of(alloc, point.values.as_slice())?,
        })
    }

    /// The whole point.
    pub fn unpacked(&self, alloc: Global) -> Result<Point, AllocError>
        ensures { IfOk result (λ point. point ≡ self.now) }
    {
        Ok(Point {
            values: self.values.unpacked(alloc)?,
        })
    }
}

/// A ray, kept by its changes that are not 0. Contracts see the ray.
#[derive(Drop)]
pub struct PackedRay {
    pub values: PackedValues,
}

impl Model for PackedRay {
    ghost use Rattle.certs.specs.declared.evidence.Ray.{Ray};

    ghost Value = { Ray };

    ghost view = { λ r. record { values = r.values } };
}

impl PackedRay {
    /// What is kept of a ray.
    pub fn of(alloc: Global, ray: &Ray) -> Result<PackedRay, AllocError>
        ensures { IfOk result (λ packed. packed ≡ ray.now) }
    {
        Ok(PackedRay {
            values: PackedValues::of(alloc, ray.values.as_slice())?,
        })
    }

    /// The whole ray.
    pub fn unpacked(&self, alloc: Global) -> Result<Ray, AllocError>
        ensures { IfOk result (λ ray. ray ≡ self.now) }
    {
        Ok(Ray {
            values: self.values.unpacked(alloc)?,
        })
    }
}

// Appends so many zeros.
fn push_zeros(count: usize, values: &mut Vec<Frac>) -> Result<(), AllocError>
    ensures { OnOk result (values.new.items ≡ values.old.items ++ replicate count zero_ℚ) }
{
    for _ in 0..count {
        values.push(Frac::whole(0))?;
    }
    Ok(())
}
