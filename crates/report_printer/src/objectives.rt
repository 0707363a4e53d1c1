//! The lines of rays, of values of the objective, and of duals.

ghost use Rattle.std.specs.Prelude.{◌≡◌, ◌++◌, ◌∷◌, OnOk, All};
ghost use Rattle.report_text.specs.Grammar.{value_phrases, objective_phrases, dual_phrases, unbounded_phrases, bounded_phrases, phrases_text};
ghost use Rattle.report_text.specs.Form.{IsValueWithin};
ghost use Rattle.report_printer.specs.EvidenceNumbers.{IsBoundedWithin, IsDualWithin, IsRayWithin, HasValuesWithin};
ghost use Rattle.report_printer.specs.Evidence.{IsKnownSource, IsKnownPoint, IsKnownRay, IsKnownBounded};

use crate::lines::print_phrase;
use crate::nodes::print_uses;
use crate::points::{print_point, print_values};
use crate::words::push_line;
use certs::{Dual, PackedPoint, PackedRay};
use frac128::Frac;
use lp_model::Model;
use report_text::{Bounded, Phrase};
use std::alloc::AllocError;

// Appends the lines of a ray: each change that is not 0 has one.
fn print_ray(model: &Model, ray: &PackedRay, into: &mut Vec<u8>) -> Result<(), AllocError>
    requires { IsKnownRay model.now ray.now }
    ensures text { OnOk result (into.new.items ≡ into.old.items ++ phrases_text model.now (Phrase.Ray ∷ value_phrases 0 ray.now.values)) }
    ensures within { OnOk result (IsRayWithin ray.now) }
{
    push_line(b"ray", into)?;
    let ray = ray.unpacked(*into.allocator())?;
    print_values(model, ray.values.as_slice(), into)
}

/// Appends the lines of a point from which the objective runs away, and of a ray along which it does.
pub(crate) fn print_unbounded(
    model: &Model,
    point: &PackedPoint,
    ray: &PackedRay,
    into: &mut Vec<u8>,
) -> Result<(), AllocError>
    requires point { IsKnownPoint model.now point.now }
    requires ray { IsKnownRay model.now ray.now }
    ensures text { OnOk result (into.new.items ≡ into.old.items ++ phrases_text model.now (unbounded_phrases point.now ray.now)) }
    ensures within { OnOk result (HasValuesWithin point.now × IsRayWithin ray.now) }
{
    push_line(b"unbounded", into)?;
    print_point(model, point, into)?;
    print_ray(model, ray, into)?;
    Ok(())
}

// Appends the line of the objective's value, where it is told.
fn print_objective(model: &Model, value: Option<Frac>, into: &mut Vec<u8>) -> Result<(), AllocError>
    ensures text { OnOk result (into.new.items ≡ into.old.items ++ phrases_text model.now (objective_phrases value)) }
    ensures within { IsValueWithin value }
{
    if let Some(value) = value {
        print_phrase(model, Phrase::Objective(value), into)?;
    }
    Ok(())
}

// Appends the lines of a dual: its bound, and its shares.
fn print_dual(model: &Model, dual: &Dual, into: &mut Vec<u8>) -> Result<(), AllocError>
    requires { All (λ s. IsKnownSource model.now s.source) dual.now.combo.shares }
    ensures text { OnOk result (into.new.items ≡ into.old.items ++ phrases_text model.now (dual_phrases dual.now)) }
    ensures within { OnOk result (IsDualWithin dual.now) }
{
    print_phrase(model, Phrase::Bound(dual.bound), into)?;
    push_line(b"dual", into)?;
    print_uses(model, dual.combo.shares.as_slice(), into)?;
    Ok(())
}

/// Appends the lines of how far the objective can go: a point, the objective's value there, where it is told, and a dual with
/// its bound.
pub(crate) fn print_bounded(
    model: &Model,
    bounded: &Bounded,
    into: &mut Vec<u8>,
) -> Result<(), AllocError>
    requires { IsKnownBounded model.now bounded.now }
    ensures text { OnOk result (into.new.items ≡ into.old.items ++ phrases_text model.now (bounded_phrases bounded.now)) }
    ensures within { OnOk result (IsBoundedWithin bounded.now) }
{
    push_line(b"bounded", into)?;
    print_point(model, &bounded.point, into)?;
    print_objective(model, bounded.objective, into)?;
    print_dual(model, &bounded.dual, into)?;
    Ok(())
}
