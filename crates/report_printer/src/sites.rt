//! The lines of sites: what a run was of.

ghost use Rattle.std.specs.Prelude.{◌≡◌, ◌++◌, ◌<◌, OnOk, length, map, All};
ghost use Rattle.report_text.specs.Grammar.{phrase_line, without_phrase, enforced_phrase, branch_phrase, site_phrases, phrases_text};
ghost use Rattle.report_printer.specs.Evidence.{ended, IsKnownMember, IsKnownSite};

use crate::lines::print_phrase;
use certs::Branch;
use lp_model::{Member, Model};
use report_text::{Phrase, StopPhrase, ToldSite};
use std::alloc::AllocError;

// Appends the lines of the active members that are left out.
fn print_left_out(model: &Model, left: &[Member], into: &mut Vec<u8>) -> Result<(), AllocError>
    requires { All (IsKnownMember model.now) left.now }
    ensures { OnOk result (into.new.items ≡ into.old.items ++ phrases_text model.now (map without_phrase left.now)) }
{
    for member in left {
        print_phrase(model, Phrase::Stop(StopPhrase::Without(*member)), into)?;
    }
    Ok(())
}

// Appends the lines of the members that are enforced.
fn print_enforced(model: &Model, enforced: &[Member], into: &mut Vec<u8>) -> Result<(), AllocError>
    requires { All (IsKnownMember model.now) enforced.now }
    ensures { OnOk result (into.new.items ≡ into.old.items ++ phrases_text model.now (map enforced_phrase enforced.now)) }
{
    for member in enforced {
        print_phrase(model, Phrase::Stop(StopPhrase::Enforced(*member)), into)?;
    }
    Ok(())
}

// Appends the line of a branch.
fn print_branch(model: &Model, branch: Branch, into: &mut Vec<u8>) -> Result<(), AllocError>
    requires { branch.column < length model.now.columns }
    ensures { OnOk result (into.new.items ≡ into.old.items ++ ended (phrase_line model.now (branch_phrase branch))) }
{
    print_phrase(model, Phrase::Stop(StopPhrase::Branch(branch)), into)?;
    Ok(())
}

// Appends the lines of branches.
fn print_path(model: &Model, path: &[Branch], into: &mut Vec<u8>) -> Result<(), AllocError>
    requires { All (λ b. b.column < length model.now.columns) path.now }
    ensures { OnOk result (into.new.items ≡ into.old.items ++ phrases_text model.now (map branch_phrase path.now)) }
{
    for branch in path {
        print_branch(model, *branch, into)?;
    }
    Ok(())
}

/// Appends the lines of a site: its kind, the active members that are left out, those that are enforced, and the branches of
/// its path.
pub(crate) fn print_site(
    model: &Model,
    site: &ToldSite,
    into: &mut Vec<u8>,
) -> Result<(), AllocError>
    requires { IsKnownSite model.now site.now }
    ensures { OnOk result (into.new.items ≡ into.old.items ++ phrases_text model.now (site_phrases site.now)) }
{
    print_phrase(model, Phrase::Stop(StopPhrase::Site(site.kind)), into)?;
    print_left_out(model, site.left.as_slice(), into)?;
    print_enforced(model, site.enforced.as_slice(), into)?;
    print_path(model, site.path.as_slice(), into)?;
    Ok(())
}
