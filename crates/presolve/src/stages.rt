//! Systems while they are reduced.
use certs::System;
use std::marker::Model;

/// A system, and which of its rows are not removed yet.
#[derive(Drop)]
pub struct Stage {
    pub system: System,
    pub live: Vec<bool>,
}

impl Model for Stage {
    ghost use Rattle.reductions.specs.Stage.{Stage as SystemStage};

    ghost Value = { SystemStage };

    ghost view = { λ s. record { system = s.system; live = s.live.items } };
}
