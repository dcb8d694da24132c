// The setup of commands from the texts of their files. Its relation to the texts is in specs/Held.
use lucid_conf::{Limits, Scene};
use lucid_core::Core;
use lucid_top_fit::{Composition, Fitting};

/// A program under the limits of a target.
#[derive(Drop)]
pub struct Target {
    pub core: Core,
    pub limits: Limits,
}

/// The program of a network, its limits and its scenario.
#[derive(Drop)]
pub struct Network {
    pub target: Target,
    pub scene: Scene,
}

/// A program that is placed in the stages of a target.
#[derive(Drop)]
pub struct Pipes {
    pub target: Target,
    pub fitted: Fitting,
}

/// Pipelines that are ready to run.
#[derive(Drop)]
pub struct Ready {
    pub pipes: Pipes,
    pub scene: Scene,
}

/// A target, and the code that passes make of its program.
#[derive(Drop)]
pub struct Measured {
    pub target: Target,
    pub made: Composition,
}
