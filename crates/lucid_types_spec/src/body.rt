// Bodies as they are put together.
use lucid_base::Items;
use lucid_core::{Ending, Expr, Stmt};

/// The statements of a block, and on which paths it returns.
#[derive(Drop)]
pub struct Body {
    pub steps: Items<Stmt>,
    pub ending: Ending,
}

/// The event of a `generate`. If a delay and a locate are both written, `delay_first` says that the delay is the inner one.
#[derive(Drop)]
pub struct Sending {
    pub event: u32,
    pub args: Items<Expr>,
    pub delay: Option<Expr>,
    pub to: Destination,
    pub delay_first: bool,
}

/// Where an event is sent: without a locate to the switch itself, else to a switch, or to each member of a group.
#[derive(Drop)]
pub enum Destination {
    Here,
    Switch(Expr),
    Group(Items<u32>),
}
